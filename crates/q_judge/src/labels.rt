//! Labels for the variables that clauses connect.
ghost use Rattle.std.specs.Prelude.{◌≡◌, ℕ, true, cond, eqb};
ghost use Rattle.q_logic.specs.Prelude.{Literal, IsIn, is_bound};
ghost use Rattle.q_judge.specs.Regions.{label_of, region_of, IsCoarser};

use crate::view::View;
use q_logic::{Lit, NoMemory};
use q_pages::ByNumber;
use std::alloc::Global;
use std::marker::Model;

/// A label for each variable, and so its region. Regions can become one, but are never parted.
#[derive(Drop)]
pub struct Labels {
    alloc: Global,
    // 0 for a variable without a label
    labels: ByNumber<u32>,
    // whether a label is a region of its own; the others are the region 0
    live: Vec<bool>,
    // the slots whose clauses were met while labels are made
    met: Vec<bool>,
}

// A label, and the variable to which all that get it are inner.
#[derive(Clone, Copy)]
struct Spread {
    w: u32,
    label: u32,
}

impl Model for Labels {
    ghost use Rattle.q_judge.specs.Regions.{Labelled};

    ghost Value = { Labelled };

    ghost view = { λ l. record { labels = l.labels; live = l.live.items } };
}

impl Labels {
    /// All variables are in one region.
    pub fn new(alloc: Global) -> Labels
        ensures { (v : ℕ) → region_of result v ≡ 0 }
    {
        Labels {
            alloc,
            labels: ByNumber::new(alloc, 0),
            live: Vec::new(alloc),
            met: Vec::new(alloc),
        }
    }

    /// All variables are in one region again.
    pub fn forget(&mut self)
        ensures { (v : ℕ) → region_of self.new v ≡ 0 }
    {
        self.labels.clear_all(self.alloc);
        self.live.clear();
    }

    fn label_of(&self, var: u32) -> u32
        ensures { result ≡ label_of self.now var }
    {
        self.labels.get(var as usize)
    }

    /// The region of a variable.
    pub fn region_of(&self, var: u32) -> u32
        ensures { result ≡ region_of self.now var }
    {
        let label = self.label_of(var);
        if self.live.get(label as usize).copied().unwrap_or(false) {
            label
        } else {
            0
        }
    }

    /// Lets the variables of a clause be in one region, which is 0.
    pub fn merge(&mut self, clause: &[Lit])
        ensures one { (k : Literal) → IsIn k clause.now → region_of self.new k.var ≡ 0 }
        ensures coarser { IsCoarser self.old self.new }
    {
        for k in clause {
            let region = self.region_of(k.var());
            self.unite(region);
        }
    }

    // Lets a region be one with the region 0.
    fn unite(&mut self, region: u32)
        ensures { (v : ℕ) → region_of self.new v
            ≡ cond (eqb (region_of self.old v) region) 0 (region_of self.old v) }
    {
        if let Some(live) = self.live.get_mut(region as usize) {
            *live = false;
        }
    }

    /// Gives the variable v the label of w.
    pub fn inherit(&mut self, v: u32, w: u32) -> Result<(), NoMemory>
        ensures { (x : ℕ) → (x ≡ v → ⊥) → region_of self.new x ≡ region_of self.old x }
    {
        let label = self.label_of(w);
        if label == 0 {
            return Ok(());
        }
        self.put(v, label)
    }

    fn put(&mut self, var: u32, label: u32) -> Result<(), NoMemory>
        ensures { (x : ℕ) → (x ≡ var → ⊥) → region_of self.new x ≡ region_of self.old x }
    {
        self.labels.put(var as usize, label)
    }

    /// Gives a label to each existential variable that is inner to w and occurs, the same one where clauses
    /// connect them. This costs the size of the formula. Which labels they are is not promised: they are to
    /// be verified.
    pub fn make(&mut self, view: &View, queue: &mut Vec<u32>, w: u32) -> Result<(), NoMemory>
        requires { is_bound view.now.prefix w ≡ true }
    {
        self.forget();
        self.met.clear();
        self.met.resize(view.slots(), false)?;
        for at in 0..view.slots() {
            self.spread(view, queue, w, at)?;
        }
        self.live.resize(view.slots().saturating_add(1), true)?;
        Ok(())
    }

    // Labels what clauses connect to the clause in a slot, unless it was met. The label is the slot's number, counted
    // from 1.
    fn spread(
        &mut self,
        view: &View,
        queue: &mut Vec<u32>,
        w: u32,
        at: usize,
    ) -> Result<(), NoMemory>
        requires { is_bound view.now.prefix w ≡ true }
    {
        let Ok(slot) = u32::try_from(at) else {
            return Ok(());
        };
        queue.clear();
        self.meet(queue, slot)?;
        let spread = Spread {
            w,
            label: slot.saturating_add(1),
        };
        for head in 0..usize::MAX {
            let Some(next) = queue.get(head).copied() else {
                return Ok(());
            };
            self.visit(view, queue, next, spread)?;
        }
        Ok(())
    }

    // Labels the inner variables of a clause, and puts the clauses with those that had no label into the queue.
    fn visit(
        &mut self,
        view: &View,
        queue: &mut Vec<u32>,
        slot: u32,
        spread: Spread,
    ) -> Result<(), NoMemory>
        requires { is_bound view.now.prefix spread.w ≡ true }
    {
        let Some(clause) = view.clause(slot as usize) else {
            return Ok(());
        };
        for k in clause {
            if view.scope().is_inner(k.var(), spread.w) && self.label_of(k.var()) == 0 {
                self.put(k.var(), spread.label)?;
                self.meet_all(queue, view.slots_of(*k))?;
                self.meet_all(queue, view.slots_of(k.negated()))?;
            }
        }
        Ok(())
    }

    fn meet_all(&mut self, queue: &mut Vec<u32>, slots: &[u32]) -> Result<(), NoMemory> {
        for slot in slots {
            self.meet(queue, *slot)?;
        }
        Ok(())
    }

    // Puts a slot into the queue, but only once.
    fn meet(&mut self, queue: &mut Vec<u32>, slot: u32) -> Result<(), NoMemory> {
        if let Some(met) = self.met.get_mut(slot as usize) {
            if !*met {
                *met = true;
                queue.push(slot)?;
            }
        }
        Ok(())
    }
}
