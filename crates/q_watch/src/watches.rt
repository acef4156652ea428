//! A pair of watched literals for each clause.
ghost use Rattle.std.specs.Prelude.{◌≡◌, ◌<◌, ◌⊎◌, ℕ, length, slice_get, slice_set, OnOk, OnErr, MatchOption, Some};
ghost use Rattle.q_logic.specs.Prelude.{Literal, IsBelow, Clause, IsIn, ArePairs, slot};
ghost use Rattle.q_kernel.specs.Prelude.{Seen, slots};
ghost use Rattle.q_watch.specs.declared.entry.Pair.{Pair};
ghost use Rattle.q_watch.specs.Rows.{row_of};
ghost use Rattle.q_watch.specs.Watches.{IsPairOf, IsPaired, AreWatchesOf, AreRightFor, IsOtherOf, IsRewatched, IsSame, IsLess};

use crate::entry::{Entry, Pair};
use crate::rows::Rows;
use q_kernel::{ClauseId, Kernel};
use q_logic::{Lit, NoMemory};
use std::alloc::Global;

// Where so many clauses were met along lists, and twice as many as there are, the pairs are made. They cost about as much.
const PATIENCE: u64 = 1_024;

/// For each clause two of its literals, and for each literal the clauses that watch it. They are made for one kernel, by one pass, and
/// which literals a clause watches may change while sets grow beside that kernel: any two of them are right for the empty set.
#[derive(Drop)]
pub struct Watches {
    pub(crate) pairs: Vec<Pair>,
    pub(crate) rows: Rows,
    ready: bool,
    // so many clauses were met along lists
    met: u64,
}

impl Watches {
    /// They take no memory.
    pub fn new(alloc: Global) -> Watches
        ensures { (k : Seen) → AreRightFor k result }
    {
        Watches {
            pairs: Vec::new(alloc),
            rows: Rows::new(alloc),
            ready: false,
            met: 0,
        }
    }

    /// Whether they were made.
    pub fn are_ready(&self) -> bool
        ensures { result ≡ self.now.ready }
    {
        self.ready
    }

    /// Drops what was made for a kernel, so that any other may come. The memory stays.
    pub fn forget(&mut self)
        ensures { (k : Seen) → AreRightFor k self.new }
    {
        self.ready = false;
        self.met = 0;
    }

    /// So many clauses more were met along a list.
    pub fn meet(&mut self, clauses: u32)
        ensures { IsSame self.old self.new }
    {
        self.met = self.met.saturating_add(u64::from(clauses));
    }

    /// Makes them for a kernel, where enough clauses were met along lists. Where memory is wanting they are not made.
    pub fn learn(&mut self, kernel: &Kernel)
        requires { AreRightFor kernel.now self.old }
        ensures { AreRightFor kernel.now self.new }
    {
        if self.ready || self.met < patience(kernel) {
            return;
        }
        self.met = 0;
        self.ready = self.build(kernel).is_ok();
    }

    /// How many clauses watch a literal.
    pub fn count(&self, lit: Lit) -> usize
        ensures { result ≡ length (row_of self.now.rows lit) }
    {
        self.rows.count(lit)
    }

    fn build(&mut self, kernel: &Kernel) -> Result<(), NoMemory>
        ensures { OnOk result (AreWatchesOf kernel.now self.new) }
    {
        self.rows.clear();
        for id in kernel.ids() {
            self.put(kernel, id)?;
        }
        Ok(())
    }

    // Watches a clause.
    fn put(&mut self, kernel: &Kernel, id: ClauseId) -> Result<(), NoMemory>
        requires { (C : Clause) × (slot (slots kernel.now) id ≡ Some C) }
        ensures { OnOk result ((d : ℕ) (D : Clause) (j : Literal)
            → slot (slots kernel.now) d ≡ Some D → IsIn j D → (d ≡ id) ⊎ IsPaired self.old d D
            → IsPaired self.new d D) }
    {
        let Some(pair) = pair_of(kernel.lits(id)) else {
            return Ok(());
        };
        self.watch(id, &pair)
    }

    fn watch(&mut self, id: ClauseId, pair: &Pair) -> Result<(), NoMemory>
        ensures here { OnOk result
            ((D : Clause) → IsPairOf D pair.now → IsPaired self.new id D) }
        ensures others { OnOk result
            ((d : ℕ) (D : Clause) → (d ≡ id → ⊥) → IsPaired self.old d D → IsPaired self.new d D) }
    {
        self.rows.push(
            pair.first,
            Entry {
                id,
                blocker: pair.second,
            },
        )?;
        self.rows.push(
            pair.second,
            Entry {
                id,
                blocker: pair.first,
            },
        )?;
        put_at(&mut self.pairs, id, pair)
    }

    /// The other one of the literals that a clause watches, if it watches this one.
    pub(crate) fn other(&self, id: ClauseId, lit: Lit) -> Option<Lit>
        ensures { IsOtherOf self.now id lit result }
    {
        let pair = self.pairs.get(id as usize)?;
        if pair.first.is(lit) {
            return Some(pair.second);
        }
        if pair.second.is(lit) {
            return Some(pair.first);
        }
        None
    }

    /// Lets a clause watch another literal in the place of one, in whose row it stands at a place.
    pub(crate) fn rewatch(
        &mut self,
        lit: Lit,
        i: usize,
        entry: &Entry,
        new: Lit,
    ) -> Result<(), NoMemory>
        requires apart { new ≡ lit → ⊥ }
        requires i { i < length (row_of self.old.rows lit) }
        requires pair { entry.now.id < length self.old.pairs.items }
        ensures ok { OnOk result (IsRewatched self.old self.new lit i entry.now new) }
        ensures err { OnErr result (IsLess self.old self.new) }
        ensures ready { self.new.ready ≡ self.old.ready }
    {
        self.rows.push(new, *entry)?;
        self.rows.remove(lit, i);
        set_at(&mut self.pairs, entry.id as usize, new, entry.blocker);
        Ok(())
    }
}

fn set_at(pairs: &mut Vec<Pair>, at: usize, first: Lit, second: Lit)
    requires { at < length pairs.old.items }
    ensures { pairs.new.items
        ≡ slice_set pairs.old.items at (record { first = first; second = second }) }
{
    pairs[at] = Pair { first, second };
}

fn patience(kernel: &Kernel) -> u64 {
    (kernel.clauses() as u64)
        .saturating_mul(2)
        .saturating_add(PATIENCE)
}

// Two literals of a clause, or its only one twice.
fn pair_of(clause: &[Lit]) -> Option<Pair>
    requires { ArePairs IsBelow clause.now }
    ensures { MatchOption result ((j : Literal) → IsIn j clause.now → ⊥) (IsPairOf clause.now) }
{
    let first = *clause.first()?;
    if clause.len() < 2 {
        return Some(Pair {
            first,
            second: first,
        });
    }
    Some(Pair {
        first,
        second: clause[1],
    })
}

fn put_at(pairs: &mut Vec<Pair>, id: ClauseId, pair: &Pair) -> Result<(), NoMemory>
    ensures here { OnOk result (slice_get pairs.new.items id ≡ Some pair.now) }
    ensures others { OnOk result
        ((d : ℕ) (p : Pair) → (d ≡ id → ⊥) → slice_get pairs.old.items d ≡ Some p
        → slice_get pairs.new.items d ≡ Some p) }
{
    lengthen(pairs, id, pair)?;
    set_at(pairs, id as usize, pair.first, pair.second);
    Ok(())
}

// Pairs up to the place of an id.
fn lengthen(pairs: &mut Vec<Pair>, id: ClauseId, pair: &Pair) -> Result<(), NoMemory>
    ensures room { OnOk result (id < length pairs.new.items) }
    ensures same { OnOk result
        ((d : ℕ) (p : Pair) → slice_get pairs.old.items d ≡ Some p
        → slice_get pairs.new.items d ≡ Some p) }
{
    let end = id as usize + 1;
    if pairs.len() < end {
        pairs.resize(end, *pair)?;
    }
    Ok(())
}
