//! Regions of variables, which tell that a literal is reducible without a walk.
ghost use Rattle.std.specs.Prelude.{◌≡◌, ◌⊎◌, ◌↔◌, ◌≤◌, ◌<◌, ℕ, true, false, length, slice_index_or, Some, None, OnOk, IsTrue};
ghost use Rattle.q_logic.specs.Prelude.{Literal, negation, Clause, IsIn, is_bound, is_universal, outer_or_same, inner_existential, Reducible, slot, live, others};
ghost use Rattle.q_sparse.specs.Rows.{item_at};
ghost use Rattle.q_kernel.specs.Prelude.{slots};
ghost use Rattle.q_reduce.specs.Regions.{no_regions, region_of, is_covered, key_of, IsRegional, AreRegions};

use crate::joining::{flatten, join_all, label_at, put_label};
use q_kernel::{ClauseId, Kernel};
use q_logic::{Lit, NoMemory};
use q_rule::{is_inner, is_universal};
use q_sparse::Sparse;
use std::alloc::Global;
use std::marker::Model;

/// Regions for the universal variables of one block and of those inside it: the existential literals of a clause that
/// are inner to such a variable lie in one region. They stay right while clauses go or lose literals.
#[derive(Drop)]
pub struct Regions {
    // the region of each variable, 0 for those that are not inner
    labels: Sparse<u32>,
    // the universal variables that the regions are for
    covered: Sparse<bool>,
    // the literals of these, each with the region in which it stands, in ascending order
    keys: Vec<u64>,
}

impl Model for Regions {
    ghost use Rattle.std.specs.Prelude.{◌≡◌, ◌≤◌, ◌<◌, ℕ, false, length, slice_index_or};
    ghost use Rattle.q_reduce.specs.Regions.{RegionMap};

    ghost Value = { RegionMap };

    ghost view = { λ r. record {
      labels = r.labels.items;
      covered = r.covered.items;
      keys = r.keys.items;
    } };

    ghost invariant = { λ r. (r.labels.none ≡ 0) × (r.covered.none ≡ false)
        × ((i j : ℕ) → i ≤ j → j < length r.keys.items
        → slice_index_or r.keys.items i 0 ≤ slice_index_or r.keys.items j 0) };
}

// Whether a variable is universal, and w is outer or same to it.
fn is_behind(kernel: &Kernel, var: u32, w: u32) -> bool
    requires { is_bound kernel.now.prefix w ≡ true }
    ensures { IsTrue result → outer_or_same kernel.now.prefix w var ≡ true }
{
    is_universal(kernel, var) && kernel.prefix().outer_or_same(w, var)
}

// Covers a variable of the row if it is universal, and w is outer or same to it.
fn cover(covered: &mut Sparse<bool>, kernel: &Kernel, var: u32, w: u32)
    requires { is_bound kernel.now.prefix w ≡ true }
    ensures none { covered.new.none ≡ covered.old.none }
    ensures behind { (u : ℕ) → item_at covered.new u ≡ true
        → (item_at covered.old u ≡ true) ⊎ (outer_or_same kernel.now.prefix w u ≡ true) }
{
    if is_behind(kernel, var, w) && (var as usize) < covered.len() {
        covered.set(var as usize, true);
    }
}

// A label for each existential variable that is inner to w. The universal variables that are not outer to w are covered. Gives
// the variables with labels.
fn start(
    labels: &mut Sparse<u32>,
    covered: &mut Sparse<bool>,
    kernel: &Kernel,
    w: u32,
) -> Result<Vec<u32>, NoMemory>
    requires bound { is_bound kernel.now.prefix w ≡ true }
    requires bare { (u : ℕ) → item_at covered.old u ≡ false }
    ensures labels { labels.new.none ≡ labels.old.none }
    ensures covered { covered.new.none ≡ covered.old.none }
    ensures behind { (u : ℕ) → item_at covered.new u ≡ true
        → outer_or_same kernel.now.prefix w u ≡ true }
{
    let end = kernel.greatest_var() as usize + 1;
    labels.grow(end)?;
    covered.grow(end)?;
    let mut inner = Vec::new(kernel.allocator());
    let mut at = kernel.prefix().first();
    for _ in 0..kernel.prefix().len() {
        let Some(bound) = at else { return Ok(inner) };
        if is_inner(kernel, bound.var, w) {
            put_label(labels, bound.var, bound.var);
            inner.push(bound.var)?;
        } else {
            cover(covered, kernel, bound.var, w);
        }
        at = kernel.prefix().after(bound.var);
    }
    Ok(inner)
}

// A literal and a region as one number.
fn key_of(lit: Lit, region: u32) -> u64
    ensures { result ≡ key_of lit region }
{
    lit.index() as u64 * 4_294_967_296 + u64::from(region)
}

// Notes the literals of a clause that stand beside a label.
fn note(
    keys: &mut Vec<u64>,
    labels: &Sparse<u32>,
    covered: &Sparse<bool>,
    clause: &[Lit],
) -> Result<(), NoMemory> {
    let region = clause
        .iter()
        .map(|k| label_at(labels, k.var()))
        .max()
        .unwrap_or(0);
    if region == 0 {
        return Ok(());
    }
    for l in clause {
        if covered.get(l.var() as usize) {
            keys.push(key_of(*l, region))?;
        }
    }
    Ok(())
}

fn note_all(
    keys: &mut Vec<u64>,
    labels: &Sparse<u32>,
    covered: &Sparse<bool>,
    kernel: &Kernel,
) -> Result<(), NoMemory> {
    for id in kernel.ids() {
        note(keys, labels, covered, kernel.lits(id))?;
    }
    Ok(())
}

impl Regions {
    /// Nothing is known.
    pub fn new(alloc: Global) -> Regions
        ensures { result ≡ no_regions }
    {
        Regions {
            labels: Sparse::new(alloc, 0),
            covered: Sparse::new(alloc, false),
            keys: Vec::new(alloc),
        }
    }

    /// Makes regions for the block of a variable. It costs the size of the formula, but for a small factor.
    pub fn build(&mut self, kernel: &Kernel, w: u32) -> Result<(), NoMemory>
        requires { is_bound kernel.now.prefix w ≡ true }
        ensures { AreRegions kernel.now.prefix (live (slots kernel.now)) self.new }
    {
        let filled = self.fill(kernel, w);
        if filled.is_err() || !self.is_right(kernel, w) {
            *self = Regions::new(kernel.allocator());
        }
        filled
    }

    /// Whether the regions tell that a literal is reducible in its clause.
    pub fn separates(&self, kernel: &Kernel, c: ClauseId, lit: Lit) -> bool
        requires live { (C : Clause) × (slot (slots kernel.now) c ≡ Some C) × IsIn lit C
            × (IsIn (negation lit) C → ⊥) }
        requires universal { is_universal kernel.now.prefix lit.var ≡ true }
        requires regions { AreRegions kernel.now.prefix (live (slots kernel.now)) self.now }
        ensures { IsTrue result → (C : Clause) → slot (slots kernel.now) c ≡ Some C
            → Reducible kernel.now.prefix (others c (slots kernel.now)) C lit }
    {
        match self.region_in(kernel, kernel.lits(c), lit.var()) {
            Some(region) => self.covers(lit.var()) && !self.has_noted(lit.negated(), region),
            None => true,
        }
    }

    // The region of a clause: of its first existential literal that is inner to u.
    fn region_in(&self, kernel: &Kernel, clause: &[Lit], u: u32) -> Option<u32>
        requires { is_bound kernel.now.prefix u ≡ true }
        ensures some { (r : ℕ) → result ≡ Some r
            → (k : Literal) × IsIn k clause.now
            × (inner_existential kernel.now.prefix u k.var ≡ true)
            × (region_of self.now k.var ≡ r) }
        ensures none { result ≡ None → (k : Literal) → IsIn k clause.now
            → inner_existential kernel.now.prefix u k.var ≡ true → ⊥ }
    {
        for k in clause {
            if is_inner(kernel, k.var(), u) {
                return Some(self.region_of(k.var()));
            }
        }
        None
    }

    fn region_of(&self, var: u32) -> u32
        ensures { result ≡ region_of self.now var }
    {
        label_at(&self.labels, var)
    }

    fn covers(&self, u: u32) -> bool
        ensures { result ≡ is_covered self.now u }
    {
        self.covered.get(u as usize)
    }

    fn has_noted(&self, lit: Lit, region: u32) -> bool
        ensures { IsTrue result ↔ IsIn (key_of lit region) self.now.keys }
    {
        self.keys.binary_search(&key_of(lit, region)).is_ok()
    }

    // Finds regions, which are still to be verified, for variables to which w is outer or same.
    fn fill(&mut self, kernel: &Kernel, w: u32) -> Result<(), NoMemory>
        requires { is_bound kernel.now.prefix w ≡ true }
        ensures { OnOk result ((u : ℕ) → is_covered self.new u ≡ true
            → outer_or_same kernel.now.prefix w u ≡ true) }
    {
        *self = Regions::new(kernel.allocator());
        let inner = start(&mut self.labels, &mut self.covered, kernel, w)?;
        join_all(&mut self.labels, kernel);
        flatten(&mut self.labels, &inner);
        let noted = note_all(&mut self.keys, &self.labels, &self.covered, kernel);
        self.keys.sort_unstable();
        noted
    }

    // Whether each clause has its literals that are inner to w in one region.
    fn is_right(&self, kernel: &Kernel, w: u32) -> bool
        requires { is_bound kernel.now.prefix w ≡ true }
        ensures { IsTrue result → (D : Clause) → IsIn D (live (slots kernel.now))
            → IsRegional kernel.now.prefix self.now w D }
    {
        for id in kernel.ids() {
            if !self.fits(kernel, kernel.lits(id), w) {
                return false;
            }
        }
        true
    }

    fn fits(&self, kernel: &Kernel, clause: &[Lit], w: u32) -> bool
        requires { is_bound kernel.now.prefix w ≡ true }
        ensures { IsTrue result → IsRegional kernel.now.prefix self.now w clause.now }
    {
        match self.region_in(kernel, clause, w) {
            Some(region) => {
                self.has_one(kernel, clause, w, region) && self.has_noted_all(clause, region)
            }
            None => true,
        }
    }

    // Whether the existential literals that are inner to w lie in the region.
    fn has_one(&self, kernel: &Kernel, clause: &[Lit], w: u32, region: u32) -> bool
        requires { is_bound kernel.now.prefix w ≡ true }
        ensures { IsTrue result → (k : Literal) → IsIn k clause.now
            → inner_existential kernel.now.prefix w k.var ≡ true
            → region_of self.now k.var ≡ region }
    {
        for k in clause {
            if is_inner(kernel, k.var(), w) && self.region_of(k.var()) != region {
                return false;
            }
        }
        true
    }

    // Whether the literals of covered variables are noted with the region.
    fn has_noted_all(&self, clause: &[Lit], region: u32) -> bool
        ensures { IsTrue result → (l : Literal) → IsIn l clause.now
            → is_covered self.now l.var ≡ true → IsIn (key_of l region) self.now.keys }
    {
        for l in clause {
            if self.covers(l.var()) && !self.has_noted(*l, region) {
                return false;
            }
        }
        true
    }
}
