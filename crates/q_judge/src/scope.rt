//! The checker's prefix, with a look-up of each variable's block.
ghost use Rattle.std.specs.Prelude.{◌≡◌, ◌↔◌, IsTrue, ◌≤◌, ◌<◌, ◌+◌, ◌-◌, ◌^◌, ◌++◌, ℕ, suc, true, false, length, None, Some, OnOk, OnErr, IfOk, slice_get, slice_set, slice_index_or};
ghost use Rattle.q_logic.specs.Prelude.{Distinct, is_bound, is_existential, is_universal, outer_or_same, blocks, SameBlocks, inner_existential, insert_after, removed_from};
ghost use Rattle.q_judge.specs.Scopes.{first_or, bounds_from};

use crate::binding_row::BindingRow;
use crate::bindings::{
    Binding, Bindings, are_same_bindings, binding_of, bindings_of, is_exists, rank_of,
};
use crate::links::{join_blocks, link_after, link_before};
use q_logic::{Bound, NoMemory, Quant};
use std::alloc::Global;
use std::marker::Model;

/// The prefix, as a linked list. A block keeps its number as long as it has a variable; where a block
/// goes, the smaller one of its neighbours takes the other one's number.
#[derive(Drop)]
pub struct Scope {
    bindings: BindingRow,
    counts: Vec<usize>,
    first: Option<u32>,
}

impl Model for Scope {
    ghost use Rattle.std.specs.Prelude.{length};
    ghost use Rattle.q_logic.specs.Prelude.{Prefix};
    ghost use Rattle.q_judge.specs.Scopes.{bounds_from, AreScoped};

    ghost Value = { Prefix };

    ghost view = { λ s. bounds_from s.bindings.items s.first (length s.bindings.items) };

    ghost invariant = { λ s. AreScoped (bounds_from s.bindings.items s.first
        (length s.bindings.items)) s.first s.bindings.items s.counts.items };
}

impl Scope {
    pub fn binds(&self, var: u32) -> bool
        ensures { result ≡ is_bound self.now var }
    {
        binding_of(&self.bindings, var).is_some()
    }

    pub fn is_existential(&self, var: u32) -> bool
        ensures { result ≡ is_existential self.now var }
    {
        match binding_of(&self.bindings, var) {
            Some(binding) => is_exists(binding.quant),
            None => false,
        }
    }

    pub fn is_universal(&self, var: u32) -> bool
        ensures { result ≡ is_universal self.now var }
    {
        match binding_of(&self.bindings, var) {
            Some(binding) => !is_exists(binding.quant),
            None => false,
        }
    }

    /// Whether a stands at or before v, or in its block.
    pub fn outer_or_same(&self, a: u32, v: u32) -> bool
        requires first { is_bound self.now a ≡ true }
        requires second { is_bound self.now v ≡ true }
        ensures { result ≡ outer_or_same self.now a v }
    {
        rank_of(&self.bindings, a) <= rank_of(&self.bindings, v)
    }

    /// Whether a variable is existential, and inner to u.
    pub fn is_inner(&self, var: u32, u: u32) -> bool
        requires { is_bound self.now u ≡ true }
        ensures { result ≡ inner_existential self.now u var }
    {
        self.is_existential(var) && !self.outer_or_same(var, u)
    }

    /// The variables that stand before and after a variable. Nothing is promised of them: who asks tests them.
    pub(crate) fn beside(&self, var: u32) -> (Option<u32>, Option<u32>) {
        match binding_of(&self.bindings, var) {
            Some(binding) => (binding.before, binding.after),
            None => (None, None),
        }
    }

    /// The prefix of distinct variables.
    pub fn start(alloc: Global, prefix: &[Bound]) -> Result<Scope, NoMemory>
        requires { Distinct prefix.now }
        ensures { IfOk result (λ s. s ≡ prefix.now) }
    {
        let Bindings { bindings, counts } = bindings_of(alloc, prefix)?;
        let first = first_of(prefix);
        Ok(Scope {
            bindings,
            counts,
            first,
        })
    }

    /// Puts the existential v directly after the existential w, into its block.
    pub fn insert_after(&mut self, w: u32, v: u32) -> Result<(), NoMemory>
        requires absent { is_bound self.old v ≡ false }
        requires there { is_existential self.old w ≡ true }
        ensures ok { OnOk result (self.new ≡ insert_after w v self.old) }
        ensures err { OnErr result (self.new ≡ self.old) }
    {
        self.bindings.make_room(v)?;
        let _ = self.bindings.len();
        if let Some(binding) = binding_of(&self.bindings, w) {
            link_after(&mut self.bindings, &mut self.first, Some(w), Some(v));
            link_before(&mut self.bindings, binding.after, Some(v));
            let fresh = Binding {
                rank: binding.rank,
                quant: Quant::Exists,
                before: Some(w),
                after: binding.after,
            };
            self.bindings.put(v, Some(fresh));
            self.counts[binding.rank] += 1;
        }
        Ok(())
    }

    /// Takes a variable out. Where it was the last of its block, the blocks beside it become one.
    pub fn remove(&mut self, var: u32)
        requires { is_bound self.old var ≡ true }
        ensures { self.new ≡ removed_from var self.old }
    {
        let _ = self.bindings.len();
        if let Some(binding) = binding_of(&self.bindings, var) {
            link_after(
                &mut self.bindings,
                &mut self.first,
                binding.before,
                binding.after,
            );
            link_before(&mut self.bindings, binding.after, binding.before);
            self.bindings.replace(var, None);
            let left = count_down(&mut self.counts, binding.rank);
            if left == 0 {
                join_blocks(
                    &mut self.bindings,
                    &mut self.counts,
                    binding.before,
                    binding.after,
                );
            }
        }
    }

    /// Whether the two have the same blocks, each as a set. Where they are the same list, no table by variable is made.
    pub fn has_blocks_of(&self, alloc: Global, prefix: &[Bound]) -> Result<bool, NoMemory>
        requires { Distinct prefix.now }
        ensures { IfOk result (λ yes. IsTrue yes ↔ SameBlocks (blocks self.now)
            (blocks prefix.now)) }
    {
        let own = self.bounds(alloc)?;
        if are_equal(&own, prefix) {
            return Ok(true);
        }
        let mine = bindings_of(alloc, &own)?;
        let others = bindings_of(alloc, prefix)?;
        Ok(are_same_bindings(&mine.bindings, &others.bindings))
    }

    /// The variables in order.
    pub fn bounds(&self, alloc: Global) -> Result<Vec<Bound>, NoMemory>
        ensures same { IfOk result (λ bounds. bounds.items ≡ self.now) }
        ensures distinct { IfOk result (λ bounds. Distinct bounds.items) }
    {
        let mut bounds = Vec::new(alloc);
        let mut at = self.first;
        for _ in 0..self.bindings.len() {
            at = push_bound(&mut bounds, &self.bindings, at)?;
        }
        Ok(bounds)
    }
}

fn is_equal(a: Bound, b: Bound) -> bool
    ensures { result ≡ true → a ≡ b }
{
    a.var == b.var && is_exists(a.quant) == is_exists(b.quant)
}

// Whether two prefixes are the same list.
fn are_equal(own: &[Bound], others: &[Bound]) -> bool
    ensures { result ≡ true → own.now ≡ others.now }
{
    if own.len() != others.len() {
        return false;
    }
    for place in 0..own.len() {
        if !is_equal(own[place], others[place]) {
            return false;
        }
    }
    true
}

fn first_of(prefix: &[Bound]) -> Option<u32>
    ensures { result ≡ first_or prefix.now None }
{
    Some(prefix.first()?.var)
}

// Appends a variable that is scoped; what stands behind it comes next.
fn push_bound(
    bounds: &mut Vec<Bound>,
    bindings: &BindingRow,
    at: Option<u32>,
) -> Result<Option<u32>, NoMemory>
    ensures { IfOk result (λ next. (n : ℕ)
        → bounds.new.items ++ bounds_from bindings.now.items next n ≡ bounds.old.items
        ++ bounds_from bindings.now.items at (suc n)) }
{
    let Some(var) = at else { return Ok(None) };
    let Some(binding) = binding_of(bindings, var) else {
        return Ok(None);
    };
    bounds.push(Bound {
        quant: binding.quant,
        var,
    })?;
    Ok(binding.after)
}

fn count_down(counts: &mut Vec<usize>, rank: usize) -> usize
    requires inside { rank < length counts.old.items }
    requires some { 0 < slice_index_or counts.old.items rank 0 }
    ensures left { result ≡ slice_index_or counts.old.items rank 0 - 1 }
    ensures counts { counts.new.items ≡ slice_set counts.old.items rank
        (slice_index_or counts.old.items rank 0 - 1) }
{
    let left = counts[rank] - 1;
    counts[rank] = left;
    left
}
