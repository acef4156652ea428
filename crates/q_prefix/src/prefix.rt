// The flat prefix as a linked list of variables, so that one goes or comes without a move of the others. Each variable has the
// rank of its block, and ranks ascend to the inside: so the order of two variables is told by one comparison.
ghost use Rattle.std.specs.Prelude.{◌≡◌, ◌≤◌, ◌<◌, ◌+◌, ◌⊎◌, ◌≢◌, ℕ, Bool, true, false, length, slice_get, OnOk, IfOk, Some, None};
ghost use Rattle.q_logic.specs.Prelude.{greatest, is_bound, outer_or_same, Distinct, removed_from};
ghost use Rattle.q_logic.specs.declared.formulas.Quant.{Quant as Quantifier};
ghost use Rattle.q_logic.specs.declared.formulas.Bound.{Bound as BoundValue};
ghost use Rattle.q_arena.specs.Prelude.{Has, list_at};
ghost use Rattle.q_prefix.specs.Order.{FlatPrefix, quant_of, bound_after, bound_before, with_after, mark_at};

use crate::blocks::{fill, join_blocks};
use crate::marks::{Mark, Marks, grow_marks, mark_of, no_marks, set_mark};
use q_arena::Rings;
use q_logic::{Bound, NoMemory, Quant};
use q_sparse::{Filling, filling_of};
use std::alloc::Global;
use std::marker::Model;

/// A flat prefix. Its variables stand in a linked list, so that one goes or comes without a move of the
/// others, and the ranks of their blocks tell their order.
#[derive(Drop)]
pub struct Prefix {
    order: Rings,
    marks: Marks,
    spare: usize,
}

impl Model for Prefix {
    ghost use Rattle.std.specs.Prelude.{length, ◌-◌};
    ghost use Rattle.q_arena.specs.Prelude.{list_at};
    ghost use Rattle.q_prefix.specs.Order.{FlatPrefix, bounds_of, IsPrefix};

    ghost Value = { FlatPrefix };

    ghost view = { λ p. record {
      bounds = bounds_of p.marks.items (list_at p.order 0);
      spare = p.spare;
      greatest = length p.marks.items - 1;
    } };

    ghost invariant = { λ p. IsPrefix p.order p.marks.items };
}

impl Prefix {
    /// A prefix with no spare places.
    pub fn new(alloc: Global, bounds: &[Bound]) -> Result<Prefix, NoMemory>
        requires { Distinct bounds.now }
        ensures bounds { IfOk result (λ p. p.bounds ≡ bounds.now) }
        ensures spare { IfOk result (λ p. p.spare ≡ 0) }
    {
        let greatest = greatest_of(bounds);
        if bounds.len() > 4294967295 || greatest == u32::MAX {
            return Err(NoMemory);
        }
        let room = greatest as usize + 1;
        let filling = filling_of(bounds.len(), greatest as usize);
        let mut order = Rings::new(alloc, filling, Filling::Most);
        order.reserve(room, 1)?;
        let mut marks = no_marks(alloc, filling);
        grow_marks(&mut marks, room)?;
        fill(&mut order, &mut marks, bounds);
        Ok(Prefix {
            order,
            marks,
            spare: 0,
        })
    }

    /// The bound at a place. It goes from the front to this place; walks take `first` and `after`.
    pub fn at(&self, place: usize) -> Bound
        requires { place < length self.now.bounds }
        ensures { slice_get self.now.bounds place ≡ Some result }
    {
        let mut at = self.order.first(0);
        for _ in 0..place {
            at = next_of(&self.order, at);
        }
        match at {
            Some(var) => self.bound(var),
            None => Bound {
                quant: Quant::Exists,
                var: 0,
            },
        }
    }

    pub fn len(&self) -> usize
        ensures { result ≡ length self.now.bounds }
    {
        self.order.count(0) as usize
    }

    pub fn contains(&self, var: u32) -> bool
        ensures { result ≡ is_bound self.now.bounds var }
    {
        mark_of(&self.marks, var as usize).bound
    }

    /// The quantifier of a variable; `None` where it is not in the prefix.
    pub fn quant(&self, var: u32) -> Option<Quant>
        ensures { result ≡ quant_of self.now.bounds var }
    {
        let mark = mark_of(&self.marks, var as usize);
        if mark.bound { Some(mark.quant) } else { None }
    }

    /// Whether a variable stands at or before another one, or in its block.
    pub fn outer_or_same(&self, a: u32, b: u32) -> bool
        requires a { is_bound self.now.bounds a ≡ true }
        requires b { is_bound self.now.bounds b ≡ true }
        ensures { result ≡ outer_or_same self.now.bounds a b }
    {
        mark_of(&self.marks, a as usize).rank <= mark_of(&self.marks, b as usize).rank
    }

    /// The first variable with its quantifier.
    pub fn first(&self) -> Option<Bound>
        ensures { result ≡ slice_get self.now.bounds 0 }
    {
        let var = self.order.first(0)?;
        Some(self.bound(var))
    }

    /// What stands directly after a variable.
    pub fn after(&self, var: u32) -> Option<Bound>
        requires { is_bound self.now.bounds var ≡ true }
        ensures { result ≡ bound_after self.now.bounds var }
    {
        let next = self.order.next(var as usize)?;
        Some(self.bound(next))
    }

    /// What stands directly before a variable.
    pub fn before(&self, var: u32) -> Option<Bound>
        requires { is_bound self.now.bounds var ≡ true }
        ensures value { result ≡ bound_before self.now.bounds var }
        ensures there { (b : BoundValue) → result ≡ Some b → is_bound self.now.bounds b.var ≡ true }
    {
        let before = self.order.prev(var as usize)?;
        Some(self.bound(before))
    }

    // A variable with its quantifier.
    fn bound(&self, var: usize) -> Bound
        requires { is_bound self.now.bounds var ≡ true }
        ensures var { result.var ≡ var }
        ensures quant { quant_of self.now.bounds var ≡ Some result.quant }
    {
        Bound {
            quant: mark_of(&self.marks, var).quant,
            var: var as u32,
        }
    }

    /// Makes the spare places at least so many, and reserves the variables up to the greatest.
    pub fn reserve(&mut self, more: usize, greatest: u32) -> Result<(), NoMemory>
        ensures bounds { self.new.bounds ≡ self.old.bounds }
        ensures spare { OnOk result (more ≤ self.new.spare) }
        ensures greatest { OnOk result (greatest ≤ self.new.greatest) }
        ensures kept_spare { self.old.spare ≤ self.new.spare }
        ensures kept_greatest { self.old.greatest ≤ self.new.greatest }
    {
        if greatest == u32::MAX {
            return Err(NoMemory);
        }
        let room = greatest as usize + 1;
        self.order.reserve(room, 1)?;
        grow_marks(&mut self.marks, room)?;
        self.spare = self.spare.max(more);
        Ok(())
    }

    /// Puts an absent variable directly after one of the prefix, with its quantifier.
    pub fn insert_after(&mut self, v: u32, w: u32)
        requires absent { is_bound self.old.bounds v ≡ false }
        requires reserved { v ≤ self.old.greatest }
        requires present { is_bound self.old.bounds w ≡ true }
        requires spare { 1 ≤ self.old.spare }
        ensures bounds { (q : Quantifier) → quant_of self.old.bounds w ≡ Some q
            → self.new.bounds ≡ with_after (record { quant = q; var = v }) w self.old.bounds }
        ensures spare { self.old.spare ≡ self.new.spare + 1 }
        ensures greatest { self.new.greatest ≡ self.old.greatest }
    {
        let mark = mark_of(&self.marks, w as usize);
        self.order.insert_after(0, w as usize, v as usize, 0);
        set_mark(&mut self.marks, v as usize, mark);
        self.spare -= 1;
    }

    /// Takes a variable out. Where it was the last of its block, the blocks beside it become one.
    pub fn remove(&mut self, v: u32)
        requires { is_bound self.old.bounds v ≡ true }
        ensures bounds { self.new.bounds ≡ removed_from v self.old.bounds }
        ensures spare { self.new.spare ≡ self.old.spare }
        ensures greatest { self.new.greatest ≡ self.old.greatest }
    {
        self.order.distinct();
        let var = v as usize;
        let before = self.order.prev(var);
        let after = self.order.next(var);
        self.order.remove(0, var);
        join_blocks(&self.order, &mut self.marks, before, after);
        unbind(&mut self.marks, var);
    }
}

// The variable after one of the list.
fn next_of(order: &Rings, at: Option<usize>) -> Option<usize>
    requires { (v : ℕ) → at ≡ Some v → Has (list_at order.now 0) v }
    ensures { (i : ℕ) → at ≡ slice_get (list_at order.now 0) i
        → result ≡ slice_get (list_at order.now 0) (i + 1) }
{
    order.distinct();
    let var = at?;
    order.next(var)
}

/// The greatest variable.
pub fn greatest_of(bounds: &[Bound]) -> u32
    ensures { result ≡ greatest bounds.now }
{
    let mut greatest = 0;
    for bound in bounds {
        greatest = bound.var.max(greatest);
    }
    greatest
}

// A variable is no longer bound.
fn unbind(marks: &mut Marks, var: usize)
    requires { var < length marks.old.items }
    ensures len { length marks.new.items ≡ length marks.old.items }
    ensures gone { (mark_at marks.new.items var).bound ≡ false }
    ensures same { (v : ℕ) → v ≢ var → mark_at marks.new.items v ≡ mark_at marks.old.items v }
{
    let mark = mark_of(marks, var);
    set_mark(
        marks,
        var,
        Mark {
            quant: mark.quant,
            bound: false,
            rank: mark.rank,
        },
    );
}
