//! The links between neighbours, and what the numbers of blocks become where two blocks meet.
ghost use Rattle.std.specs.Prelude.{◌≡◌, ◌⊎◌, ℕ, List, true, false, length, None, Some, Option};
ghost use Rattle.q_judge.specs.declared.bindings.Binding.{Binding as AnyBinding};
ghost use Rattle.q_pages.specs.Rows.{KeepsPages};
ghost use Rattle.q_judge.specs.Scopes.{HaveChanged, first_after, binding_at, rank_at, is_there, is_among, with_after, with_before, with_rank, beside, IsRun, IsMovable, IsMoved};

use crate::binding_row::BindingRow;
use crate::bindings::{Binding, binding_of, rank_of};

// A block: its number, and the variable at which it begins in one direction.
#[derive(Clone, Copy)]
struct Block {
    start: Option<u32>,
    rank: usize,
    forward: bool,
}

/// What stands behind a variable, or in front where there is none.
pub fn link_after(
    bindings: &mut BindingRow,
    first: &mut Option<u32>,
    var: Option<u32>,
    after: Option<u32>,
)
    ensures len { length bindings.new.items ≡ length bindings.old.items }
    ensures kept { KeepsPages bindings.old bindings.new }
    ensures bindings { HaveChanged (is_there var) (with_after after) bindings.old.items
        bindings.new.items }
    ensures first { first.new ≡ first_after var after first.old }
{
    match var {
        Some(var) => set_after(bindings, var, after),
        None => *first = after,
    }
}

fn set_after(bindings: &mut BindingRow, var: u32, after: Option<u32>)
    ensures len { length bindings.new.items ≡ length bindings.old.items }
    ensures kept { KeepsPages bindings.old bindings.new }
    ensures bindings { HaveChanged (is_there (Some var)) (with_after after) bindings.old.items
        bindings.new.items }
{
    if let Some(binding) = binding_of(bindings, var) {
        bindings.replace(var, Some(Binding { after, ..binding }));
    }
}

/// What stands before a variable.
pub fn link_before(bindings: &mut BindingRow, var: Option<u32>, before: Option<u32>)
    ensures len { length bindings.new.items ≡ length bindings.old.items }
    ensures kept { KeepsPages bindings.old bindings.new }
    ensures bindings { HaveChanged (is_there var) (with_before before) bindings.old.items
        bindings.new.items }
{
    if let Some(var) = var {
        set_before(bindings, var, before);
    }
}

fn set_before(bindings: &mut BindingRow, var: u32, before: Option<u32>)
    ensures len { length bindings.new.items ≡ length bindings.old.items }
    ensures kept { KeepsPages bindings.old bindings.new }
    ensures bindings { HaveChanged (is_there (Some var)) (with_before before) bindings.old.items
        bindings.new.items }
{
    if let Some(binding) = binding_of(bindings, var) {
        bindings.replace(var, Some(Binding { before, ..binding }));
    }
}

/// Two blocks become one that now meet at these variables. The smaller one takes the other's number.
pub fn join_blocks(
    bindings: &mut BindingRow,
    counts: &mut Vec<usize>,
    before: Option<u32>,
    after: Option<u32>,
)
    requires low { (a c : ℕ) → before ≡ Some a → after ≡ Some c →
        IsMovable bindings.old.items counts.old.items before (rank_at bindings.old.items a)
        (rank_at bindings.old.items c) false }
    requires high { (a c : ℕ) → before ≡ Some a → after ≡ Some c →
        IsMovable bindings.old.items counts.old.items after (rank_at bindings.old.items c)
        (rank_at bindings.old.items a) true }
    ensures none { (before ≡ None) ⊎ (after ≡ None) →
        (bindings.new.items ≡ bindings.old.items) × (counts.new.items ≡ counts.old.items) }
    ensures joined { (a c : ℕ) → before ≡ Some a → after ≡ Some c →
        IsMoved bindings.old.items counts.old.items (rank_at bindings.old.items a)
        (rank_at bindings.old.items c) bindings.new.items counts.new.items
        ⊎ IsMoved bindings.old.items counts.old.items (rank_at bindings.old.items c)
        (rank_at bindings.old.items a) bindings.new.items counts.new.items }
{
    let Some(a) = before else { return };
    let Some(c) = after else { return };
    let low = rank_of(bindings, a);
    let high = rank_of(bindings, c);
    if counts[low] < counts[high] {
        let block = Block {
            start: before,
            rank: low,
            forward: false,
        };
        move_block(bindings, counts, block, high);
    } else {
        let block = Block {
            start: after,
            rank: high,
            forward: true,
        };
        move_block(bindings, counts, block, low);
    }
}

// The block that begins at a variable, in one direction, takes another number.
fn move_block(bindings: &mut BindingRow, counts: &mut Vec<usize>, block: Block, to: usize)
    requires { IsMovable bindings.old.items counts.old.items block.start block.rank to
        block.forward }
    ensures { IsMoved bindings.old.items counts.old.items block.rank to bindings.new.items
        counts.new.items }
{
    let size = counts[block.rank];
    relabel(bindings, block.start, size, to, block.forward);
    counts[block.rank] = 0;
    counts[to] += size;
}

// Gives the variables from one on, in one direction, another block's number.
fn relabel(bindings: &mut BindingRow, start: Option<u32>, size: usize, to: usize, forward: bool)
    ensures len { length bindings.new.items ≡ length bindings.old.items }
    ensures bindings { (S : List ℕ) → IsRun (binding_at bindings.old.items) forward start S →
        length S ≡ size →
        HaveChanged (is_among S) (with_rank to) bindings.old.items bindings.new.items }
{
    let mut at = start;
    for _ in 0..size {
        at = relabel_one(bindings, at, to, forward);
    }
}

// The neighbour of the variable comes next.
fn relabel_one(bindings: &mut BindingRow, at: Option<u32>, to: usize, forward: bool) -> Option<u32>
    ensures len { length bindings.new.items ≡ length bindings.old.items }
    ensures bindings { HaveChanged (is_there at) (with_rank to) bindings.old.items
        bindings.new.items }
    ensures next { (v : ℕ) (s : AnyBinding) → at ≡ Some v →
        binding_at bindings.old.items v ≡ Some s → result ≡ beside forward s }
{
    let Some(var) = at else { return None };
    let Some(binding) = binding_of(bindings, var) else {
        return None;
    };
    bindings.replace(
        var,
        Some(Binding {
            rank: to,
            ..binding
        }),
    );
    if forward {
        binding.after
    } else {
        binding.before
    }
}
