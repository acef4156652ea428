// The ranks of blocks. Where the last variable of a block goes, the blocks beside it become one, and the smaller one takes the
// rank of the other: so all renaming together takes at most n log n.
ghost use Rattle.std.specs.Prelude.{◌≡◌, ◌≤◌, ◌<◌, ◌+◌, ◌∷◌, [], ℕ, List, length, slice_get, nat_le, Option, Some, None, true, false};
ghost use Rattle.q_logic.specs.Prelude.{Distinct, same_quant};
ghost use Rattle.q_logic.specs.declared.formulas.Bound.{Bound as BoundValue};
ghost use Rattle.q_arena.specs.Prelude.{Has, list_at, following};
ghost use Rattle.q_prefix.specs.Order.{IsPrefix, IsRanked, IsRankBefore, IsParted, bounds_of, mark_at, rank_of};
ghost use Rattle.q_prefix.specs.Blocks.{ahead, block_from, mate_of};

use crate::marks::{Mark, Marks, mark_of, same, set_mark, set_rank};
use q_arena::Rings;
use q_logic::Bound;

/// Puts a bound before the others.
pub fn push(order: &mut Rings, marks: &mut Marks, bound: Bound, rank: u32)
    requires prefix { IsPrefix order.old marks.old.items }
    requires absent { Has (list_at order.old 0) bound.var → ⊥ }
    requires reserved { bound.var < length marks.old.items }
    requires before { IsRankBefore (rank_of marks.old.items) bound rank (bounds_of marks.old.items
        (list_at order.old 0)) }
    ensures prefix { IsPrefix order.new marks.new.items }
    ensures bounds { bounds_of marks.new.items (list_at order.new 0)
        ≡ bound ∷ bounds_of marks.old.items (list_at order.old 0) }
    ensures len { length marks.new.items ≡ length marks.old.items }
    ensures rank { rank_of marks.new.items bound.var ≡ rank }
{
    order.push_front(0, bound.var as usize, 0);
    set_mark(
        marks,
        bound.var as usize,
        Mark {
            quant: bound.quant,
            bound: true,
            rank,
        },
    );
}

/// Puts all bounds in, the last one first. The rank of a block is the place of its last variable.
pub fn fill(order: &mut Rings, marks: &mut Marks, bounds: &[Bound])
    requires prefix { IsPrefix order.old marks.old.items }
    requires empty { list_at order.old 0 ≡ [] }
    requires distinct { Distinct bounds.now }
    requires reserved { (k : ℕ) (b : BoundValue) → slice_get bounds.now k ≡ Some b
        → b.var < length marks.old.items }
    requires few { length bounds.now ≤ 4294967295 }
    ensures prefix { IsPrefix order.new marks.new.items }
    ensures bounds { bounds_of marks.new.items (list_at order.new 0) ≡ bounds.now }
{
    let mut rank = 0;
    for done in 0..bounds.len() {
        let place = bounds.len() - 1 - done;
        rank = rank_before(bounds, place, rank);
        push(order, marks, bounds[place], rank);
    }
}

// The rank of a bound, from that of the bound after it.
fn rank_before(bounds: &[Bound], place: usize, rank: u32) -> u32
    requires place { place < length bounds.now }
    requires few { length bounds.now ≤ 4294967295 }
    requires above { place + 1 < length bounds.now → place + 1 ≤ rank }
    ensures low { place ≤ result }
    ensures same { (b c : BoundValue) → slice_get bounds.now place ≡ Some b
        → slice_get bounds.now (place + 1) ≡ Some c → same_quant b.quant c.quant ≡ true
        → result ≡ rank }
    ensures other { (b c : BoundValue) → slice_get bounds.now place ≡ Some b
        → slice_get bounds.now (place + 1) ≡ Some c → same_quant b.quant c.quant ≡ false
        → result ≡ place }
{
    if place + 1 < bounds.len() && same(bounds[place].quant, bounds[place + 1].quant) {
        rank
    } else {
        place as u32
    }
}

/// Where the variables that are now neighbours have one quantifier, their blocks become one: the smaller
/// block takes the other's rank.
pub fn join_blocks(order: &Rings, marks: &mut Marks, before: Option<usize>, after: Option<usize>)
    requires { IsParted order.now marks.old.items before after }
    ensures len { length marks.new.items ≡ length marks.old.items }
    ensures quant { (v : ℕ) → (mark_at marks.new.items v).quant
        ≡ (mark_at marks.old.items v).quant }
    ensures bound { (v : ℕ) → (mark_at marks.new.items v).bound
        ≡ (mark_at marks.old.items v).bound }
    ensures ranked { IsRanked (rank_of marks.new.items) (bounds_of marks.new.items
        (list_at order.now 0)) }
{
    let Some(x) = before else { return };
    let Some(y) = after else { return };
    let first = mark_of(marks, x);
    let second = mark_of(marks, y);
    if !same(first.quant, second.quant) {
        return;
    }
    if first.rank == second.rank {
        return;
    }
    order.distinct();
    if is_smaller(order, marks, x, y) {
        rename(order, marks, x, false, second.rank);
    } else {
        rename(order, marks, y, true, first.rank);
    }
}

// Whether the block that ends at x is no larger than the one that begins at y. One walk goes back from x and one
// on from y, in step, up to the end of the smaller block.
fn is_smaller(order: &Rings, marks: &Marks, x: usize, y: usize) -> bool
    requires before { Has (list_at order.now 0) x }
    requires after { Has (list_at order.now 0) y }
    ensures { result ≡ nat_le (length (block_from (rank_of marks.now.items) x
        (ahead false (list_at order.now 0)))) (length (block_from (rank_of marks.now.items) y
        (ahead true (list_at order.now 0)))) }
{
    order.distinct();
    let mut before = x;
    let mut after = y;
    loop {
        let Some(b) = mate(order, marks, before, false) else {
            return true;
        };
        let Some(a) = mate(order, marks, after, true) else {
            return false;
        };
        before = b;
        after = a;
    }
}

// Gives the variables of a block another rank, from the one at its end on.
fn rename(order: &Rings, marks: &mut Marks, start: usize, forward: bool, to: u32)
    requires there { Has (list_at order.now 0) start }
    requires within { (v : ℕ) → Has (list_at order.now 0) v → v < length marks.old.items }
    ensures len { length marks.new.items ≡ length marks.old.items }
    ensures quant { (v : ℕ) → (mark_at marks.new.items v).quant
        ≡ (mark_at marks.old.items v).quant }
    ensures bound { (v : ℕ) → (mark_at marks.new.items v).bound
        ≡ (mark_at marks.old.items v).bound }
    ensures block { (v : ℕ) → Has (block_from (rank_of marks.old.items) start
        (ahead forward (list_at order.now 0))) v → rank_of marks.new.items v ≡ to }
    ensures others { (v : ℕ) → (Has (block_from (rank_of marks.old.items) start
        (ahead forward (list_at order.now 0))) v → ⊥) → rank_of marks.new.items v
        ≡ rank_of marks.old.items v }
{
    order.distinct();
    let mut at = Some(start);
    while let Some(var) = at {
        at = mate(order, marks, var, forward);
        set_rank(marks, var, to);
    }
}

// The next variable of a block in one direction.
fn mate(order: &Rings, marks: &Marks, var: usize, forward: bool) -> Option<usize>
    requires { Has (list_at order.now 0) var }
    ensures { result ≡ mate_of (rank_of marks.now.items) var (ahead forward (list_at order.now 0)) }
{
    let Some(next) = beside(order, var, forward) else {
        return None;
    };
    if mark_of(marks, next).rank == mark_of(marks, var).rank {
        Some(next)
    } else {
        None
    }
}

// The neighbour of a variable in one direction.
fn beside(order: &Rings, var: usize, forward: bool) -> Option<usize>
    requires { Has (list_at order.now 0) var }
    ensures { result ≡ following var (ahead forward (list_at order.now 0)) }
{
    order.distinct();
    if forward {
        order.next(var)
    } else {
        order.prev(var)
    }
}
