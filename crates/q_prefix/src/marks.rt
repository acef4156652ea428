// For each number whether it is bound, by which quantifier, and the rank of its block.
ghost use Rattle.std.specs.Prelude.{◌≡◌, ◌⊎◌, ◌≢◌, ◌≤◌, ◌<◌, ℕ, Bool, [], length, slice_set, OnOk};
ghost use Rattle.q_logic.specs.Prelude.{same_quant};
ghost use Rattle.q_prefix.specs.Order.{mark_at, rank_of};

use q_logic::{NoMemory, Quant};
use q_sparse::{Filling, Sparse};
use std::alloc::Global;
use std::marker::Model;

/// What is known of a variable: whether it is bound, its quantifier, and the rank of its block.
#[derive(Clone, Copy)]
pub struct Mark {
    pub quant: Quant,
    pub bound: bool,
    pub rank: u32,
}

/// A mark for each number. Memory is touched only where a mark was written; elsewhere nothing is bound.
#[derive(Drop)]
pub struct Marks {
    row: Sparse<Mark>,
}

impl Model for Marks {
    ghost use Rattle.std.specs.Prelude.{◌≡◌};
    ghost use Rattle.q_sparse.specs.Rows.{Row};
    ghost use Rattle.q_prefix.specs.declared.marks.Mark.{Mark as MarkValue};
    ghost use Rattle.q_prefix.specs.Order.{no_mark};

    ghost Value = { Row MarkValue };

    ghost view = { λ m. m.row };

    ghost invariant = { λ m. m.row.none ≡ no_mark };
}

/// Whether two quantifiers are the same.
pub fn same(a: Quant, b: Quant) -> bool
    ensures { result ≡ same_quant a b }
{
    match (a, b) {
        (Quant::Exists, Quant::Exists) => true,
        (Quant::Exists, Quant::Forall) => false,
        (Quant::Forall, Quant::Exists) => false,
        (Quant::Forall, Quant::Forall) => true,
    }
}

/// Marks of no number.
pub fn no_marks(alloc: Global, filling: Filling) -> Marks
    ensures { result.items ≡ [] }
{
    let none = Mark {
        quant: Quant::Exists,
        bound: false,
        rank: 0,
    };
    Marks {
        row: Sparse::filled(alloc, none, filling),
    }
}

/// The mark of a variable, also where there is none.
#[inline(always)]
pub fn mark_of(marks: &Marks, var: usize) -> Mark
    ensures { result ≡ mark_at marks.now.items var }
{
    *marks.row.look(var)
}

/// Gives a variable another mark.
#[inline(always)]
pub fn set_mark(marks: &mut Marks, var: usize, mark: Mark)
    requires { var < length marks.old.items }
    ensures { marks.new.items ≡ slice_set marks.old.items var mark }
{
    marks.row.set(var, mark);
}

/// Marks for so many variables, of which the new ones are not bound.
pub fn grow_marks(marks: &mut Marks, room: usize) -> Result<(), NoMemory>
    ensures room { OnOk result (room ≤ length marks.new.items) }
    ensures kept { length marks.old.items ≤ length marks.new.items }
    ensures exact { (length marks.new.items ≡ length marks.old.items)
        ⊎ (length marks.new.items ≡ room) }
    ensures same { (v : ℕ) → mark_at marks.new.items v ≡ mark_at marks.old.items v }
{
    marks.row.grow(room)
}

/// Gives a variable another rank.
pub fn set_rank(marks: &mut Marks, var: usize, rank: u32)
    requires { var < length marks.old.items }
    ensures len { length marks.new.items ≡ length marks.old.items }
    ensures quant { (v : ℕ) → (mark_at marks.new.items v).quant
        ≡ (mark_at marks.old.items v).quant }
    ensures bound { (v : ℕ) → (mark_at marks.new.items v).bound
        ≡ (mark_at marks.old.items v).bound }
    ensures rank { rank_of marks.new.items var ≡ rank }
    ensures others { (v : ℕ) → v ≢ var → rank_of marks.new.items v ≡ rank_of marks.old.items v }
{
    let mark = mark_of(marks, var);
    set_mark(marks, var, Mark { rank, ..mark });
}
