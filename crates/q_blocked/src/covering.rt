//! The steps by which a covered clause goes.
ghost use Rattle.std.specs.Prelude.{◌≡◌, ◌≤◌, ◌+◌, ◌*◌, ◌∷◌, Some, None, length, vec_capacity};
ghost use Rattle.q_logic.specs.Prelude.{Literal, Clause, clause_of, standard, IsInLimits, slot, others, cover};
ghost use Rattle.q_kernel.specs.Prelude.{slots, formula_in};
ghost use Rattle.q_rule.specs.Becoming.{IsChanged};
ghost use Rattle.q_blocked.specs.Plans.{IsPlanFor, HasRoomFor, MayReplace, IsReplaced, MayLeave, HasLeft};

use crate::plan::Plan;
use q_kernel::{ClauseId, Kernel};
use q_logic::Lit;

/// Makes a covered clause larger, stage by stage, and deletes the last one.
pub fn take_cover(kernel: &mut Kernel, plan: &Plan, larger: &mut Vec<Lit>, c: ClauseId)
    requires plan { IsPlanFor kernel.old.prefix (slots kernel.old) c plan.now }
    requires limits { IsInLimits standard (formula_in kernel.old) }
    requires room { HasRoomFor kernel.old plan.now.stages.items }
    requires capacity { length plan.now.lits.items ≤ vec_capacity larger.old }
    ensures { IsChanged kernel.old kernel.new (cover c) }
{
    let mut id = c;
    for stage in &plan.stages {
        set_clause(larger, &plan.lits[..stage.to]);
        id = replace(kernel, id, larger, stage.on);
    }
    delete(kernel, id, plan.last);
}

// Makes the literals a clause, without memory.
fn set_clause(larger: &mut Vec<Lit>, lits: &[Lit])
    requires { length lits.now ≤ vec_capacity larger.old }
    ensures clause { larger.new.items ≡ clause_of lits.now }
    ensures capacity { vec_capacity larger.old ≤ vec_capacity larger.new }
{
    larger.clear();
    let _had_room = larger.extend_from_slice(lits);
    larger.sort_unstable();
    larger.dedup();
}

// The larger clause comes, and the smaller one goes.
fn replace(kernel: &mut Kernel, c: ClauseId, larger: &[Lit], on: Option<Lit>) -> ClauseId
    requires { MayReplace kernel.old c larger.now on }
    ensures { IsReplaced kernel.old kernel.new c larger.now result }
{
    kernel.sound();
    let id = kernel.add_implied(larger);
    delete(kernel, c, on);
    id
}

// Deletes a clause by a pivot, or where it is implied.
fn delete(kernel: &mut Kernel, c: ClauseId, on: Option<Lit>)
    requires { MayLeave kernel.old c on }
    ensures { HasLeft kernel.old kernel.new c }
{
    kernel.sound();
    match on {
        Some(l) => kernel.delete_pivot(c, l),
        None => kernel.delete_implied(c),
    }
}
