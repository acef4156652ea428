//! Room for the steps of a target, and for the sweep after them.
ghost use Rattle.std.specs.Prelude.{◌≤◌, OnOk, vec_capacity};
ghost use Rattle.q_logic.specs.Prelude.{standard, IsInLimits};
ghost use Rattle.q_kernel.specs.Prelude.{SameView, formula_in};
ghost use Rattle.q_eliminate.specs.Plans.{HasRoomFor};

use crate::plan::Plan;
use q_kernel::{Kernel, Need};
use q_logic::{Lit, NoMemory};

/// Room for the steps of a plan, and for the sweep after them.
pub(crate) fn reserve(
    kernel: &mut Kernel,
    buffer: &mut Vec<Lit>,
    plan: &Plan,
) -> Result<(), NoMemory>
    requires limits { IsInLimits standard (formula_in kernel.old) }
    requires clauses { plan.now.gain.clauses ≤ 33554432 }
    requires lits { plan.now.gain.lits ≤ 134217728 }
    ensures view { SameView kernel.old kernel.new }
    ensures room { OnOk result (HasRoomFor kernel.new plan.now) }
    ensures buffer { OnOk result (plan.now.size ≤ vec_capacity buffer.new) }
{
    buffer.clear();
    buffer.reserve(plan.size)?;
    kernel.sound();
    let gain = plan.gain;
    let need = Need {
        words: gain.lits,
        ids: gain.clauses,
        vars: 0,
        greatest: 0,
        log_bytes: 16 * (2 * (gain.clauses + gain.lits) + kernel.size() + kernel.prefix().len()),
    };
    kernel.reserve(need)
}
