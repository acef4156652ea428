//! Room for the steps of a target, and for the sweep after them.
ghost use Rattle.std.specs.Prelude.{◌≤◌, OnOk, length, vec_capacity};
ghost use Rattle.q_logic.specs.Prelude.{standard, IsInLimits};
ghost use Rattle.q_kernel.specs.Prelude.{SameView, formula_in};
ghost use Rattle.q_blocked.specs.Plans.{HasRoomFor};
ghost use Rattle.q_rule.specs.Becoming.{CanChange};

use crate::plan::Plan;
use q_kernel::{Kernel, Need};
use q_logic::{Lit, NoMemory};

/// Room for the steps of a target, and for the sweep after them.
pub(crate) fn reserve(
    kernel: &mut Kernel,
    plan: &Plan,
    larger: &mut Vec<Lit>,
) -> Result<(), NoMemory>
    requires { IsInLimits standard (formula_in kernel.old) }
    ensures view { SameView kernel.old kernel.new }
    ensures bytes { OnOk result (CanChange kernel.new) }
    ensures room { OnOk result (HasRoomFor kernel.new plan.now.stages.items) }
    ensures capacity { OnOk result (length plan.now.lits.items ≤ vec_capacity larger.new) }
{
    kernel.sound();
    larger.clear();
    larger.reserve(plan.lits.len())?;
    let size = plan.size()?;
    let need = Need {
        words: size.words,
        ids: size.ids,
        vars: 0,
        greatest: 0,
        log_bytes: 16 * (3 * kernel.size() + kernel.prefix().len()) + 32 * (size.words + size.ids),
    };
    kernel.reserve(need)
}
