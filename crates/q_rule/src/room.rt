//! Room for the steps of a target.
ghost use Rattle.std.specs.Prelude.{OnOk};
ghost use Rattle.q_logic.specs.Prelude.{standard, IsInLimits};
ghost use Rattle.q_kernel.specs.Prelude.{SameView, formula_in};
ghost use Rattle.q_rule.specs.Becoming.{CanChange};

use q_kernel::{Kernel, Need};
use q_logic::NoMemory;

/// Log bytes for the change of a target that takes clauses or literals away, and for the sweep after it.
pub fn reserve_log(kernel: &mut Kernel) -> Result<(), NoMemory>
    requires { IsInLimits standard (formula_in kernel.old) }
    ensures view { SameView kernel.old kernel.new }
    ensures bytes { OnOk result (CanChange kernel.new) }
{
    kernel.sound();
    let need = Need {
        words: 0,
        ids: 0,
        vars: 0,
        greatest: 0,
        log_bytes: 16 * (3 * kernel.size() + kernel.prefix().len()),
    };
    kernel.reserve(need)
}
