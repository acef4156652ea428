//! The variables of the dependents in the order of the prefix.
ghost use Rattle.std.specs.Prelude.{◌≡◌, ◌≤◌, ◌<◌, ◌^◌, ℕ, OnOk};
ghost use Rattle.q_logic.specs.Prelude.{live, has, positive, expansion_vars};
ghost use Rattle.q_kernel.specs.Prelude.{slots};
ghost use Rattle.q_expand.specs.Dependents.{IsWhole};

use crate::dependents::Dependents;
use q_kernel::Kernel;
use q_logic::NoMemory;

/// Reads the variables of the dependents in the order of the prefix.
pub(crate) fn read_order(
    kernel: &Kernel,
    dependents: &Dependents,
    order: &mut Vec<u32>,
) -> Result<(), NoMemory>
    ensures { OnOk result ((u : ℕ) → IsWhole kernel.now u dependents.now
        → order.new.items ≡ expansion_vars kernel.now.prefix (live (slots kernel.now)) u) }
{
    kernel.sound();
    order.clear();
    let mut at = kernel.prefix().first();
    for _ in 0..kernel.prefix().len() {
        let Some(bound) = at else {
            return Ok(());
        };
        if dependents.has(bound.var) {
            order.push(bound.var)?;
        }
        at = kernel.prefix().after(bound.var);
    }
    Ok(())
}
