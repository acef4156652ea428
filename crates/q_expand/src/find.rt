//! The search for a target, variable by variable.
ghost use Rattle.std.specs.Prelude.{IfOk};
ghost use Rattle.q_kernel.specs.Prelude.{IsReady};
ghost use Rattle.q_rule.specs.Searching.{Finds};
ghost use Rattle.q_expand.specs.Targets.{target_of};

use crate::dependents::Dependents;
use crate::expand::fits;
use crate::target::Target;
use q_kernel::Kernel;
use q_logic::{Bounds, NoMemory};

/// A target at the first variable from a number on that may be expanded.
pub(crate) fn find_from(
    kernel: &Kernel,
    dependents: &mut Dependents,
    bounds: &Bounds,
    from: u32,
) -> Result<Option<Target>, NoMemory>
    requires ready { IsReady kernel.now }
    ensures { IfOk result (Finds target_of bounds.now kernel.now from) }
{
    for u in from..kernel.greatest_var() + 1 {
        if fits(kernel, dependents, u, bounds)? {
            return Ok(Some(Target::Expand { u }));
        }
    }
    Ok(None)
}
