//! The search for a target, variable by variable.
ghost use Rattle.std.specs.Prelude.{IfOk};
ghost use Rattle.q_kernel.specs.Prelude.{IsReady};
ghost use Rattle.q_rule.specs.Searching.{Finds};
ghost use Rattle.q_eliminate.specs.Targets.{target_of};

use crate::search::Search;
use crate::target::Target;
use q_kernel::Kernel;
use q_logic::{Bounds, NoMemory};
use q_rule::Rules;

/// A target at the first variable from a number on that may be eliminated.
pub(crate) fn find_from(
    kernel: &Kernel,
    search: &mut Search,
    bounds: &Bounds,
    from: u32,
) -> Result<Option<Target>, NoMemory>
    requires ready { IsReady kernel.now }
    ensures { IfOk result (Finds target_of bounds.now kernel.now from) }
{
    let end = kernel.greatest_var() + 1;
    for x in from..end {
        let target = Target::Eliminate { x };
        if search.applies(kernel, &target, bounds)? {
            return Ok(Some(target));
        }
    }
    Ok(None)
}
