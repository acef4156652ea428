//! A target of any of the rules: whether it applies, and its steps.
ghost use Rattle.std.specs.Prelude.{◌↔◌, IfOk, IsTrue};
ghost use Rattle.q_logic.specs.declared.rule_bounds.Bounds.{Bounds};
ghost use Rattle.q_logic.specs.Prelude.{Fits};
ghost use Rattle.q_kernel.specs.Prelude.{slots};
ghost use Rattle.q_blocked.specs.Targets.{target_of, HasPlan, HasSteps};
ghost use Rattle.q_rule.specs.Becoming.{IsChanged, HasResult};
ghost use Rattle.q_rule.specs.Searching.{MayTake};

use crate::blocked::{fits_blocked, fits_blocked_forall, take_blocked, take_blocked_forall};
use crate::cover::fits_cover;
use crate::covering::take_cover;
use crate::search::Search;
use crate::target::Target;
use q_kernel::Kernel;
use q_logic::NoMemory;

/// Whether the conditions of a target hold. Of a covered clause the search has the steps then.
pub fn fits(kernel: &Kernel, search: &mut Search, target: &Target) -> Result<bool, NoMemory>
    ensures fits { IfOk result (λ yes.
        (B : Bounds) → IsTrue yes
        ↔ Fits B kernel.now.prefix (slots kernel.now) (target_of target.now)) }
    ensures plan { IfOk result (λ yes.
        IsTrue yes → HasPlan kernel.now.prefix (slots kernel.now) target.now
        search.new.growth.plan) }
{
    match *target {
        Target::Blocked { c, l } => {
            let yes = fits_blocked(kernel, &mut search.growth.set, c, l)?;
            search.growth.plan.stages.clear();
            Ok(yes)
        }
        Target::BlockedForall { c, l } => {
            let yes = fits_blocked_forall(kernel, &mut search.growth.set, c, l)?;
            search.growth.plan.stages.clear();
            Ok(yes)
        }
        Target::Cover { c } => {
            search.units.forget();
            search.watches.forget();
            search.apart.forget();
            let yes = fits_cover(kernel, search, c)?;
            Ok(yes)
        }
    }
}

/// Makes the change of a target, and sweeps.
pub fn take(kernel: &mut Kernel, search: &mut Search, target: &Target)
    requires may { MayTake kernel.old (target_of target.now) }
    requires steps { HasSteps kernel.old search.old target.now }
    ensures { HasResult kernel.old kernel.new (target_of target.now) }
{
    make_change(kernel, search, target);
    kernel.sweep_now();
}

fn make_change(kernel: &mut Kernel, search: &mut Search, target: &Target)
    requires may { MayTake kernel.old (target_of target.now) }
    requires steps { HasSteps kernel.old search.old target.now }
    ensures { IsChanged kernel.old kernel.new (target_of target.now) }
{
    match *target {
        Target::Blocked { c, l } => take_blocked(kernel, c, l),
        Target::BlockedForall { c, l } => take_blocked_forall(kernel, c, l),
        Target::Cover { c } => take_cover(kernel, &search.growth.plan, &mut search.larger, c),
    }
}
