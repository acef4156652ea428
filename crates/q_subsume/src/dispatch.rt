//! A target of any of the rules: whether it applies, and its steps.
ghost use Rattle.std.specs.Prelude.{◌↔◌, IsTrue};
ghost use Rattle.q_logic.specs.declared.rule_bounds.Bounds.{Bounds};
ghost use Rattle.q_logic.specs.Prelude.{Fits, standard, IsInLimits};
ghost use Rattle.q_kernel.specs.Prelude.{slots, formula_in};
ghost use Rattle.q_subsume.specs.Targets.{target_of};
ghost use Rattle.q_rule.specs.Becoming.{CanChange, IsChanged, HasResult};

use crate::target::Target;
use crate::{strengthen, subsumed};
use q_kernel::Kernel;

/// Whether the conditions of a target hold.
pub(crate) fn fits(kernel: &Kernel, target: &Target) -> bool
    ensures { (B : Bounds) → IsTrue result
        ↔ Fits B kernel.now.prefix (slots kernel.now) (target_of target.now) }
{
    match *target {
        Target::Subsumed { c, d } => subsumed::fits(kernel, c, d),
        Target::Strengthen { c, d, l } => strengthen::fits(kernel, c, d, l),
    }
}

/// Makes the change of a target, and sweeps.
pub(crate) fn take(kernel: &mut Kernel, target: &Target)
    requires fits { (B : Bounds)
        → Fits B kernel.old.prefix (slots kernel.old) (target_of target.now) }
    requires limits { IsInLimits standard (formula_in kernel.old) }
    requires bytes { CanChange kernel.old }
    ensures { HasResult kernel.old kernel.new (target_of target.now) }
{
    make_change(kernel, target);
    kernel.sweep_now();
}

fn make_change(kernel: &mut Kernel, target: &Target)
    requires fits { (B : Bounds)
        → Fits B kernel.old.prefix (slots kernel.old) (target_of target.now) }
    requires limits { IsInLimits standard (formula_in kernel.old) }
    requires bytes { CanChange kernel.old }
    ensures { IsChanged kernel.old kernel.new (target_of target.now) }
{
    match *target {
        Target::Subsumed { c, d } => subsumed::take(kernel, c, d),
        Target::Strengthen { c, d, l } => strengthen::take(kernel, c, d, l),
    }
}
