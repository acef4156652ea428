//! A target of any of the rules: whether it applies, and its steps.
ghost use Rattle.std.specs.Prelude.{◌↔◌, IfOk, IsTrue};
ghost use Rattle.q_logic.specs.declared.rule_bounds.Bounds.{Bounds};
ghost use Rattle.q_logic.specs.Prelude.{Fits};
ghost use Rattle.q_kernel.specs.Prelude.{slots};
ghost use Rattle.q_rule.specs.Becoming.{IsChanged, HasResult};
ghost use Rattle.q_rule.specs.Searching.{MayTake};
ghost use Rattle.q_reduce.specs.Targets.{target_of};
ghost use Rattle.q_reduce.specs.Learned.{IsFitFor};

use crate::cut::fits_cut;
use crate::pure::{fits_pure, take_pure};
use crate::search::Search;
use crate::target::Target;
use crate::tautology::fits_tautology;
use crate::unit::{fits_unit, take_unit};
use q_kernel::Kernel;
use q_logic::NoMemory;

/// Whether the conditions of a target hold.
pub fn fits(kernel: &Kernel, search: &mut Search, target: &Target) -> Result<bool, NoMemory>
    requires { IsFitFor kernel.now search.old }
    ensures fits { IfOk result (λ yes.
        (B : Bounds) → IsTrue yes
        ↔ Fits B kernel.now.prefix (slots kernel.now) (target_of target.now)) }
    ensures fit { IsFitFor kernel.now search.new }
{
    match *target {
        Target::Tautology { c } => Ok(fits_tautology(kernel, c)),
        Target::Unit { c } => Ok(fits_unit(kernel, c)),
        Target::Cut { c, l } => fits_cut(kernel, search, c, l),
        Target::Pure { l } => Ok(fits_pure(kernel, l)),
    }
}

/// Makes the change of a target, and sweeps.
pub fn take(kernel: &mut Kernel, target: &Target)
    requires { MayTake kernel.old (target_of target.now) }
    ensures { HasResult kernel.old kernel.new (target_of target.now) }
{
    make_change(kernel, target);
    kernel.sweep_now();
}

fn make_change(kernel: &mut Kernel, target: &Target)
    requires { MayTake kernel.old (target_of target.now) }
    ensures { IsChanged kernel.old kernel.new (target_of target.now) }
{
    kernel.sound();
    match *target {
        Target::Tautology { c } => kernel.delete_implied(c),
        Target::Unit { c } => take_unit(kernel, c),
        Target::Cut { c, l } => kernel.drop_lit(c, l),
        Target::Pure { l } => take_pure(kernel, l),
    }
}
