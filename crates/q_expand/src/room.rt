//! Room for the steps of a target, and for the sweep after them.
ghost use Rattle.std.specs.Prelude.{◌≡◌, ◌≤◌, ◌+◌, OnOk, vec_capacity};
ghost use Rattle.q_logic.specs.declared.rule_bounds.Bounds.{Bounds as BoundsValue};
ghost use Rattle.q_logic.specs.Prelude.{standard, IsInLimits, expand_universal};
ghost use Rattle.q_kernel.specs.Prelude.{SameView, formula_in, Applies};
ghost use Rattle.q_expand.specs.Dependents.{IsWhole};
ghost use Rattle.q_expand.specs.Rooms.{weight_of, HasRoom};

use crate::dependents::Dependents;
use q_kernel::{Kernel, Need};
use q_logic::{Lit, NoMemory};

/// Room for the steps, and for the sweep after them.
pub(crate) fn reserve(
    kernel: &mut Kernel,
    dependents: &Dependents,
    spare: &mut Vec<Lit>,
    u: u32,
) -> Result<(), NoMemory>
    requires limits { IsInLimits standard (formula_in kernel.old) }
    requires whole { IsWhole kernel.old u dependents.now }
    requires applies { (B : BoundsValue) × Applies B kernel.old (expand_universal u) }
    ensures view { SameView kernel.old kernel.new }
    ensures room { OnOk result (HasRoom kernel.new dependents.now) }
    ensures spare { OnOk result (weight_of kernel.new dependents.now ≤ vec_capacity spare.new) }
{
    let weight = weight(kernel, dependents, u);
    spare.clear();
    spare.reserve(weight)?;
    kernel.sound();
    let count = dependents.count();
    let need = Need {
        words: 6 * count + 2 * weight,
        ids: 2 * (count + dependents.clauses()),
        vars: count,
        greatest: kernel.greatest_var() + count as u32,
        log_bytes: 16 * (19 * count + 18 * kernel.size() + kernel.prefix().len()),
    };
    kernel.reserve(need)
}

// The literals and clauses of the dependents.
fn weight(kernel: &Kernel, dependents: &Dependents, u: u32) -> usize
    requires { IsWhole kernel.now u dependents.now }
    ensures { result ≡ weight_of kernel.now dependents.now }
{
    kernel.sound();
    let mut sum = 0;
    for i in 0..dependents.clauses() {
        sum += kernel.lits(dependents.clause(i)).len() + 1;
    }
    sum
}
