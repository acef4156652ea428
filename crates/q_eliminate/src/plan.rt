//! Whether a variable may be eliminated, and how.
ghost use Rattle.std.specs.Prelude.{◌≡◌, ◌↔◌, ◌≤◌, ◌<◌, ◌^◌, ◌+◌, length, true, None, Some, IfOk, IsTrue};
ghost use Rattle.q_logic.specs.Prelude.{negation, positive, is_bound, literals_in, live, standard, IsInLimits};
ghost use Rattle.q_logic.specs.Targets as theory;
ghost use Rattle.q_kernel.specs.Prelude.{slots, formula_in, Applies};
ghost use Rattle.q_eliminate.specs.declared.plan.Plan.{Plan as PlanValue};
ghost use Rattle.q_eliminate.specs.Sides.{AreIdsOf, AreSidesOf};
ghost use Rattle.q_eliminate.specs.Plans.{MayGo, IsPlanOf};

use crate::conditions::split_sign;
use crate::counting::{Gain, gain_of};
use crate::early::pass_early;
use crate::search::Search;
use crate::sides::weight;
use q_kernel::{ClauseId, Kernel};
use q_logic::{Bounds, Limits, Lit, NoMemory};
use q_rule::{Queue, is_existential};

/// How a variable goes: the sign whose clauses hold only outer or same literals, the number of literals and clauses that
/// go, and what the resolvents bring.
#[derive(Clone, Copy)]
pub struct Plan {
    pub outer: Lit,
    pub size: usize,
    pub gain: Gain,
}

/// How a variable may be eliminated; none exactly where it may not. The search then has its clauses.
pub fn make_plan(
    kernel: &Kernel,
    search: &mut Search,
    x: u32,
    bounds: &Bounds,
) -> Result<Option<Plan>, NoMemory>
    requires limits { IsInLimits standard (formula_in kernel.now) }
    ensures some { IfOk result (λ o.
        (p : PlanValue) → o ≡ Some p
        → Applies bounds.now kernel.now (theory.eliminate x) × IsPlanOf kernel.now (positive x) p
        × AreSidesOf kernel.now (positive x) search.new.sides) }
    ensures none { IfOk result (λ o.
        o ≡ None → Applies bounds.now kernel.now (theory.eliminate x) → ⊥) }
{
    if !is_existential(kernel, x) {
        return Ok(None);
    }
    kernel.sound();
    let lit = Lit::new(x, false);
    search.sides.gather(kernel, lit)?;
    let found = plan_on(
        kernel,
        &mut search.marks,
        lit,
        &search.sides.positive,
        &search.sides.negative,
        bounds,
    )?;
    Ok(found)
}

// The same, by the ids of the clauses of a literal and of its negation.
fn plan_on(
    kernel: &Kernel,
    marks: &mut Queue,
    lit: Lit,
    ids: &[ClauseId],
    others: &[ClauseId],
    bounds: &Bounds,
) -> Result<Option<Plan>, NoMemory>
    requires limits { IsInLimits standard (formula_in kernel.now) }
    requires bound { is_bound kernel.now.prefix lit.var ≡ true }
    requires ids { AreIdsOf kernel.now lit ids.now }
    requires others { AreIdsOf kernel.now (negation lit) others.now }
    ensures some { IfOk result (λ o.
        (p : PlanValue) → o ≡ Some p
        → MayGo bounds.now.grow kernel.now.prefix (live (slots kernel.now)) lit
        × IsPlanOf kernel.now lit p) }
    ensures none { IfOk result (λ o.
        o ≡ None → MayGo bounds.now.grow kernel.now.prefix (live (slots kernel.now)) lit → ⊥) }
{
    kernel.sound();
    let count = ids.len() + others.len();
    let size = weight(kernel, ids) + weight(kernel, others);
    let bound = size + bounds.grow as usize;
    if pass_early(kernel, marks, lit, ids, others, bound)? {
        return Ok(None);
    }
    let Some(outer) = split_sign(kernel, lit, ids, others) else {
        return Ok(None);
    };
    let Some(gain) = gain_of(kernel, marks, lit, ids, others, bound)? else {
        return Ok(None);
    };
    if keeps_limits(kernel, count, size, gain) {
        Ok(Some(Plan { outer, size, gain }))
    } else {
        Ok(None)
    }
}

// Whether the formula keeps the limits where the gain comes for so many clauses, which have so many literals and clauses.
fn keeps_limits(kernel: &Kernel, count: usize, size: usize, gain: Gain) -> bool
    requires count { count < 2 ^ 40 }
    requires size { size < 2 ^ 40 }
    requires gain { gain.clauses + gain.lits < 2 ^ 62 }
    ensures { IsTrue result ↔ ((length (live (slots kernel.now)) + gain.clauses ≤ 33554432 + count)
        × (literals_in (live (slots kernel.now)) + gain.lits + count ≤ 134217728 + size)) }
{
    kernel.sound();
    let limits = Limits::standard();
    let clauses = kernel.clauses();
    let lits = kernel.size() - clauses;
    (clauses + gain.clauses) as u64 <= limits.clauses + count as u64
        && (lits + gain.lits + count) as u64 <= limits.lits + size as u64
}
