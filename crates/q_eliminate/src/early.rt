//! Resolvents that are too large, as few of them show.
//!
//! A resolvent of a long clause with a short one costs a look at the short one alone, once the long one is marked, and is as large as
//! the long one. Where a variable has many of both, some long clauses with all short ones pass the bound, before the others
//! are read.
ghost use Rattle.std.specs.Prelude.{◌≡◌, ◌≤◌, ◌<◌, ◌+◌, ℕ, length, true, None, Some, IfOk};
ghost use Rattle.std.specs.List.{AllByRecursion};
ghost use Rattle.q_logic.specs.Prelude.{IsBelow, negation, ArePairs, size_of, resolve_all, clauses_at};
ghost use Rattle.q_kernel.specs.Prelude.{slots};
ghost use Rattle.q_eliminate.specs.Sides.{AreLive};
ghost use Rattle.q_eliminate.specs.Gains.{joined};
ghost use Rattle.q_eliminate.specs.Plans.{IsPlain};

use crate::counting::{length_with, mark};
use q_kernel::{ClauseId, Kernel};
use q_logic::{Lit, NoMemory};
use q_rule::Queue;

// A clause of so many literals is long.
const LONG: usize = 8;

// A clause of so many literals is short.
const SHORT: usize = 3;

/// Whether resolvents on a literal of long clauses with short ones pass a bound alone. Yes says so only of clauses that are no
/// tautologies.
pub fn pass_early(
    kernel: &Kernel,
    marks: &mut Queue,
    lit: Lit,
    ids: &[ClauseId],
    others: &[ClauseId],
    bound: usize,
) -> Result<bool, NoMemory>
    requires live { AreLive (slots kernel.now) ids.now }
    requires others { AreLive (slots kernel.now) others.now }
    ensures { IfOk result (λ yes. yes ≡ true
        → AllByRecursion IsPlain (clauses_at (slots kernel.now) ids.now)
        → AllByRecursion IsPlain (clauses_at (slots kernel.now) others.now)
        → bound < size_of (resolve_all lit (clauses_at (slots kernel.now) ids.now)
        (clauses_at (slots kernel.now) others.now))) }
{
    kernel.sound();
    let mut sum = 0;
    for id in ids {
        let clause = kernel.lits(*id);
        if clause.len() < LONG {
            continue;
        }
        mark(marks, clause, lit)?;
        match sum_with(kernel, marks, others, lit.negated(), sum, bound) {
            Some(more) => sum = more,
            None => return Ok(true),
        }
    }
    Ok(false)
}

// A sum with what the marked literals joined with each short clause without a literal are; none where it passes the bound.
fn sum_with(
    kernel: &Kernel,
    marks: &Queue,
    ids: &[ClauseId],
    out: Lit,
    from: usize,
    bound: usize,
) -> Option<usize>
    requires live { AreLive (slots kernel.now) ids.now }
    requires ordered { ArePairs IsBelow marks.now }
    requires short { length marks.now < 8589934592 }
    ensures some { (n : ℕ) → result ≡ Some n → IsPlain marks.now
        → AllByRecursion IsPlain (clauses_at (slots kernel.now) ids.now)
        → n ≤ from + size_of (joined marks.now out (clauses_at (slots kernel.now) ids.now)) }
    ensures none { result ≡ None → IsPlain marks.now
        → AllByRecursion IsPlain (clauses_at (slots kernel.now) ids.now)
        → bound < from + size_of (joined marks.now out (clauses_at (slots kernel.now) ids.now)) }
{
    kernel.sound();
    let mut sum = from;
    for id in ids {
        let clause = kernel.lits(*id);
        if clause.len() > SHORT {
            continue;
        }
        if let Some(len) = length_with(marks, clause, out) {
            sum = sum.saturating_add(len).saturating_add(1);
            if sum > bound {
                return None;
            }
        }
    }
    Some(sum)
}
