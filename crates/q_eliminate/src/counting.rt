//! How much the resolvents are.
ghost use Rattle.std.specs.Prelude.{◌≡◌, ◌≤◌, ◌<◌, ◌+◌, ◌^◌, length, OnOk, IfOk};
ghost use Rattle.std.specs.List.{AllByRecursion};
ghost use Rattle.q_logic.specs.Prelude.{IsBelow, negation, ArePairs, without, resolve_all, clauses_at};
ghost use Rattle.q_kernel.specs.Prelude.{slots};
ghost use Rattle.q_eliminate.specs.Sides.{AreLive};
ghost use Rattle.q_eliminate.specs.Gains.{no_gain, joined, joined_length, IsGain};
ghost use Rattle.q_eliminate.specs.Plans.{IsPlain};

use q_kernel::{ClauseId, Kernel};
use q_logic::{Lit, NoMemory};
use q_rule::Queue;

/// What resolvents bring: their number, and that of their literals.
#[derive(Clone, Copy)]
pub struct Gain {
    pub clauses: usize,
    pub lits: usize,
}

/// What the resolvents on a literal of some clauses with others are; none where they are larger than a bound. It is given
/// up as soon as they pass it.
pub fn gain_of(
    kernel: &Kernel,
    marks: &mut Queue,
    lit: Lit,
    ids: &[ClauseId],
    others: &[ClauseId],
    bound: usize,
) -> Result<Option<Gain>, NoMemory>
    requires live { AreLive (slots kernel.now) ids.now }
    requires others { AreLive (slots kernel.now) others.now }
    requires plain { AllByRecursion IsPlain (clauses_at (slots kernel.now) ids.now) }
    requires plain_others { AllByRecursion IsPlain (clauses_at (slots kernel.now) others.now) }
    requires small { bound < 2 ^ 62 }
    ensures { IfOk result (IsGain no_gain
        (resolve_all lit (clauses_at (slots kernel.now) ids.now)
        (clauses_at (slots kernel.now) others.now)) bound) }
{
    kernel.sound();
    let mut gain = Gain {
        clauses: 0,
        lits: 0,
    };
    for id in ids {
        mark(marks, kernel.lits(*id), lit)?;
        match gain_with(kernel, marks, others, lit.negated(), gain, bound) {
            Some(more) => gain = more,
            None => return Ok(None),
        }
    }
    Ok(Some(gain))
}

/// Marks the literals of a clause but one.
#[inline]
pub fn mark(marks: &mut Queue, clause: &[Lit], out: Lit) -> Result<(), NoMemory>
    ensures { OnOk result (marks.new ≡ without out clause.now) }
{
    marks.clear();
    for k in clause {
        if !k.is(out) {
            marks.push(*k)?;
        }
    }
    Ok(())
}

// The gain with that of the marked literals joined with each clause without a literal.
fn gain_with(
    kernel: &Kernel,
    marks: &Queue,
    ids: &[ClauseId],
    out: Lit,
    from: Gain,
    bound: usize,
) -> Option<Gain>
    requires live { AreLive (slots kernel.now) ids.now }
    requires plain { AllByRecursion IsPlain (clauses_at (slots kernel.now) ids.now) }
    requires ordered { ArePairs IsBelow marks.now }
    requires plain_marks { IsPlain marks.now }
    requires short { length marks.now < 8589934592 }
    requires within { from.clauses + from.lits ≤ bound }
    requires small { bound < 2 ^ 62 }
    ensures { IsGain from (joined marks.now out (clauses_at (slots kernel.now) ids.now)) bound
        result }
{
    kernel.sound();
    let mut gain = from;
    for id in ids {
        if let Some(len) = length_with(marks, kernel.lits(*id), out) {
            gain.clauses += 1;
            gain.lits += len;
            if gain.clauses + gain.lits > bound {
                return None;
            }
        }
    }
    Some(gain)
}

/// The length of the marked literals with those of a clause but one; none where a literal and its negation meet.
pub fn length_with(marks: &Queue, clause: &[Lit], out: Lit) -> Option<usize>
    requires { length marks.now + length clause.now < 2 ^ 64 }
    ensures { result ≡ joined_length marks.now (without out clause.now) }
{
    let mut len = marks.len();
    for k in clause {
        if k.is(out) {
            continue;
        }
        if marks.has(k.negated()) {
            return None;
        }
        if !marks.has(*k) {
            len += 1;
        }
    }
    Some(len)
}
