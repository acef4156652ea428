//! Hidden literals: where all literals of another clause but one are in the set, the negation of that one may come.
ghost use Rattle.std.specs.Prelude.{◌≡◌, ◌≢◌, ◌↔◌, Some, None, IfOk, IsTrue};
ghost use Rattle.q_logic.specs.Prelude.{Literal, negation, Clause, IsIn, IsSubset, IsTautology, others};
ghost use Rattle.q_kernel.specs.Prelude.{slots};
ghost use Rattle.q_blocked.specs.Walks.{IsBeside, GivesNone, Gives};
ghost use Rattle.q_watch.specs.Watches.{IsSame};
ghost use Rattle.q_blocked.specs.Units.{HasUnits};
ghost use Rattle.q_blocked.specs.Growths.{Growing, HasSpread, HasClosed, HasUsedUnits};

use crate::growth::Growth;
use crate::nothing_hidden::gives_none;
use crate::progress::Progress;
use crate::replay::Step;
use q_kernel::{ClauseId, Kernel};
use q_logic::{Lit, NoMemory};
use q_rule::{Queue, clause_of};
use q_watch::Watches;

// A literal of the clause that is not in the set.
fn outside(clause: &[Lit], set: &Queue) -> Option<Lit>
    ensures some { (k : Literal) → result ≡ Some k → IsIn k clause.now × (IsIn k set.now → ⊥) }
    ensures none { result ≡ None → IsSubset clause.now set.now }
{
    for k in clause {
        if !set.has(*k) {
            return Some(*k);
        }
    }
    None
}

fn is_other_outside(set: &Queue, j: Lit, k: Lit) -> bool
    ensures { IsTrue result ↔ ((j ≢ k) × (IsIn j set.now → ⊥)) }
{
    !j.is(k) && !set.has(j)
}

// Whether all literals of the clause but one are in the set.
fn others_in(clause: &[Lit], set: &Queue, k: Lit) -> bool
    ensures { IsTrue result ↔ ((j : Literal) → IsIn j clause.now → j ≢ k → IsIn j set.now) }
{
    for j in clause {
        if is_other_outside(set, *j, k) {
            return false;
        }
    }
    true
}

// The hidden literal that a clause gives the set.
#[inline(always)]
fn hidden_in(clause: &[Lit], set: &Queue) -> Option<Lit>
    requires { IsTautology set.now → ⊥ }
    ensures some { (new : Literal) → result ≡ Some new → Gives set.now clause.now new }
    ensures none { result ≡ None → GivesNone set.now clause.now }
{
    if let Some(k) = outside(clause, set) {
        if set.has(k.negated()) {
            return None;
        }
        if !others_in(clause, set, k) {
            return None;
        }
        return Some(k.negated());
    }
    if clause.is_empty() {
        return None;
    }
    Some(clause[0].negated())
}

// The same for the clause of an id, unless it is c or not live.
#[inline(always)]
pub(crate) fn hidden_by(kernel: &Kernel, set: &Queue, c: ClauseId, d: ClauseId) -> Option<Lit>
    requires { IsTautology set.now → ⊥ }
    ensures some { (new : Literal) → result ≡ Some new
        → (D : Clause) × IsBeside (slots kernel.now) c d D × Gives set.now D new }
    ensures none { result ≡ None → (D : Clause) → IsBeside (slots kernel.now) c d D
        → GivesNone set.now D }
{
    if d == c {
        return None;
    }
    if !kernel.live(d) {
        return None;
    }
    hidden_in(clause_of(kernel, d), set)
}

// Grows by a hidden literal that the clause of an id gives. Yes where a literal and its negation are in the set then.
#[inline(always)]
pub(crate) fn give(
    kernel: &Kernel,
    growth: &mut Growth,
    c: ClauseId,
    d: ClauseId,
    new: Lit,
) -> Result<bool, NoMemory>
    requires growing { Growing kernel.now c growth.old }
    requires gives { (D : Clause) × IsBeside (slots kernel.now) c d D × Gives growth.old.set D new }
    ensures { IfOk result (HasSpread kernel.now c (IsBeside (slots kernel.now) c d) growth.old
        growth.new) }
{
    kernel.sound();
    growth.set.push(new)?;
    growth.steps.push(Step::Hidden(d))?;
    if growth.set.has(new.negated()) {
        growth.plan.last = None;
        return Ok(true);
    }
    Ok(false)
}

// Grows by the hidden literal that the clause of an id gives, if it gives one.
#[inline(always)]
pub(crate) fn take_hidden(
    kernel: &Kernel,
    growth: &mut Growth,
    c: ClauseId,
    d: ClauseId,
) -> Result<bool, NoMemory>
    requires { Growing kernel.now c growth.old }
    ensures { IfOk result (HasSpread kernel.now c (IsBeside (slots kernel.now) c d) growth.old
        growth.new) }
{
    if gives_none(kernel, &growth.set, &mut growth.hints, c, d)? {
        return Ok(false);
    }
    let Some(new) = hidden_by(kernel, &growth.set, c, d) else {
        return Ok(false);
    };
    let ended = give(kernel, growth, c, d, new)?;
    Ok(ended)
}

// Grows by the hidden literals that the clauses with a literal of the set give, along its list in the kernel.
// Hot where few clauses are tested: each step waits for a link, an owner, a slot and a word in turn. Where many are, watches
// take its place (`watching.rt`).
fn spread_list(kernel: &Kernel, growth: &mut Growth, c: ClauseId, k: Lit) -> Result<bool, NoMemory>
    requires { Growing kernel.now c growth.old }
    ensures { IfOk result (HasSpread kernel.now c (λ E.
        IsIn E (others c (slots kernel.now)) × IsIn k E) growth.old growth.new) }
{
    for d in kernel.holders(k) {
        if take_hidden(kernel, growth, c, d)? {
            return Ok(true);
        }
    }
    Ok(false)
}

/// Grows by all hidden literals. The list of each literal is walked once, however the set grows: a clause gives nothing new until one
/// of its literals comes. Yes where the growth ends.
pub(crate) fn close_by_lists(
    kernel: &Kernel,
    growth: &mut Growth,
    watches: &mut Watches,
    c: ClauseId,
) -> Result<bool, NoMemory>
    requires { Growing kernel.now c growth.old }
    ensures closed { IfOk result (HasClosed kernel.now c growth.new) }
    ensures same { IsSame watches.old watches.new }
{
    while growth.worked < growth.set.len() {
        let k = growth.set.at(growth.worked);
        watches.meet(kernel.count(k));
        if spread_list(kernel, growth, c, k)? {
            return Ok(true);
        }
        growth.worked += 1;
    }
    Ok(false)
}

/// Grows by the hidden literals that the clauses of a list give, in which are all of one literal.
pub fn use_units(
    kernel: &Kernel,
    growth: &mut Growth,
    c: ClauseId,
    units: &[ClauseId],
) -> Result<Progress, NoMemory>
    requires growing { Growing kernel.now c growth.old }
    requires units { HasUnits (slots kernel.now) units.now }
    ensures { IfOk result (HasUsedUnits kernel.now c growth.old growth.new) }
{
    let before = growth.set.len();
    for d in units {
        if take_hidden(kernel, growth, c, *d)? {
            return Ok(Progress::Ended);
        }
    }
    if growth.set.len() > before {
        return Ok(Progress::Grown);
    }
    Ok(Progress::Unchanged)
}
