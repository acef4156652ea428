//! Whether a clause may lose a universal literal.
ghost use Rattle.std.specs.Prelude.{◌≡◌, ◌↔◌, ◌<◌, true, length, Some, OnOk, IfOk, IsTrue, slice_get};
ghost use Rattle.q_logic.specs.Prelude.{Literal, negation, IsIn, is_bound, is_universal, Reducible, Within};
ghost use Rattle.q_prop.specs.Slots.{filled};
ghost use Rattle.q_judge.specs.Regions.{AreRegionsOf};
ghost use Rattle.q_judge.specs.Walks.{is_inner, IsWidened, IsFollowed, IsVisited};

use crate::recent::RecentRegions;
use crate::scope::Scope;
use crate::view::View;
use q_logic::{Lit, NoMemory, holds};
use q_prop::Trail;

/// Whether the universal literal may go from the clause by its reach alone, beside the other clauses. The trail is
/// left with what a walk met.
pub fn reduces(
    view: &View,
    recent: &RecentRegions,
    trail: &mut Trail,
    clause: &[Lit],
    lit: Lit,
) -> Result<bool, NoMemory>
    requires within { Within view.now.prefix clause.now }
    requires held { IsIn lit clause.now }
    requires universal { is_universal view.now.prefix lit.var ≡ true }
    requires regions { AreRegionsOf view.now.prefix (filled view.now.slots) recent.now }
    ensures { IfOk result (λ yes. IsTrue yes ↔
        Reducible view.now.prefix (filled view.now.slots) clause.now lit) }
{
    if holds(clause, lit.negated()) {
        return Ok(false);
    }
    is_reducible(view, recent, trail, clause, lit)
}

// Whether no clause that is reached from the clause holds the literal's negation. Regions are asked once the walk
// went on from as many literals as there are clauses with the negation, so that this costs no more than the walk.
fn is_reducible(
    view: &View,
    recent: &RecentRegions,
    trail: &mut Trail,
    clause: &[Lit],
    lit: Lit,
) -> Result<bool, NoMemory>
    requires within { Within view.now.prefix clause.now }
    requires held { IsIn lit clause.now }
    requires universal { is_universal view.now.prefix lit.var ≡ true }
    requires not_negated { IsIn (negation lit) clause.now → ⊥ }
    requires regions { AreRegionsOf view.now.prefix (filled view.now.slots) recent.now }
    ensures { IfOk result (λ yes. IsTrue yes ↔
        Reducible view.now.prefix (filled view.now.slots) clause.now lit) }
{
    trail.truncate(0);
    push_inner(trail, view.scope(), clause, lit)?;
    let opposite = view.slots_of(lit.negated()).len();
    for head in 0..usize::MAX {
        if head >= trail.len() {
            return Ok(true);
        }
        if head == opposite && recent.separate(view, clause, lit) {
            return Ok(true);
        }
        if !visit(view, trail, head, lit)? {
            return Ok(false);
        }
    }
    // a trail that long has no place in memory
    Err(NoMemory)
}

// Follows the clauses that hold the negation of a literal; whether none holds the negation of u.
pub(crate) fn visit(view: &View, trail: &mut Trail, head: usize, u: Lit) -> Result<bool, NoMemory>
    requires bound { is_bound view.now.prefix u.var ≡ true }
    requires head { head < length trail.old }
    ensures { IfOk result (λ yes. (k : Literal) → slice_get trail.old head ≡ Some k →
        IsVisited view.now.prefix (filled view.now.slots) u k trail.old trail.new yes) }
{
    let lit = trail.at(head);
    let slots = view.slots_of(lit.negated());
    for i in 0..slots.len() {
        if !follow(view, trail, slots[i] as usize, u)? {
            return Ok(false);
        }
    }
    Ok(true)
}

// Puts the inner literals of the clause in a slot on the trail, unless it holds u; whether it does not
// hold the negation of u then.
fn follow(view: &View, trail: &mut Trail, at: usize, u: Lit) -> Result<bool, NoMemory>
    requires { is_bound view.now.prefix u.var ≡ true }
    ensures { IfOk result (λ yes.
        IsFollowed view.now.prefix view.now.slots u at trail.old trail.new yes) }
{
    let Some(clause) = view.clause(at) else {
        return Ok(true);
    };
    if holds(clause, u) {
        return Ok(true);
    }
    if holds(clause, u.negated()) {
        return Ok(false);
    }
    push_inner(trail, view.scope(), clause, u)?;
    Ok(true)
}

// Puts the literals of the clause that are existential and inner to u on the trail.
pub(crate) fn push_inner(
    trail: &mut Trail,
    scope: &Scope,
    clause: &[Lit],
    u: Lit,
) -> Result<(), NoMemory>
    requires bound { is_bound scope.now u.var ≡ true }
    requires within { Within scope.now clause.now }
    ensures { OnOk result (IsWidened scope.now u clause.now trail.old trail.new) }
{
    for k in clause {
        if lies_inside(scope, *k, u) && !trail.has(*k) {
            trail.push(*k)?;
        }
    }
    Ok(())
}

pub(crate) fn lies_inside(scope: &Scope, k: Lit, u: Lit) -> bool
    requires first { is_bound scope.now k.var ≡ true }
    requires second { is_bound scope.now u.var ≡ true }
    ensures { result ≡ is_inner scope.now u k }
{
    scope.is_inner(k.var(), u.var())
}
