//! Evident pivots: each resolvent is a tautology, or stands among the clauses already, as where a variable is eliminated and the
//! resolvents came before. That takes no propagation.
ghost use Rattle.std.specs.Prelude.{◌≡◌, ◌++◌, true, IfOk, OnOk, IsTrue};
ghost use Rattle.q_logic.specs.Prelude.{Clause, IsIn, Implied, is_bound, outer, without, ExistsPivot, IsFirst, FirstPivot, Within};
ghost use Rattle.q_prop.specs.Slots.{Holds, filled};
ghost use Rattle.q_judge.specs.Pivots.{looked_up};
ghost use Rattle.q_judge.specs.Warrants.{Resolves};

use crate::blocking::clashes;
use crate::pivots::push_outer;
use crate::scope::Scope;
use crate::view::View;
use q_logic::{Lit, NoMemory, sort_clause};

/// So many clauses at most may hold the opposite literal: each costs a look at it and one look-up.
const FEW: usize = 32;

/// Whether the first literal, if there is one, is an evident pivot of the clause.
pub fn is_evident_first(
    view: &View,
    joined: &mut Vec<Lit>,
    clause: &[Lit],
    first: Option<Lit>,
) -> Result<bool, NoMemory>
    requires within { Within view.now.prefix clause.now }
    requires first { IsFirst first clause.now }
    ensures { IfOk result (λ yes. IsTrue yes →
        FirstPivot view.now.prefix (filled view.now.slots) clause.now first) }
{
    match first {
        Some(pivot) => is_evident(view, joined, clause, pivot),
        None => Ok(false),
    }
}

// Whether the pivot is existential, and each resolvent on it is a tautology or stands there.
fn is_evident(
    view: &View,
    joined: &mut Vec<Lit>,
    clause: &[Lit],
    pivot: Lit,
) -> Result<bool, NoMemory>
    requires within { Within view.now.prefix clause.now }
    requires held { IsIn pivot clause.now }
    ensures { IfOk result (λ yes. IsTrue yes →
        ExistsPivot view.now.prefix (filled view.now.slots) clause.now pivot) }
{
    if !view.scope().is_existential(pivot.var()) {
        return Ok(false);
    }
    resolves_evidently(view, joined, clause, pivot.negated())
}

/// Whether the base, joined with the outer clause of each clause that holds m, is a tautology or holds a clause that stands there: the
/// base without the negation of m, and the outer clause.
pub fn resolves_evidently(
    view: &View,
    joined: &mut Vec<Lit>,
    base: &[Lit],
    m: Lit,
) -> Result<bool, NoMemory>
    requires { is_bound view.now.prefix m.var ≡ true }
    ensures { IfOk result (λ yes. IsTrue yes →
        Resolves view.now.prefix (filled view.now.slots) base.now m) }
{
    let slots = view.slots_of(m);
    if slots.len() > FEW {
        return Ok(false);
    }
    for at in slots {
        if !is_met(view, joined, *at as usize, base, m)? {
            return Ok(false);
        }
    }
    Ok(true)
}

// The same for the clause in one slot.
fn is_met(
    view: &View,
    joined: &mut Vec<Lit>,
    at: usize,
    base: &[Lit],
    m: Lit,
) -> Result<bool, NoMemory>
    requires { is_bound view.now.prefix m.var ≡ true }
    ensures { IfOk result (λ yes. IsTrue yes → (d : Clause) → Holds view.now.slots at d →
        Implied (filled view.now.slots) (base.now ++ outer view.now.prefix m d)) }
{
    let Some(other) = view.clause(at) else {
        return Ok(true);
    };
    if clashes(view.scope(), base, other, m) {
        return Ok(true);
    }
    load_resolvent(view.scope(), joined, base, other, m)?;
    Ok(view.finds(joined))
}

// The resolvent of the base and another clause, which is cut to its outer clause.
fn load_resolvent(
    scope: &Scope,
    joined: &mut Vec<Lit>,
    base: &[Lit],
    other: &[Lit],
    m: Lit,
) -> Result<(), NoMemory>
    requires bound { is_bound scope.now m.var ≡ true }
    requires within { Within scope.now other.now }
    ensures { OnOk result (joined.new.items ≡ looked_up scope.now m base.now other.now) }
{
    joined.clear();
    push_without(joined, base, m.negated())?;
    push_outer(joined, scope, other, m)?;
    sort_clause(joined);
    Ok(())
}

// Appends the literals but one.
fn push_without(joined: &mut Vec<Lit>, lits: &[Lit], lit: Lit) -> Result<(), NoMemory>
    ensures { OnOk result (joined.new.items ≡ joined.old.items ++ without lit lits.now) }
{
    for k in lits {
        if !k.is(lit) {
            joined.push(*k)?;
        }
    }
    Ok(())
}
