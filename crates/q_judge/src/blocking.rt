//! Clashes: resolvents that are tautologies. That takes no propagation.
ghost use Rattle.std.specs.Prelude.{◌≡◌, ◌++◌, true, Contains, IsTrue};
ghost use Rattle.q_logic.specs.Prelude.{negation, is_bound, keeps, outer, IsTautology, Within};

use crate::pivots::is_outer;
use crate::scope::Scope;
use q_logic::Lit;

/// Whether the outer clause of another one holds a literal whose negation is in the clause.
pub(crate) fn clashes(scope: &Scope, clause: &[Lit], other: &[Lit], m: Lit) -> bool
    requires bound { is_bound scope.now m.var ≡ true }
    requires within { Within scope.now other.now }
    ensures { IsTrue result → IsTautology (clause.now ++ outer scope.now m other.now) }
{
    for k in other {
        if clashes_on(scope, clause, *k, m) {
            return true;
        }
    }
    false
}

// Whether a literal is outer or same to m, but not m, and its negation is in the clause.
fn clashes_on(scope: &Scope, clause: &[Lit], k: Lit, m: Lit) -> bool
    requires first { is_bound scope.now m.var ≡ true }
    requires second { is_bound scope.now k.var ≡ true }
    ensures { IsTrue result → (keeps scope.now m k ≡ true) × Contains clause.now (negation k) }
{
    is_among(clause, k.negated()) && is_outer(scope, m, k)
}

// Whether a clause in literal order holds the literal; in another order it may be missed.
fn is_among(clause: &[Lit], lit: Lit) -> bool
    ensures { IsTrue result → Contains clause.now lit }
{
    match clause.binary_search(&lit) {
        Ok(place) => clause[place].is(lit),
        Err(_) => false,
    }
}
