//! Which literal of a clause another clause lacks.
ghost use Rattle.std.specs.Prelude.{◌≡◌, ◌↔◌, ◌≢◌, true, false, None, Some, IsTrue, drop};
ghost use Rattle.q_logic.specs.Prelude.{Literal, IsBelow, IsIn, ArePairs};
ghost use Rattle.q_rule.specs.Looks.{IsLeastFrom};

use crate::places::{is_at, skip_to};
use q_logic::Lit;

/// The least literal of the clause c that is not in the clause d, one literal aside. Both clauses are in order, so they
/// are walked side by side, each once.
pub fn first_missing(c: &[Lit], d: &[Lit], aside: &Option<Lit>) -> Option<Lit>
    requires ordered { ArePairs IsBelow c.now }
    requires other { ArePairs IsBelow d.now }
    ensures some { (k : Literal) → result ≡ Some k → IsIn k c.now × (aside.now ≢ Some k)
        × (IsIn k d.now → ⊥) }
    ensures none { result ≡ None → (k : Literal) → IsIn k c.now → aside.now ≢ Some k
        → IsIn k d.now }
{
    let mut at = 0;
    for k in c {
        at = skip_to(d, at, *k);
        if lacks(d, at, *k, aside) {
            return Some(*k);
        }
    }
    None
}

// Whether k is not among the literals from a place on, none of which is below it, and is not put aside.
fn lacks(d: &[Lit], at: usize, k: Lit, aside: &Option<Lit>) -> bool
    requires ordered { ArePairs IsBelow d.now }
    requires least { IsLeastFrom d.now at k }
    ensures yes { result ≡ true → (IsIn k (drop at d.now) → ⊥) × (aside.now ≢ Some k) }
    ensures no { result ≡ false → aside.now ≢ Some k → IsIn k (drop at d.now) }
{
    !is_at(d, at, k) && !is_aside(aside, k)
}

fn is_aside(aside: &Option<Lit>, k: Lit) -> bool
    ensures { IsTrue result ↔ (aside.now ≡ Some k) }
{
    match *aside {
        Some(l) => l.is(k),
        None => false,
    }
}
