//! Places in a clause that is in order. Where literals are looked for in ascending order, one walk along the clause serves
//! for all of them.
ghost use Rattle.std.specs.Prelude.{◌↔◌, ◌≤◌, IsTrue, drop};
ghost use Rattle.q_logic.specs.Prelude.{Literal, IsBelow, pack, IsIn, ArePairs};
ghost use Rattle.q_rule.specs.Looks.{IsLeastFrom};

use q_logic::Lit;

/// The place of the first literal from a place on that is not below k.
pub fn skip_to(d: &[Lit], from: usize, k: Lit) -> usize
    requires { ArePairs IsBelow d.now }
    ensures kept { (j : Literal) → pack k ≤ pack j → IsIn j (drop from d.now)
        → IsIn j (drop result d.now) }
    ensures least { IsLeastFrom d.now result k }
{
    for at in from..d.len() {
        if k.index() <= d[at].index() {
            return at;
        }
    }
    d.len()
}

/// Whether the literal at a place, from which on none is below k, is k.
pub fn is_at(d: &[Lit], at: usize, k: Lit) -> bool
    requires ordered { ArePairs IsBelow d.now }
    requires least { IsLeastFrom d.now at k }
    ensures { IsTrue result ↔ IsIn k (drop at d.now) }
{
    at < d.len() && d[at].is(k)
}
