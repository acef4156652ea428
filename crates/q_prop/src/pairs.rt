// The pair of literals that is watched in a clause.
ghost use Rattle.q_prop.specs.Working.{IsOther};

use q_logic::Lit;

/// Two literals of a clause.
#[derive(Clone, Copy)]
pub struct Pair {
    pub first: Lit,
    pub second: Lit,
}

// The other literal of the pair.
pub fn other_of(pair: Pair, lit: Lit) -> Option<Lit>
    ensures { IsOther pair lit result }
{
    if pair.first.is(lit) {
        Some(pair.second)
    } else if pair.second.is(lit) {
        Some(pair.first)
    } else {
        None
    }
}
