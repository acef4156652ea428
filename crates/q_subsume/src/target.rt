// What subsumption and strengthening (self-subsuming resolution) are applied to (Een and Biere 2005).
use q_kernel::ClauseId;
use q_logic::Lit;

/// What subsumption is applied to.
#[derive(Clone, Copy, Debug, PartialEq, Eq)]
pub enum Target {
    /// The clause d goes: it holds all literals of the clause c.
    Subsumed { c: ClauseId, d: ClauseId },
    /// The literal l leaves the clause d: with the negation of l turned into l, all literals of the clause c
    /// are in d.
    Strengthen { c: ClauseId, d: ClauseId, l: Lit },
}
