// What the plain rules are applied to: tautologies, unit clauses, reducible universal literals, pure literals.
use q_kernel::ClauseId;
use q_logic::Lit;

/// What a plain rule is applied to.
#[derive(Clone, Copy, Debug, PartialEq, Eq)]
pub enum Target {
    /// A clause with a literal and its negation goes.
    Tautology { c: ClauseId },
    /// The literal of a unit clause becomes true.
    Unit { c: ClauseId },
    /// A universal literal that is reducible leaves its clause.
    Cut { c: ClauseId, l: Lit },
    /// A literal whose negation does not occur becomes true where it is existential, and false where it is
    /// universal.
    Pure { l: Lit },
}
