//! What searches lend each other.
use crate::apart::Apart;
use crate::growth::Growth;
use crate::needed::Needed;
use crate::replay::Hint;
use crate::units::Units;
use q_logic::Lit;
use q_watch::Watches;

/// Room for searches. It serves for any kernel.
#[derive(Drop)]
pub struct Search {
    /// The literals of the clause that is tested, and those that it may have as well.
    pub(crate) growth: Growth,
    /// What a caller knows of the clause that is tested next.
    pub(crate) hint: Hint,
    /// The clauses of one literal.
    pub(crate) units: Units,
    /// Two watched literals for each clause, where many clauses were tested.
    pub(crate) watches: Watches,
    /// Clauses that show, whatever a set is, that nothing is covered.
    pub(crate) apart: Apart,
    /// Room for the steps on which a growth rests.
    pub(crate) needed: Needed,
    /// Room for the larger clauses of a plan.
    pub(crate) larger: Vec<Lit>,
}
