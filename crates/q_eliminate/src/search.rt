//! What searches lend each other.
use crate::sides::Sides;
use q_logic::Lit;
use q_rule::Queue;

/// Room that searches and changes share: the clauses of a variable, the literals of one of them, and a resolvent. It may
/// hold anything before and after a call.
#[derive(Drop)]
pub struct Search {
    pub(crate) sides: Sides,
    pub(crate) marks: Queue,
    pub(crate) resolvent: Vec<Lit>,
}
