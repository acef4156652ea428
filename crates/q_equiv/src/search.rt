//! What searches lend each other.
use crate::find::Walks;
use crate::proposing::Halves;
use q_logic::Lit;
use q_rule::Queue;

/// Room that searches lend each other. Nothing in it has to agree with a kernel.
#[derive(Drop)]
pub struct Search {
    pub(crate) queue: Queue,
    pub(crate) clause: Vec<Lit>,
    pub(crate) walks: Walks,
    pub(crate) halves: Halves,
}
