// The memory of this crate's searches: made once, lent to each walk over the dependents of a universal variable.
use crate::dependents::Dependents;
use q_logic::Lit;

/// What searches and changes lend each other: room for walks, for the variables of the dependents in the order of the
/// prefix, and for a clause.
#[derive(Drop)]
pub struct Search {
    pub(crate) dependents: Dependents,
    pub(crate) order: Vec<u32>,
    pub(crate) spare: Vec<Lit>,
}
