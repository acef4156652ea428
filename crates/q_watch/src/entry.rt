//! What is kept of a clause.
use q_kernel::ClauseId;
use q_logic::Lit;

/// A clause in the row of a literal that it watches, and some literal of it: where the negation of that one is in a set, the clause
/// gives the set nothing.
#[derive(Clone, Copy, Debug)]
pub struct Entry {
    pub id: ClauseId,
    pub blocker: Lit,
}

/// The two literals that a clause watches. One of one literal watches it twice.
#[derive(Clone, Copy, Debug)]
pub struct Pair {
    pub first: Lit,
    pub second: Lit,
}
