// Where the next search for a subsumed clause begins: behind the clause by which the last one was found.
use crate::target::Target;
use q_kernel::ClauseId;

/// What searches lend each other: the clause by which the last target was found. The next search begins there, so that one
/// target after the other is found in one pass over the clauses. It may be any number, whatever the kernel.
#[derive(Drop)]
pub struct Search {
    pub(crate) start: ClauseId,
}

impl Search {
    /// Where the next search begins.
    pub(crate) fn start(&self) -> ClauseId {
        self.start
    }

    /// The next search begins at the clause by which a target was found.
    pub(crate) fn note(&mut self, target: &Target) {
        self.start = match *target {
            Target::Subsumed { c, .. } => c,
            Target::Strengthen { c, .. } => c,
        };
    }
}
