// Where a clause stands in a forest: the walks over resolution paths by which extended universal reduction is tested (Slivovsky
// and Szeider 2016 have these dependencies).
use q_kernel::ClauseId;
use q_logic::Lit;

/// Where a clause stands in a forest.
#[derive(Clone, Copy, Debug, PartialEq, Eq)]
pub enum Place {
    Outside,
    Root,
    /// Below a clause that holds the negation of the literal, so many edges below a root. The jump leads to the parent or to a
    /// clause further up, so that few jumps lead to any clause above.
    Below {
        parent: ClauseId,
        lit: Lit,
        depth: u32,
        jump: ClauseId,
    },
}
