// What the rules of this crate are applied to; each names a clause by its place in the kernel, and its pivot.
use q_kernel::ClauseId;
use q_logic::Lit;

/// What this crate's rules are applied to.
#[derive(Clone, Copy, Debug, PartialEq, Eq)]
pub enum Target {
    /// A clause goes that each clause with the negation of its existential literal clashes with.
    Blocked { c: ClauseId, l: Lit },
    /// The same for a universal literal, which leaves the clause.
    BlockedForall { c: ClauseId, l: Lit },
    /// A clause goes that grows, by literals that it may have as well, to a tautology or to a blocked set.
    Cover { c: ClauseId },
}
