/// Why no further turn comes.
#[derive(Clone, Copy, Debug, PartialEq, Eq)]
pub(crate) enum Stop {
    /// No target applies.
    Settled,
    /// Some target applies, and the budget is spent.
    Spent,
    /// An alarm rang.
    Stopped,
}
