//! What a turn answers.
/// What a turn did.
#[derive(Clone, Copy, Debug, PartialEq, Eq)]
pub enum Turn {
    /// A target was taken.
    Moved,
    /// A guide was asked or dropped, and the formula is as before.
    Asked,
    /// No target applies.
    Settled,
    /// Some target applies, and the budget is spent.
    Spent,
    /// The alarm rang while the rules were searched, and the formula is as before.
    GaveWay,
}
