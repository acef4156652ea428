/// How simplification ended.
#[derive(Clone, Copy, Debug, PartialEq, Eq)]
pub enum Ending {
    /// No target applies, and there are clauses, none of them empty.
    Settled,
    /// No clause is left.
    True,
    /// The empty clause alone is left.
    False,
    /// The budget is spent, and some target still applies.
    Spent,
    /// An alarm rang. Whether a target still applies was not looked for.
    Stopped,
}

/// How simplification ended, with the measures of the formula before and after.
#[derive(Clone, Copy, Debug, PartialEq, Eq)]
pub struct Report {
    pub ending: Ending,
    pub before: u64,
    pub after: u64,
}
