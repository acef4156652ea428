// The refusals of a formula file: each is one row of the table of causes in docs/FORMATS.md.
ghost use Rattle.std.specs.Prelude.{◌≡◌};
ghost use Rattle.q_dimacs.specs.Causes.{cause_number};

use thiserror::Error;

/// Why no formula was read.
#[derive(Clone, Copy, Debug, PartialEq, Eq, Error)]
pub enum ReadError {
    /// The first place where the text breaks the grammar or a limit: its line, and the number of its
    /// cause.
    #[error("line {line} cause {cause}")]
    Refused { line: u64, cause: u8 },
    #[error("out of memory")]
    NoMemory,
}

/// Why a text is no formula file.
#[derive(Clone, Copy, Debug, PartialEq, Eq)]
pub enum Cause {
    /// One of the first four tokens is not that of a header, or the end comes before the fourth.
    BadHeader,
    /// A token that can't stand where it stands.
    BadToken,
    /// A variable above the header's number.
    AboveHeader,
    /// A variable that an earlier place of a set has.
    BoundTwice,
    /// A set behind a clause.
    LateQuantifier,
    /// More clauses than the header says, or fewer.
    ClauseCount,
    /// The end inside a set or a clause.
    Unended,
    /// A limit is passed.
    Limit,
}

impl Cause {
    /// The number by which lines and documents name it.
    pub fn number(self) -> u8
        ensures { result ≡ cause_number self }
    {
        match self {
            Cause::BadHeader => 1,
            Cause::BadToken => 2,
            Cause::AboveHeader => 3,
            Cause::BoundTwice => 4,
            Cause::LateQuantifier => 5,
            Cause::ClauseCount => 6,
            Cause::Unended => 7,
            Cause::Limit => 8,
        }
    }
}
