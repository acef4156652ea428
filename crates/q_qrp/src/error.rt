// The refusals of a trace before its proof is judged: each is one row of the table of causes in docs/FORMATS.md.
ghost use Rattle.std.specs.Prelude.{◌≡◌};
ghost use Rattle.q_qrp.specs.Causes.{cause_number};

use thiserror::Error;

/// Why no trace was read.
#[derive(Clone, Copy, Debug, PartialEq, Eq, Error)]
pub enum TraceError {
    /// The first place where the text breaks the grammar or a limit: its line, and the number of its cause.
    #[error("line {line} cause {cause}")]
    Refused { line: u64, cause: u8 },
    #[error("out of memory")]
    NoMemory,
}

/// Why a text is no trace.
#[derive(Clone, Copy, Debug, PartialEq, Eq)]
pub enum Cause {
    /// A word that can't stand where it stands.
    BadWord,
    /// The end comes before the verdict: the solver was stopped.
    NoVerdict,
    /// The number of a line is not above those before it.
    NotRising,
    /// A number is too great, or the text too long.
    Limit,
}

impl Cause {
    /// The number by which lines and documents name it.
    pub fn number(self) -> u8
        ensures { result ≡ cause_number self }
    {
        match self {
            Cause::BadWord => 1,
            Cause::NoVerdict => 2,
            Cause::NotRising => 3,
            Cause::Limit => 8,
        }
    }
}
