// Why a log is not read on: a token that fits no step, too many bytes, or memory is wanting.
ghost use Rattle.std.specs.Prelude.{◌≡◌};
ghost use Rattle.q_log.specs.Causes.{cause_number};

use q_logic::NoMemory;
use thiserror::Error;

/// Why a log is not read to its end.
#[derive(Clone, Copy, Debug, PartialEq, Eq, Error)]
pub enum LogError {
    /// A token that fits no step, or the end inside a step.
    #[error("line {line}: no step")]
    BadLine { line: u64 },
    /// The byte past the limit.
    #[error("line {line}: too many bytes")]
    Limit { line: u64 },
    #[error("no memory")]
    NoMemory,
}

impl LogError {
    /// The number by which lines and documents name its cause; 0 where memory ran out, which is no fault of the log.
    pub fn cause(&self) -> u8
        ensures { result ≡ cause_number self.now }
    {
        match self {
            LogError::NoMemory => 0,
            LogError::BadLine { .. } => 1,
            LogError::Limit { .. } => 8,
        }
    }
}

impl From<NoMemory> for LogError {
    ghost use Rattle.q_log.specs.declared.error.LogError.TheVariants.{NoMemory as wanting};

    ghost from_gives = { λ _ e. e ≡ wanting };

    fn from(_: NoMemory) -> LogError {
        LogError::NoMemory
    }
}
