//! Why a step is refused. The numbers are those of the lines that are put and of the table of causes; which of them comes
//! is the least that applies (`specs/Causes`).
ghost use Rattle.std.specs.Prelude.{◌≡◌};
ghost use Rattle.q_judge.specs.Causes.{number};
ghost use Rattle.q_judge.specs.declared.error.CheckError.TheVariants.{Refused as refused};

use q_logic::NoMemory as MemoryMissing;
use std::alloc::AllocError;

/// Why a step or an output is refused, by its number in lines and documents.
#[derive(Clone, Copy, Debug, PartialEq, Eq)]
pub enum Cause {
    /// A variable that is not in the prefix.
    Unbound = 2,
    /// A clause that is not there.
    NoClause = 3,
    /// A clause that is neither implied nor has its first literal as a pivot.
    Unwarranted = 4,
    /// A literal that may not be dropped.
    NotDroppable = 5,
    /// A fresh variable in the wrong place.
    BadFresh = 6,
    /// A removed variable that occurs.
    Occurs = 7,
    /// Too many clauses or literals.
    Limit = 8,
    /// At the end, other blocks than the output's.
    OtherBlocks = 9,
    /// At the end, other clauses than the output's.
    OtherClauses = 10,
    /// A proof part that does not show its step.
    BadHint = 12,
}

/// Why a step or an output is not taken; a refusal with the number of its `Cause`.
#[derive(Clone, Copy, Debug, PartialEq, Eq, thiserror::Error)]
pub enum CheckError {
    #[error("refused with cause {cause}")]
    Refused { cause: u8 },
    #[error("out of memory")]
    NoMemory,
}

impl Cause {
    /// The refusal for this cause.
    pub fn refusal(self) -> CheckError
        ensures { result ≡ refused (number self) }
    {
        CheckError::Refused { cause: self as u8 }
    }
}

impl From<MemoryMissing> for CheckError {
    ghost use Rattle.q_judge.specs.declared.error.CheckError.TheVariants.{NoMemory as wanting};

    ghost from_gives = { λ _ e. e ≡ wanting };

    fn from(_: MemoryMissing) -> CheckError {
        CheckError::NoMemory
    }
}

impl From<AllocError> for CheckError {
    ghost use Rattle.q_judge.specs.declared.error.CheckError.TheVariants.{NoMemory as wanting};

    ghost from_gives = { λ _ e. e ≡ wanting };

    fn from(_: AllocError) -> CheckError {
        CheckError::NoMemory
    }
}
