// The refusals of a circuit file: each is one row of the table of causes in docs/FORMATS.md.
ghost use Rattle.std.specs.Prelude.{◌≡◌};

use q_logic::NoMemory;
use std::alloc::{AllocError, AllocFailed};
use thiserror::Error;

/// Why no circuits were read.
#[derive(Clone, Copy, Debug, PartialEq, Eq, Error)]
pub enum AigerError {
    /// The first offence of the text: its line, and the number of its cause.
    #[error("line {line} cause {cause}")]
    Refused { line: u64, cause: u8 },
    #[error("out of memory")]
    NoMemory,
}

/// Why a text is no circuit file, by its number in lines and documents.
#[derive(Clone, Copy, Debug, PartialEq, Eq)]
pub enum Cause {
    /// The first line is no header, or says too little.
    BadHeader = 1,
    /// A line of an input, an output or a gate is not of its form.
    BadToken = 2,
    /// There are latches.
    BadLatch = 3,
    /// A variable that an earlier line defines.
    DefinedTwice = 4,
    /// A variable that no line defines.
    Undefined = 5,
    /// A gate that depends on itself.
    Cycle = 6,
    /// A symbol line breaks its rules, or a symbol is missing.
    BadSymbol = 7,
    /// The end before all lines of inputs, outputs and gates.
    Unended = 8,
    /// A limit is passed.
    Limit = 9,
}

impl From<NoMemory> for AigerError {
    ghost use Rattle.q_aiger.specs.declared.error.AigerError.TheVariants.{NoMemory as wanting};

    ghost from_gives = { λ _ e. e ≡ wanting };

    fn from(_: NoMemory) -> AigerError {
        AigerError::NoMemory
    }
}

impl From<AllocError> for AigerError {
    ghost use Rattle.q_aiger.specs.declared.error.AigerError.TheVariants.{NoMemory as wanting};

    ghost from_gives = { λ _ e. e ≡ wanting };

    fn from(_: AllocError) -> AigerError {
        AigerError::NoMemory
    }
}

impl<T: Drop> From<AllocFailed<T>> for AigerError {
    ghost use Rattle.q_aiger.specs.declared.error.AigerError.TheVariants.{NoMemory as wanting};

    ghost from_gives = { λ _ e. e ≡ wanting };

    fn from(_: AllocFailed<T>) -> AigerError {
        AigerError::NoMemory
    }
}
