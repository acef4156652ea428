//! What `refute` and `Trail` refuse: circuits that are none of the result, and steps that no reversal undoes.
use q_logic::NoMemory as MemoryMissing;
use std::alloc::AllocError;

/// Why circuits are not carried back.
#[derive(Clone, Copy, Debug, PartialEq, Eq, thiserror::Error)]
pub enum HerbrandError {
    #[error("missing {var}")]
    MissingOutput { var: u32 },
    #[error("strange output {var}")]
    StrangeOutput { var: u32 },
    #[error("strange input {var}")]
    StrangeInput { var: u32 },
    #[error("{var} reads {existential}")]
    Reads { var: u32, existential: u32 },
    #[error("of a true output")]
    TrueOutput,
    #[error("out of memory")]
    NoMemory,
}

impl From<MemoryMissing> for HerbrandError {
    ghost use Rattle.std.specs.Prelude.{◌≡◌};
    ghost use Rattle.q_herbrand.specs.declared.error.HerbrandError.TheVariants.{NoMemory as wanting};

    ghost from_gives = { λ _ e. e ≡ wanting };

    fn from(_: MemoryMissing) -> HerbrandError {
        HerbrandError::NoMemory
    }
}

/// Why a step is not noted.
#[derive(Clone, Copy, Debug, PartialEq, Eq, thiserror::Error)]
pub enum TrailError {
    /// A drop that is neither plain nor by a universal pivot.
    #[error("extended drop")]
    Extended,
    #[error("out of memory")]
    NoMemory,
}

impl From<MemoryMissing> for TrailError {
    ghost use Rattle.std.specs.Prelude.{◌≡◌};
    ghost use Rattle.q_herbrand.specs.declared.error.TrailError.TheVariants.{NoMemory as wanting};

    ghost from_gives = { λ _ e. e ≡ wanting };

    fn from(_: MemoryMissing) -> TrailError {
        TrailError::NoMemory
    }
}

impl From<AllocError> for TrailError {
    ghost use Rattle.std.specs.Prelude.{◌≡◌};
    ghost use Rattle.q_herbrand.specs.declared.error.TrailError.TheVariants.{NoMemory as wanting};

    ghost from_gives = { λ _ e. e ≡ wanting };

    fn from(_: AllocError) -> TrailError {
        TrailError::NoMemory
    }
}
