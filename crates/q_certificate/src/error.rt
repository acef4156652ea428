// Circuits that fit no prefix, with the variable at fault. The first misfit in the order of the variants is told.
use q_logic::NoMemory as MemoryMissing;

/// Why circuits do not fit a prefix.
#[derive(Clone, Copy, Debug, PartialEq, Eq, thiserror::Error)]
pub enum Misfit {
    #[error("missing {var}")]
    MissingOutput { var: u32 },
    #[error("strange output {var}")]
    StrangeOutput { var: u32 },
    #[error("strange input {var}")]
    StrangeInput { var: u32 },
    #[error("{var} reads {other}")]
    Reads { var: u32, other: u32 },
    #[error("out of memory")]
    NoMemory,
}

impl From<MemoryMissing> for Misfit {
    ghost use Rattle.std.specs.Prelude.{◌≡◌};
    ghost use Rattle.q_certificate.specs.declared.error.Misfit.TheVariants.{NoMemory as wanting};

    ghost from_gives = { λ _ e. e ≡ wanting };

    fn from(_: MemoryMissing) -> Misfit {
        Misfit::NoMemory
    }
}
