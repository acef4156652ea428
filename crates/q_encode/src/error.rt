// Why a miter is not written: it would pass the limits of a formula, or memory is wanting.
use q_logic::NoMemory as MemoryMissing;

/// Why no miter is made.
#[derive(Clone, Copy, Debug, PartialEq, Eq, thiserror::Error)]
pub enum EncodeError {
    #[error("too large")]
    TooLarge,
    #[error("out of memory")]
    NoMemory,
}

impl From<MemoryMissing> for EncodeError {
    ghost use Rattle.std.specs.Prelude.{◌≡◌};
    ghost use Rattle.q_encode.specs.declared.error.EncodeError.TheVariants.{NoMemory as wanting};

    ghost from_gives = { λ _ e. e ≡ wanting };

    fn from(_: MemoryMissing) -> EncodeError {
        EncodeError::NoMemory
    }
}
