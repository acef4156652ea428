//! Why circuits are not validated: the four refusals of `q_certificate`, under the names that `validate` says, and want of memory.
use q_certificate::Misfit;
use q_logic::NoMemory as MemoryMissing;

/// Why circuits are not validated.
#[derive(Clone, Copy, Debug, PartialEq, Eq, thiserror::Error)]
pub enum ValidateError {
    #[error("missing {var}")]
    MissingOutput { var: u32 },
    #[error("strange output {var}")]
    StrangeOutput { var: u32 },
    #[error("strange input {var}")]
    StrangeInput { var: u32 },
    #[error("{var} reads {universal}")]
    Reads { var: u32, universal: u32 },
    #[error("out of memory")]
    NoMemory,
}

impl From<MemoryMissing> for ValidateError {
    ghost use Rattle.std.specs.Prelude.{◌≡◌};
    ghost use Rattle.q_validate.specs.declared.error.ValidateError.TheVariants.{NoMemory as wanting};

    ghost from_gives = { λ _ e. e ≡ wanting };

    fn from(_: MemoryMissing) -> ValidateError {
        ValidateError::NoMemory
    }
}

impl From<Misfit> for ValidateError {
    ghost use Rattle.std.specs.Prelude.{◌≡◌};
    ghost use Rattle.q_validate.specs.Refusals.{misfit_of};

    ghost from_gives = { λ m e. misfit_of e ≡ m };

    fn from(misfit: Misfit) -> ValidateError {
        match misfit {
            Misfit::MissingOutput { var } => ValidateError::MissingOutput { var },
            Misfit::StrangeOutput { var } => ValidateError::StrangeOutput { var },
            Misfit::StrangeInput { var } => ValidateError::StrangeInput { var },
            Misfit::Reads { var, other } => ValidateError::Reads {
                var,
                universal: other,
            },
            Misfit::NoMemory => ValidateError::NoMemory,
        }
    }
}
