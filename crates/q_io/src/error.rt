// The two ways in which a call on a device fails. Which name it was is told by the counts of faults, not here.
ghost use Rattle.std.specs.Prelude.{◌≡◌};

use q_logic::NoMemory;
use std::alloc::{AllocError, AllocFailed};
use thiserror::Error;

/// What goes wrong with a file or a sink.
#[derive(Clone, Copy, Debug, PartialEq, Eq, Error)]
pub enum DeviceError {
    #[error("the device failed")]
    Failed,
    #[error("no memory")]
    NoMemory,
}

impl From<AllocError> for DeviceError {
    ghost use Rattle.q_io.specs.declared.error.DeviceError.TheVariants.{NoMemory};

    ghost from_gives = { λ _ e. e ≡ NoMemory };

    fn from(_: AllocError) -> DeviceError {
        DeviceError::NoMemory
    }
}

impl<T: Drop> From<AllocFailed<T>> for DeviceError {
    ghost use Rattle.q_io.specs.declared.error.DeviceError.TheVariants.{NoMemory};

    ghost from_gives = { λ _ e. e ≡ NoMemory };

    fn from(_: AllocFailed<T>) -> DeviceError {
        DeviceError::NoMemory
    }
}

impl From<NoMemory> for DeviceError {
    ghost use Rattle.q_io.specs.declared.error.DeviceError.TheVariants.{NoMemory};

    ghost from_gives = { λ _ e. e ≡ NoMemory };

    fn from(_: NoMemory) -> DeviceError {
        DeviceError::NoMemory
    }
}
