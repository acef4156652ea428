//! What may go wrong while a row is played. Each error of the crates below becomes one of these, so that rows use `?`.
use q_check::CheckError;
use q_io::DeviceError;
use q_logic::NoMemory as MemoryMissing;
use std::alloc::{AllocError, AllocFailed};

/// Why a row does not pass.
#[derive(Drop)]
pub enum Trouble {
    /// What came is not what the row wants.
    Differs { wanted: String, got: String },
    /// The row says what nobody can read.
    Unreadable(&'static str),
    /// Memory was wanted and not given.
    NoMemory,
}

impl From<MemoryMissing> for Trouble {
    fn from(_: MemoryMissing) -> Trouble {
        Trouble::NoMemory
    }
}

impl From<AllocError> for Trouble {
    fn from(_: AllocError) -> Trouble {
        Trouble::NoMemory
    }
}

impl<T: Drop> From<AllocFailed<T>> for Trouble {
    fn from(_: AllocFailed<T>) -> Trouble {
        Trouble::NoMemory
    }
}

impl From<CheckError> for Trouble {
    fn from(error: CheckError) -> Trouble {
        match error {
            CheckError::Refused { .. } => Trouble::Unreadable("a step that may be taken"),
            CheckError::NoMemory => Trouble::NoMemory,
        }
    }
}

impl From<DeviceError> for Trouble {
    fn from(error: DeviceError) -> Trouble {
        match error {
            DeviceError::Failed => Trouble::Unreadable("a device that does not fail"),
            DeviceError::NoMemory => Trouble::NoMemory,
        }
    }
}
