//! The outside: stores of named files, and sinks for lines of text. Both are traits, with one set of
//! clauses for the real disk and standard output, for memory with planned faults, and for memory
//! that never fails.
#![tactic(auto)]

mod error;
mod files;
mod memory;
mod names;
mod real;
mod sinks;
mod steady;
mod whole;

pub use error::DeviceError;
pub use files::{Files, LAST_PLACE, PIECE, Sink};
pub use memory::{Call, Fault, MemFiles};
pub use real::{DiskFiles, StdSink};
pub use sinks::{MemSink, SteadySink};
pub use steady::SteadyFiles;
pub use whole::write_whole;
