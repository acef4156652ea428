//! The command `refute`: the log is checked as by `check` and its steps are kept; where none of them is an extended
//! drop, the circuits of OUT are read and carried back to IN, and written. Nothing is created before all refusals.
//!
//! `specs/Refutes` says what an outcome means over the files, and when each status comes; `run` does all of it.
#![tactic(auto)]

mod command;
mod names;
mod refute;
mod refuted;
mod reversing;

pub use command::run;
pub use names::RefuteNames;
pub use refute::refute_files;
pub use refuted::Refuted;
