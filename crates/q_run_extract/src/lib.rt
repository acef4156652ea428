//! The command `extract IN TRACE CERT`: circuits of the formula of IN from a solver's resolution proof in TRACE, Skolem
//! functions where it proves the formula true and Herbrand functions where it proves it false. Nothing of the solver is
//! believed: circuits are written exactly where the trace is a proof. Nothing is created before all refusals.
//!
//! `specs/Extracts` says what an outcome means over the files, and when each status comes.
#![tactic(auto)]

mod command;
mod extract;
mod extracted;
mod names;
mod trace_file;

pub use command::run;
pub use extract::extract_files;
pub use extracted::Extracted;
pub use names::ExtractNames;
pub use trace_file::{TraceFault, read_trace};
