//! The command `validate IN CERT`: whether the circuits of CERT are Skolem functions of the formula of IN.
//! `specs/Validates` says what an outcome says of the files and when each status comes, `specs/ValidatedLines` what is
//! put, and `run` all that the command does. No file changes.
#![tactic(auto)]

mod command;
mod names;
mod text;
mod validated;
mod validating;

pub use command::run;
pub use names::ValidateNames;
pub use validated::Validated;
pub use validating::validate_files;
