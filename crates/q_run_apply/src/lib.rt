//! The command `apply IN LOG OUT`: OUT gets the formula to which the steps of LOG lead from that of IN. No step is judged. LOG may break
//! off: what stands behind its last whole step is not looked at then.
//!
//! `specs/Applications` says what LOG's steps are, where it is refused, what an outcome says of the files and when each status comes;
//! `specs/AppliedLines` what is put. OUT is created when all steps are made.
#![tactic(auto)]

mod applied;
mod applying;
mod boxed;
mod command;
mod law;
mod maker;
mod names;
mod reading;

pub use applied::Applied;
pub use applying::apply_files;
pub use command::run;
pub use law::verified_logs_are_applied;
pub use names::ApplyNames;
