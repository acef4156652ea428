//! `solve`: IN is simplified into OUT and LOG, what is left is searched, and for a true formula circuits of IN go into CERT.
//! The work is done in memory: the text of the log is held there, checked, and then written. Everything below it is used by its
//! public contracts alone.
#![tactic(auto)]

mod command;
mod concluding;
mod laws;
mod leaving;
mod names;
mod reducing;
mod solve;
mod solved;

pub use command::run;
pub use laws::statuses_are_exact;
pub use names::SolveNames;
pub use solve::solve_files;
pub use solved::Solved;
