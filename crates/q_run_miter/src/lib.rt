//! The command `miter IN CERT OUT`: OUT is a propositional formula that is false exactly where the circuits of CERT are
//! Skolem functions of the formula of IN, or Herbrand functions. So any SAT solver decides it, and its proof shows it.
//! `specs/Mitering` says what an outcome says of the files and when each status comes, `specs/MiteredLines` what is put.
//! OUT is created once all refusals are past.
#![tactic(auto)]

mod command;
mod mitered;
mod mitering;
mod names;

pub use command::run;
pub use mitered::Mitered;
pub use mitering::miter_files;
pub use names::MiterNames;
pub use q_encode::Side;
