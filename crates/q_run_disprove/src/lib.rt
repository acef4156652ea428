//! The command `disprove IN PROOF`: whether PROOF refutes the formula of IN. PROOF is a log of steps, a log with hints, or a proof as SAT
//! solvers write it, as text or in binary. A deletion needs no reason, and nothing behind the empty clause is looked at.
//!
//! `specs/Disproofs` says what an outcome says of steps without hints, `specs/HintedDisproofs` of those with hints and of the files, and
//! when each status comes; `specs/DisprovedLines` what is put. The first step tells who judges (`judge`). No file changes. Many can share a proof (`part`, `specs/SharedDisproofs`): each makes all steps and judges those of its own blocks.
//!
//! `disprove IN PROOF CERT` writes Herbrand circuits of the formula as well (`certifying`, `specs/Certifying`): while the proof is judged
//! notes are kept, and CERT is created once the empty clause is there.
#![tactic(auto)]

mod boxed;
mod certified;
mod certifying;
mod command;
mod disproved;
mod disproving;
mod form;
mod hint_refuter;
mod judge;
mod laws;
mod names;
mod notes;
mod part;
mod reading;
mod refuter;
mod verdict;

pub use certified::Certified;
pub use certifying::certify_files;
pub use command::{run, run_certified};
pub use disproved::Disproved;
pub use disproving::disprove_files;
pub use laws::{
    hinted_disproofs_are_disproofs, least_refusals_of_parts_are_those_of_disprove,
    verified_parts_disprove,
};
pub use names::{CertifyNames, DisproveNames};
pub use part::{disprove_part, run_part};
