//! Circuits of what a resolution proof takes away: the drops as a program holds them, and the certificate that they give.
//!
//! `specs/Rows` says how drops are held, `specs/Built` what their circuits are.
#![tactic(auto)]

mod building;
mod drops;
mod extracting;
mod guards;
mod merging;
mod said;

pub use drops::{Drops, Fall, merge, no_drops, say, take_away};
pub use extracting::extract;
pub use said::{Merge, Said, Sayings};
