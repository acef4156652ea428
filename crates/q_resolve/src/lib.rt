//! The judge of resolution proofs.
#![tactic(auto)]

mod cone;
mod fault;
mod finding;
mod judged;
mod judging;
mod leaves;
mod lines;
mod marked;
mod reducing;
mod resolving;
mod saying;
mod seats;
mod tests;

pub use judged::Judged;
pub use judging::{certify, refute};
