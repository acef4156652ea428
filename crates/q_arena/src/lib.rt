//! Clauses in one row of words, shortened in place and slid down over dead words; and lists of places,
//! linked by index.
#![tactic(auto)]

mod arena;
mod ids;
mod rings;
mod slots;

pub use arena::{Arena, ClauseId};
pub use rings::Rings;
