//! Two watched literals for each clause of a kernel that does not change.
#![tactic(auto)]

mod entry;
mod rows;
mod visit;
mod watches;

pub use entry::{Entry, Pair};
pub use rows::Rows;
pub use visit::{Gift, Visit};
pub use watches::Watches;
