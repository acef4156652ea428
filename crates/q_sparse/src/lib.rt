//! Rows by number, as a `Vec` is one, that touch memory only where something was written.
#![tactic(auto)]

mod sparse;

pub use sparse::{Filling, Sparse, filling_of};
