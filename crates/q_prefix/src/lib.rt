//! The prefix of a formula, as a flat list of variables with their quantifiers.
#![tactic(auto)]

mod blocks;
mod marks;
mod prefix;

pub use prefix::{Prefix, greatest_of};
