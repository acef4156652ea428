//! Equivalent literals: one takes the place of the other (`merge.rt`).
#![tactic(auto)]

mod bridge;
mod components;
mod find;
mod joined;
mod level_row;
mod levels;
mod merge;
mod numbers;
mod proposing;
mod renaming;
mod room;
mod rules;
mod search;
mod target;

pub use proposing::candidates;
pub use q_kernel::Taken;
pub use q_logic::Bounds;
pub use search::Search;
pub use target::Target;
