//! Searches that give values to the variables of a prefix in its order, over any data structure that tells what is said
//! of a node (`Position`). The path is the row of values: 0 is always tried first, so a 1 on it is the second try.
//! There is no recursion, and what is found and what it costs is told by the game's definition in q_logic.
#![tactic(auto)]

mod budget;
mod place_table;
mod walking;

pub use budget::pay;
pub use place_table::PlaceTable;
pub use walking::{Ending, Position, decide, find_lost};
