//! Whether a formula is true, by a search that gives values to its variables in the order of the prefix; for a true
//! formula also circuits of its existentials. `q_logic`'s definition of the game says what is found and what it costs.
//! The path is a row of values, and the circuits are kept while nodes that are won are left.
#![tactic(auto)]

mod circuits;
mod climbing;
mod counts;
mod holders;
mod joining;
mod loading;
mod node;
mod picks;
mod places;
mod searching;
mod sides;
mod writing;

pub use searching::{Found, search};
