//! The guide of `simplify`. It looks where something changed, so nearly every move is found without a pass over the formula
//! (`strategy.rt`). What it proposes is tested again before it is taken, so nothing rests on it but how fast a formula
//! becomes small.
#![tactic(auto)]

mod blocking;
mod clause_index;
mod covering;
mod cutting;
mod eliminating;
mod expanding;
mod fields;
mod grown;
mod impatient;
mod listed;
mod lists;
mod lits;
mod looks;
mod marked;
mod merging;
mod move_text;
mod parts;
mod plain;
mod span;
mod strategy;
mod subsuming;
mod touched;
mod unextended;
mod watch;

pub use impatient::Impatient;
pub use listed::{Listed, NoMoves};
pub use touched::Touched;
pub use unextended::Unextended;
pub use watch::{Pass, Quiet, Watch};
