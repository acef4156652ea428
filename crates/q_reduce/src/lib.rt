//! The plain rules: tautologies, unit clauses, universal reduction and pure literals.
#![tactic(auto)]

mod ancestors;
mod cut;
mod dispatch;
mod find;
mod forest;
mod forests;
mod joining;
mod lists;
mod paths;
mod place;
mod pure;
mod reach;
mod recent;
mod regions;
mod rules;
mod search;
mod sides;
mod target;
mod tautology;
mod unit;

pub use q_kernel::Taken;
pub use q_logic::Bounds;
pub use search::Search;
pub use target::Target;
