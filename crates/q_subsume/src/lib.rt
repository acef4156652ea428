//! Clauses within other clauses: subsumption, and strengthening by a clause of which one literal is turned.
#![tactic(auto)]

mod dispatch;
mod find;
mod rules;
mod search;
mod strengthen;
mod subsumed;
mod target;

pub use q_kernel::Taken;
pub use q_logic::Bounds;
pub use search::Search;
pub use target::Target;
