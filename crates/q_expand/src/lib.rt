//! The expansion of universal variables: where it applies, the search for such a variable, and its steps (`expand.rt` tells the idea).
#![tactic(auto)]

mod changing;
mod dependents;
mod dropping;
mod expand;
mod find;
mod ids;
mod ordering;
mod room;
mod rules;
mod search;
mod splitting;
mod target;

pub use q_kernel::Taken;
pub use q_logic::Bounds;
pub use search::Search;
pub use target::Target;
