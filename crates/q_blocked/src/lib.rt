//! Blocked and covered clauses, and universal literals on which a clause is blocked.
#![tactic(auto)]

mod apart;
mod asking;
mod blocked;
mod clashing;
mod couples;
mod cover;
mod covered;
mod covering;
mod dispatch;
mod find;
mod growth;
mod hidden;
mod needed;
mod nothing_hidden;
mod pairs;
mod plan;
mod progress;
mod replay;
mod room;
mod rules;
mod search;
mod target;
mod units;
mod watching;

pub use q_kernel::Taken;
pub use q_logic::Bounds;
pub use replay::Step;
pub use search::Search;
pub use target::Target;
