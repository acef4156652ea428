//! Variable elimination by resolution (`eliminate.rt`).
#![tactic(auto)]

mod adding;
mod conditions;
mod counting;
mod early;
mod eliminate;
mod find;
mod plan;
mod removing;
mod resolving;
mod room;
mod rules;
mod search;
mod sides;
mod target;

pub use q_kernel::Taken;
pub use q_logic::Bounds;
pub use search::Search;
pub use target::Target;
