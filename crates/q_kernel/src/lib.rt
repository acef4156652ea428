//! The formula that is simplified and the log of its changes, in one: each change is a valid step, made
//! without memory after a reservation, and logged at once.
#![tactic(auto)]

mod holders;
mod ids;
mod joining;
mod journal;
mod kernel;
mod links;
mod need;
mod parts;
mod pending;
mod taken;
mod uses;
mod variables;

pub use holders::Holders;
pub use ids::Ids;
pub use journal::Touch;
pub use kernel::Kernel;
pub use need::Need;
pub use q_arena::ClauseId;
pub use q_logic::Bounds;
pub use taken::Taken;
