//! All rules as one: what a target of any rule is, how it is tested, taken and searched, and when nothing applies; a drive
//! that asks guides which target is next, and searches the rules once no guide is left; and an alarm, for which a search gives way.
#![tactic(auto)]

mod alarm;
mod ascending;
mod asking;
mod drive;
mod fewest;
mod guide;
mod looking;
mod moves;
mod rounds;
mod searches;
mod searching;
mod shortest;
mod turns;

pub use alarm::{Alarm, Never};
pub use drive::Drive;
pub use fewest::FewestFirst;
pub use guide::{Guide, Proposal};
pub use looking::Look;
pub use moves::{GROUPS, Group, Move, RULE_NAMES, RULES};
pub use q_kernel::Taken;
pub use q_logic::Bounds;
pub use searches::Searches;
pub use shortest::ShortestFirst;
pub use turns::Turn;
