//! Gates in any order are brought into an order in which operands come first; where there is no such order, the first gate
//! that depends on itself is named.
#![tactic(auto)]

mod components;
mod cycles;
mod gate;
mod levels;
mod parts;
mod sorting;

pub use gate::{Gate, Operand, Source};
pub use sorting::{Sorted, sort_gates};
