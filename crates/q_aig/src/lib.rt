//! And-inverter graphs: circuits with shared gates, their values and the inputs that they read.
#![tactic(auto)]

mod aig;
mod certificate;
mod cones;
mod folding;
mod literals;
mod output;
mod values;

pub use aig::Aig;
pub use certificate::Certificate;
pub use literals::{Node, constant, negate};
pub use output::Output;
