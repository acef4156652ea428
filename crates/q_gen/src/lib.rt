//! Random formulas, the same at each call: a formula is determined by its seed and its size.
#![tactic(auto)]

mod clauses;
mod formula;
mod laws;
mod output;
mod prefix;

pub use formula::generate;
pub use laws::generated_is_read;
pub use output::write_generated;
