//! A formula goes into its file: the canonical text, in pieces, so that no more than one piece is held beside the formula.
#![tactic(auto)]

mod output;

pub use output::write_output;
