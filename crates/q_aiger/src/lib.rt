//! Circuits as text, in the format ASCII AIGER: an exact reader, and the canonical text.
#![tactic(auto)]

mod body;
mod cones;
mod error;
mod header;
mod items;
mod laws;
mod lines;
mod making;
mod operands;
mod reader;
mod symbols;
mod writer;

pub use error::{AigerError, Cause};
pub use laws::{
    an_offence_leaves_no_circuits, grammar_is_read, one_text_has_one_meaning, written_is_read,
};
pub use reader::read;
pub use writer::write;
