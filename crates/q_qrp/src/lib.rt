//! The reader of resolution proofs in the text format QRP: the lines of a proof in their order, and the verdict, or the
//! first offence. `specs/Lines` has the grammar.
#![tactic(auto)]

mod builder;
mod error;
mod law;
mod reader;
mod trace;
mod words;

pub use error::{Cause, TraceError};
pub use law::grammar_is_read;
pub use reader::TraceReader;
pub use trace::{Antecedents, Row, Trace, Verdict};
