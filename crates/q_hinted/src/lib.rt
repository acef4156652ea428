//! Logs of either profile: a reader that hands out each step, in the second profile with its proof
//! part, and the canonical text of steps with proof parts.
#![tactic(auto)]

mod builder;
mod law;
mod reader;
mod text;

pub use builder::Entry;
pub use law::{first_token_tells, hinted_grammar_is_read, hinted_texts_are_read};
pub use reader::BothReader;
pub use text::{push_header, push_hinted};
