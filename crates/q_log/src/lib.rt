//! Logs of proof steps: a reader that hands out each step at the byte that ends it, and the
//! canonical text of steps.
#![tactic(auto)]

mod builder;
mod error;
mod law;
mod reader;
mod text;

pub use builder::StepBuilder;
pub use error::LogError;
pub use law::{
    grammar_is_read, log_refusals_are_least, runs_can_be_logged, sweeping_can_be_logged,
    targets_can_be_logged, texts_are_read,
};
pub use reader::LogReader;
pub use text::{push_step, step_len, write_head, write_shorter, write_step};
