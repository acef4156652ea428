//! The top call: all that the program does, over files and a sink.
#![tactic(auto)]

mod disprove_words;
mod gen_file;
mod generated;
mod laws;
mod operands;
mod part_words;
mod rebuild;
mod rebuild_words;
mod rebuilt;
mod settings;
mod simplified;
mod simplify;
mod top;
mod words;

pub use generated::Generated;
pub use laws::{
    completeness, first_moves_make_first_moves, further, headline, simplified_is_verified,
};
pub use q_command::{Outcome, Role, Status};
pub use q_gen::generate;
pub use q_simplify::{Alarm, Never};
pub use rebuilt::Rebuilt;
pub use simplified::Simplified;
pub use top::{run, run_whole};
pub use words::{bounds_of, is_plain, seconds_of};
