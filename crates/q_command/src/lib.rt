//! What all commands share: statuses and lines, the formulas, circuits and other texts of files, and the check of a log.
#![tactic(auto)]

mod audit;
mod checking;
mod circuits;
mod input;
mod judges;
mod laws;
mod lazy;
mod line;
mod names;
mod origin;
mod outcome;
mod part;
mod refusals;
mod status;
mod taken;
mod trial;
mod unfit;
mod whole_file;

pub use audit::Keep;
pub use checking::{Checked, Ends, check, check_part, read_ends, verify};
pub use circuits::{CircuitsError, read_circuits, write_circuits};
pub use input::{InputError, read_input};
pub use laws::verified_parts_verify;
pub use line::{Line, number_line, numbers_line, place, put, words_line};
pub use names::Names;
pub use outcome::{Outcome, Role};
pub use part::Part;
pub use q_io::PIECE;
pub use refusals::{log_refusal, step_refusal};
pub use status::Status;
pub use taken::TakenStep;
pub use unfit::Unfit;
pub use whole_file::read_whole;
