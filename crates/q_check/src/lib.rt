//! The checker of proofs: each step is tried on the formula that the steps before it left.
#![tactic(auto)]

mod annotating;
mod annotator;
mod checker;
mod hint_checker;
mod hint_passing;
mod hint_tests;
mod hinted;
mod makes;
mod named;
mod named_makes;
mod named_passing;
mod numbered;
mod numbered_makes;
mod numbers;
mod passing;
mod rows;
mod showing;
mod tries;

pub use annotator::Annotator;
pub use checker::{Checker, Verified};
pub use hint_checker::HintChecker;
pub use numbered::NumberedBook;
pub use q_judge::{Cause, CheckError, Undo, Undos};
pub use q_logic::Clauses;
