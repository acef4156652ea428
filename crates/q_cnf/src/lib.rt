//! Clauses as a text without sets, as SAT solvers read them. The reader of formulas makes each of its variables an
//! existential, so it is a formula file too.
#![tactic(auto)]

mod laws;
mod writing;

pub use laws::cnf_is_read;
pub use writing::write_cnf;
