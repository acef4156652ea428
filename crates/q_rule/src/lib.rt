//! What every rule stands on: tests of clauses and variables, sets of literals as marks and a list, and how the
//! steps of a rule lead from a formula to the result of a target (`specs/Becoming.antt`, `proofs/`).
#![tactic(auto)]

mod clauses;
mod missing;
mod places;
mod queue;
mod room;
mod rules;
mod variables;

pub use clauses::only_literal;
pub use missing::first_missing;
pub use places::{is_at, skip_to};
pub use q_logic::is_tautology;
pub use queue::Queue;
pub use room::reserve_log;
pub use rules::Rules;
pub use variables::{clause_of, is_existential, is_inner, is_universal};
