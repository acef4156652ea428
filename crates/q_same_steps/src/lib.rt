//! Formulas with the same blocks and the same clauses, however these stand, have the same steps. So runs follow one another, and are cut.
//! No code: each law is the contract of a function that does nothing.
#![tactic(auto)]

mod laws;

pub use laws::{
    parts_make_runs, runs_have_parts, same_formulas_have_the_same_steps, valid_steps_are_made,
};
