//! What is refused, in the words of the formats: the first offence of a text, told by its tokens and the table of causes, apart from what
//! reads it. No code: each law is the contract of a function that does nothing.
#![tactic(auto)]

mod laws;

pub use laws::{
    circuit_offences_are_first, circuits_or_offences, formula_offences_are_first,
    formulas_or_offences, hinted_log_offences_are_first, log_offences_are_first,
    rows_stop_formulas,
};
