//! What circuits of a prefix have in common, whoever makes or takes them: tests of names, inputs and
//! readings, copies of the gates that outputs need, disjunctions and conjunctions of literals by their
//! circuits, inputs and names in the order of the prefix.
//!
//! `specs/Refusals` says which circuits fit a prefix and which refusal comes first, `specs/Standing` when a
//! row of literals stands for a strategy, `specs/Copied` and `specs/Growing` what a copy and a part cost.
#![tactic(auto)]

mod accepting;
mod by_variable;
mod copying;
mod error;
mod inputs;
mod laws;
mod making;
mod names;
mod narrowing;
mod parts;
mod peaks;
mod reads;
mod table;
mod tables;

pub use accepting::test;
pub use by_variable::circuits_of;
pub use copying::{copy_gates, mark_cones, place_outputs, translate};
pub use error::Misfit;
pub use laws::{
    alike_circuits_fit_alike, fitting_circuits_are_lawful, lawful_circuits_fit, misfits_do_not_fit,
};
pub use making::{name_outputs, open_inputs};
pub use narrowing::narrow;
pub use parts::{all_of, or, raise, some_of};
pub use table::{Table, look, put};
pub use tables::Tables;
