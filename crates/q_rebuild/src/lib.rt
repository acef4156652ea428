//! Circuits of a simplified formula, carried back to circuits of the formula before. (Heule, Seidl and Biere,
//! "Solution Validation and Extraction for QBF Preprocessing", Journal of Automated Reasoning 58, 2017.)
//!
//! `rebuild` tests the given circuits, copies the gates that they need and no others, and undoes the entries of the
//! undo list from the last to the first. `specs/Refusals` says which circuits are refused, `specs/Rebuilt` what comes
//! out: the values of `Back` on trees, lawful circuits, Skolem functions where the given ones are, and how many gates
//! there are at most. The work is linear in the undo list and in the gates.
#![tactic(auto)]

mod accepting;
mod carrying;
mod entries;
mod error;
mod laws;
mod whole;

pub use error::RebuildError;
pub use laws::{
    alike_circuits_are_accepted_alike, skolem_functions_are_accepted, undo_lists_take_back_alike,
};
pub use whole::rebuild;
