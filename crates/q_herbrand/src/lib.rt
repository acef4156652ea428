//! Herbrand functions of a simplified false formula, carried back to Herbrand functions of the formula before.
//!
//! `Trail` notes what the steps of a log leave, each over the formula that the steps before it made.
//! `refute` tests the given circuits, copies the gates that they need, and takes the reversals from the last to the first.
//! `disprove` needs no circuits: where the steps lead to the empty clause, each universal is 0 there.
//! `specs/Trails` says what is noted, `specs/Refusals` which circuits are refused, `specs/Refuted` and `specs/Disproved` what comes out.
#![tactic(auto)]

mod building;
mod carrying;
mod disproving;
mod drafting;
mod drops;
mod entries;
mod error;
mod exchanging;
mod inputs;
mod laws;
mod nodes;
mod reversal;
mod settling;
mod slots;
mod steps;
mod trail;
mod whole;
mod zeros;

pub use disproving::disprove;
pub use error::{HerbrandError, TrailError};
pub use laws::{
    alike_circuits_are_accepted_alike, herbrand_functions_are_accepted,
    refused_circuits_are_not_accepted,
};
pub use reversal::{Reversal, Reversals};
pub use trail::Trail;
pub use whole::refute;
