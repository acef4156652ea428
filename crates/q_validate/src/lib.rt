//! Whether the circuits of a certificate are Skolem functions of a formula: after the tests of q_certificate, a search for
//! values of the inputs under which some clause is false (`node`), by what is known of gates while some inputs have no
//! value. One pass over the gates tells many nodes at once (`below`): the 63 of a subtree (`words`), or those to which
//! zeros lead (`line`). `specs/Answers` says what an answer means.
#![tactic(auto)]

mod below;
mod error;
mod known;
mod line;
mod node;
mod validating;
mod words;

pub use error::ValidateError;
pub use validating::{Answer, validate};
