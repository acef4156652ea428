//! Miters made of a formula and circuits: clauses that are false exactly where the circuits are Skolem functions of the
//! formula, or Herbrand functions. The circuits are copied over the inputs that their side has, without what no circuit
//! needs; each clause is in literal order. That the clauses keep the limits is known from sums before any is made.
//!
//! `specs/Encoded` says what a miter of given circuits is, `specs/Sums` when there is none.
#![tactic(auto)]

mod encoding;
mod error;
mod gates;
mod herbrand;
mod laws;
mod needed;
mod needless;
mod numbers;
mod rows;
mod side;
mod skolem;
mod sums;
mod translating;
mod turning;

pub use encoding::encode;
pub use error::EncodeError;
pub use laws::{miters_decide_given_circuits, small_miters_keep_limits};
pub use side::Side;
pub use sums::is_small;
pub use turning::turn;
