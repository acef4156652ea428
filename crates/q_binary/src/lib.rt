//! Binary proofs of SAT solvers, and proofs that are logs of either profile or binary. A step is handed out at the byte that ends it, so a proof may be
//! cut anywhere.
#![tactic(auto)]

mod builder;
mod form;
mod groups;
mod law;
mod reader;

pub use form::{Form, ProofReader};
pub use law::binary_proofs_are_read;
pub use reader::BinaryReader;
