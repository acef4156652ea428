//! Laws on refutations with hints: steps that lead to the empty clause, each addition and each drop shown by its proof part. A deletion
//! needs no reason.
#![tactic(auto)]

mod laws;

pub use laws::{hinted_bad_causes_are_exact, hinted_refutations_refute, hinted_refuted_or_refused};
