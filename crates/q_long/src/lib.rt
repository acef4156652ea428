//! Circuits from long-distance resolution, where a line may hold both signs of a variable of the owner: what such a line says of the
//! variable is a circuit, in which the pivots choose.
//!
//! `specs/Distant` has the proofs, as sets of literals, and what each line says; `specs/Valued` derivations whose lines give values;
//! `specs/Decided` the circuits of these.
#![tactic(auto)]

mod laws;

pub use laws::{
    long_refutations_give_herbrand, long_term_proofs_give_skolem, valued_derivations_decide,
    valued_derivations_win,
};
