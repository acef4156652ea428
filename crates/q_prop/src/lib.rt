//! The checker's clause store: clauses in slots, and what unit propagation shows of them, by watched
//! literals, kept from call to call.
#![tactic(auto)]

mod buckets;
mod chain;
mod clauses;
mod glance;
mod holders;
mod level;
mod lists;
mod notes;
mod pairs;
mod places;
mod plain;
mod propagation;
mod propagator;
mod root;
mod rows;
mod spots;
mod store;
mod supports;
mod tails;
mod trail;
mod watched;
mod watches;

pub use store::Store;
pub use tails::Tails;
pub use trail::Trail;
