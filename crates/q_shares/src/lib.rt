//! A log that many check, each a share of its steps: all make each step, and each judges those of its share.
//! No code: each law is the contract of a function that does nothing.
#![tactic(auto)]

mod laws;

pub use laws::{
    blocks_are_dealt, first_refusals_are_told, hinted_shares_make_runs, shares_make_runs,
};
