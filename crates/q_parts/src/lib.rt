//! A check in parts, as laws over the bytes of files. Of the parts of `check --part` that refuse, the least line is that of `check`. A plain
//! log may be cut behind lines as well: where `check` says `verified` of each part, from the file before it to the one behind it, it says so
//! of the whole log. No code: each law is the contract of a function that does nothing.
#![tactic(auto)]

mod laws;

pub use laws::{
    checked_logs_have_checked_parts, checked_parts_are_checked, least_refusals_are_those_of_check,
    logs_are_joined, same_words_are_checked_alike,
};
