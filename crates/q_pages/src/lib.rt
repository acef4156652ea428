//! Rows by number that take memory only where something was written.
#![tactic(auto)]

mod by_number;
mod pages;
mod table;

pub use by_number::ByNumber;
pub use pages::Pages;
pub use table::PageTable;
