//! What judges a step: a prefix with the ranks of its blocks, pivots, outer clauses, reach, and clauses by slots. Each
//! test answers exactly where the rule of the log's format holds; who takes the steps stands above.
#![tactic(auto)]

mod binding_row;
mod bindings;
mod blocking;
mod checks;
mod error;
mod evident;
mod kept_walks;
mod labels;
mod ledger;
mod links;
mod pivots;
mod reach;
mod recent;
mod regions;
mod scope;
mod undo;
mod view;

pub use checks::{
    binds_all, compare, first_lit, has_room, is_absent, load_clause, load_rest, slot_of, sum_of,
    takes_fresh,
};
pub use error::{Cause, CheckError};
pub use ledger::Ledger;
pub use pivots::{Buffers, Candidate, Question, Warrant, push_outer, resolves, warrant_of};
pub use reach::reduces;
pub use recent::RecentRegions;
pub use scope::Scope;
pub use undo::{Undo, Undos, collect_outers, fresh_entry, kept_pivot, pivot_entry, removed_entry};
pub use view::View;
