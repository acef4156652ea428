//! What the steps of a run leave, over which Herbrand functions are carried.
ghost use Rattle.std.specs.Prelude.{◌≡◌, map};

use q_logic::{Clauses, Lit, Lits};
use std::marker::Model;

/// What one step leaves.
#[derive(Drop)]
pub enum Reversal {
    /// A clause came by its pivot; the outer clauses are those of the clauses with the pivot's negation.
    Added { pivot: Lit, outer: Clauses },
    /// A universal literal left a clause by its pivot.
    Turned { pivot: Lit, outer: Clauses },
    /// A universal literal left a clause without inner existentials.
    Plain { pivot: Lit, same: Lits, inner: Lits },
    Fresh { var: u32 },
    Removed { var: u32 },
}

/// What the steps left, in their order.
#[derive(Drop)]
pub struct Reversals {
    entries: Vec<Reversal>,
}

impl Model for Reversals {
    ghost use Rattle.std.specs.Prelude.{List, map};
    ghost use Rattle.q_logic.specs.Reversals.{Reversal as Meaning};
    ghost use Rattle.q_herbrand.specs.Entries.{entry_of};

    ghost Value = { List Meaning };

    ghost view = { λ r. map entry_of r.entries.items };
}

impl Reversals {
    ghost use Rattle.q_herbrand.specs.Entries.{entry_of};

    pub fn from_entries(entries: Vec<Reversal>) -> Reversals
        ensures { result ≡ map entry_of entries.items }
    {
        Reversals { entries }
    }

    pub fn as_slice(&self) -> &[Reversal]
        ensures { map entry_of result.now ≡ self.now }
    {
        &self.entries
    }
}
