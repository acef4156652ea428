// A matrix in the making: clauses are put one after the other, each is sorted first, as the canonical text has them.
ghost use Rattle.std.specs.Prelude.{◌≡◌, ◌++◌, ◌∷◌, [], OnOk};
ghost use Rattle.q_logic.specs.Prelude.{clause_of};

use q_logic::{Clauses, Lit, NoMemory, sort_clause};
use std::alloc::Global;
use std::marker::Model;

/// Clauses that are made one after the other, each of literals in any order.
#[derive(Drop)]
pub struct Rows {
    clauses: Clauses,
    clause: Vec<Lit>,
}

impl Model for Rows {
    ghost use Rattle.q_logic.specs.Prelude.{Matrix};

    ghost Value = { Matrix };

    ghost view = { λ r. r.clauses };
}

impl Rows {
    pub fn new(alloc: Global) -> Rows
        ensures { result ≡ [] }
    {
        Rows {
            clauses: Clauses::new(alloc),
            clause: Vec::new(alloc),
        }
    }

    /// Puts the clause of these literals behind the others.
    pub fn put(&mut self, lits: &[Lit]) -> Result<(), NoMemory>
        ensures { OnOk result (self.new ≡ self.old ++ clause_of lits.now ∷ []) }
    {
        self.clause.clear();
        self.clause.extend_from_slice(lits)?;
        sort_clause(&mut self.clause);
        self.clauses.push(&self.clause)?;
        Ok(())
    }

    pub fn finish(self) -> Clauses
        ensures { result ≡ self }
    {
        self.clauses
    }
}
