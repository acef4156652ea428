//! A list of clauses in one row of literals.
ghost use Rattle.std.specs.Prelude.{◌≡◌, ◌≤◌, ◌<◌, ◌++◌, [], ◌∷◌, length, slice_get, slice_index, OnOk, OnErr, IfOk};
ghost use Rattle.q_logic.specs.Parts.{AreEnds, clauses_between, start_of};

use crate::literals::Lit;
use crate::memory::NoMemory;
use std::alloc::Global;
use std::marker::Model;

/// A list of clauses. The literals of all stand in one row, and `ends` says where each clause ends.
#[derive(Drop)]
pub struct Clauses {
    pub(crate) lits: Vec<Lit>,
    pub(crate) ends: Vec<usize>,
}

impl Model for Clauses {
    ghost use Rattle.std.specs.Prelude.{length, List};
    ghost use Rattle.q_logic.specs.Formulas.{Clause};
    ghost use Rattle.q_logic.specs.Parts.{AreEnds, clauses_between};

    ghost Value = { List Clause };

    ghost view = { λ c. clauses_between c.lits.items 0 c.ends.items };

    ghost invariant = { λ c. AreEnds 0 c.ends.items (length c.lits.items) };
}

impl Clauses {
    /// No clause. It takes no memory.
    pub fn new(alloc: Global) -> Clauses
        ensures { result ≡ [] }
    {
        Clauses {
            lits: Vec::new(alloc),
            ends: Vec::new(alloc),
        }
    }

    /// No clause, with room for so many clauses and literals.
    pub fn with_capacity(alloc: Global, clauses: usize, lits: usize) -> Result<Clauses, NoMemory>
        ensures { IfOk result (λ made. made ≡ []) }
    {
        let lits = Vec::with_capacity(alloc, lits)?;
        let ends = Vec::with_capacity(alloc, clauses)?;
        Ok(Clauses { lits, ends })
    }

    /// Gives the literals of all clauses and their ends back, without memory.
    pub fn into_parts(self) -> (Vec<Lit>, Vec<usize>)
        ensures ends { AreEnds 0 result.1.items (length result.0.items) }
        ensures clauses { clauses_between result.0.items 0 result.1.items ≡ self }
    {
        (self.lits, self.ends)
    }

    /// The number of clauses.
    pub fn len(&self) -> usize
        ensures { result ≡ length self.now }
    {
        self.ends.len()
    }

    /// The clause at a place.
    pub fn clause(&self, at: usize) -> &[Lit]
        requires { at < length self.now }
        ensures { slice_get self.now at ≡ Some result.now }
    {
        let (start, end) = bounds(&self.ends, self.lits.len(), at);
        &self.lits[start..end]
    }

    /// Puts a clause behind the others.
    #[inline(always)]
    pub fn push(&mut self, clause: &[Lit]) -> Result<(), NoMemory>
        ensures ok { OnOk result (self.new ≡ self.old ++ clause.now ∷ []) }
        ensures err { OnErr result (self.new ≡ self.old) }
    {
        let before = self.lits.len();
        self.lits.extend_from_slice(clause)?;
        let end = self.lits.len();
        if self.ends.push(end).is_err() {
            self.lits.truncate(before);
            return Err(NoMemory);
        }
        Ok(())
    }
}

// Where the clause at a place begins and ends.
fn bounds(ends: &[usize], lits: usize, at: usize) -> (usize, usize)
    requires ends { AreEnds 0 ends.now lits }
    requires at { at < length ends.now }
    ensures start { result.0 ≡ start_of 0 ends.now at }
    ensures end { result.1 ≡ slice_index ends.now at }
    ensures order { result.0 ≤ result.1 }
    ensures within { result.1 ≤ lits }
{
    let end = ends[at];
    if at == 0 {
        return (0, end);
    }
    (ends[at - 1], end)
}
