// Lists of literals, and clauses as lists in literal order without repetitions.
ghost use Rattle.std.specs.Prelude.{◌≡◌, ◌↔◌, ◌++◌, List, [], ◌∷◌, length, OnOk, OnErr, IsTrue};
ghost use Rattle.q_logic.specs.Clauses.{clause_of};
ghost use Rattle.q_logic.specs.Formulas.{IsIn};
ghost use Rattle.q_logic.specs.Literals.{IsBelow};
ghost use Rattle.q_logic.specs.Parts.{ArePairs};
ghost use Rattle.q_logic.specs.Sets.{IsTautology};

use crate::literals::Lit;
use crate::memory::NoMemory;
use std::alloc::Global;
use std::marker::Model;

/// A list of literals.
#[derive(Drop)]
pub struct Lits {
    row: Vec<Lit>,
}

impl Model for Lits {
    ghost use Rattle.std.specs.Prelude.{List};
    ghost use Rattle.q_logic.specs.Literals.{Literal};

    ghost Value = { List Literal };

    ghost view = { λ l. l.row.items };
}

impl Lits {
    pub fn new(alloc: Global) -> Lits
        ensures { result ≡ [] }
    {
        Lits {
            row: Vec::new(alloc),
        }
    }

    /// Takes the literals over, without memory.
    pub fn from_vec(row: Vec<Lit>) -> Lits
        ensures { result ≡ row.items }
    {
        Lits { row }
    }

    /// Gives the literals back, without memory.
    pub fn into_vec(self) -> Vec<Lit>
        ensures { result.items ≡ self }
    {
        self.row
    }

    pub fn push(&mut self, lit: Lit) -> Result<(), NoMemory>
        ensures ok { OnOk result (self.new ≡ self.old ++ lit ∷ []) }
        ensures err { OnErr result (self.new ≡ self.old) }
    {
        self.row.push(lit)?;
        Ok(())
    }

    /// Keeps the memory for later literals.
    pub fn clear(&mut self)
        ensures { self.new ≡ [] }
    {
        self.row.clear();
    }

    pub fn as_slice(&self) -> &[Lit]
        ensures { result.now ≡ self.now }
    {
        &self.row
    }
}

/// Makes the literals a clause: brings them into literal order, each once.
#[inline(always)]
pub fn sort_clause(lits: &mut Vec<Lit>)
    ensures { lits.new.items ≡ clause_of lits.old.items }
{
    lits.sort_unstable();
    lits.dedup();
}

/// Whether the clause holds the literal.
pub fn holds(clause: &[Lit], lit: Lit) -> bool
    ensures { IsTrue result ↔ IsIn lit clause.now }
{
    for k in clause {
        if k.is(lit) {
            return true;
        }
    }
    false
}

/// Whether the clause holds a literal and its negation: these are neighbours.
pub fn is_tautology(clause: &[Lit]) -> bool
    requires { ArePairs IsBelow clause.now }
    ensures { IsTrue result ↔ IsTautology clause.now }
{
    for i in 1..clause.len() {
        if clause[i - 1].var() == clause[i].var() {
            return true;
        }
    }
    false
}
