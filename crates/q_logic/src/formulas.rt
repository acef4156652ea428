// A closed prenex formula: a flat prefix, and clauses in literal order.
ghost use Rattle.std.specs.Prelude.{◌≡◌, ◌<◌, length, slice_get};
ghost use Rattle.q_logic.specs.Literals.{IsBelow};
ghost use Rattle.q_logic.specs.Parts.{AreLawful, ArePairs, IsProper, clauses_between};
ghost use Rattle.q_logic.specs.Steps.{Within};

use crate::clause_row::Clauses;
use crate::literals::Lit;
use std::marker::Model;

#[derive(Clone, Copy, Debug, PartialEq, Eq)]
pub enum Quant {
    Exists,
    Forall,
}

/// A variable with its quantifier.
#[derive(Clone, Copy, Debug, PartialEq, Eq)]
pub struct Bound {
    pub quant: Quant,
    pub var: u32,
}

/// A formula in prenex conjunctive normal form.
#[derive(Drop)]
pub struct Formula {
    prefix: Vec<Bound>,
    matrix: Clauses,
}

impl Model for Formula {
    ghost use Rattle.q_logic.specs.Formulas.{PrenexFormula};
    ghost use Rattle.q_logic.specs.Parts.{IsProper};

    ghost Value = { PrenexFormula };

    ghost view = { λ f. record { prefix = f.prefix.items; matrix = f.matrix } };

    ghost invariant = { λ f. IsProper (record { prefix = f.prefix.items; matrix = f.matrix }) };
}

impl Formula {
    /// The formula of a prefix and of clauses whose literals stand in one row; `ends` says where each clause ends. It takes
    /// no memory.
    pub fn from_parts(prefix: Vec<Bound>, lits: Vec<Lit>, ends: Vec<usize>) -> Formula
        requires { AreLawful prefix.items lits.items ends.items }
        ensures value { result ≡ record {
          prefix = prefix.items;
          matrix = clauses_between lits.items 0 ends.items;
        } }
        ensures proper { IsProper result }
    {
        let matrix = Clauses { lits, ends };
        Formula { prefix, matrix }
    }

    /// The quantified variables, from the outside in.
    pub fn prefix(&self) -> &[Bound]
        ensures value { result.now ≡ self.now.prefix }
        ensures proper { IsProper self.now }
    {
        &self.prefix
    }

    /// The number of clauses.
    pub fn clauses(&self) -> usize
        ensures value { result ≡ length self.now.matrix }
        ensures proper { IsProper self.now }
    {
        self.matrix.len()
    }

    /// The clause at a place.
    pub fn clause(&self, at: usize) -> &[Lit]
        requires { at < length self.now.matrix }
        ensures value { slice_get self.now.matrix at ≡ Some result.now }
        ensures ordered { ArePairs IsBelow result.now }
        ensures bound { Within self.now.prefix result.now }
    {
        self.matrix.clause(at)
    }
}
