//! A node of the search: values for the first variables of a formula. What is said of it is told by counts of true
//! literals and of literals without a value, which change with each value that is given or taken back.
ghost use Rattle.std.specs.Prelude.{◌≡◌, ◌<◌, ◌++◌, ◌∷◌, [], length, IfOk, OnOk, OnErr, MatchOption};
ghost use Rattle.q_logic.specs.Prelude.{IsFormula};
ghost use Rattle.q_logic.specs.declared.verdict.Verdict.TheVariants.{Open};
ghost use Rattle.q_logic.specs.Decisions.{verdict as verdict_spec};
ghost use Rattle.q_solve.specs.Places.{unset, values, IsLast};

use crate::counts::Counts;
use crate::loading::load;
use crate::places::{known_open, known_value};
use crate::sides::{Sides, change};
use q_logic::{Bound, Formula, NoMemory, Verdict};
use std::alloc::Global;
use std::marker::Model;

/// A variable with its value, up to which so many variables stand in the prefix, itself included.
#[derive(Clone, Copy, Debug, PartialEq, Eq)]
pub struct Decision {
    pub bound: Bound,
    pub depth: usize,
    pub value: bool,
}

/// A node of the search in a formula. A clause sees the formula and the path.
#[derive(Drop)]
pub struct Node<'a> {
    formula: &'a Formula,
    sides: Sides,
    counts: Counts,
    path: Vec<bool>,
}

impl<'a> Model for Node<'a> {
    ghost use Rattle.q_solve.specs.Places.{Spot};
    ghost use Rattle.q_solve.specs.Counted.{IsCounted};

    ghost Value = { Spot };

    ghost view = { λ n. record { formula = n.formula.now; path = n.path.items } };

    ghost invariant = { λ n. IsCounted n.formula.now n.sides n.counts n.path.items };
}

impl<'a> Node<'a> {
    /// The node without values.
    pub fn start(alloc: Global, formula: &'a Formula) -> Result<Node<'a>, NoMemory>
        ensures value { IfOk result (λ n. n ≡ record { formula = formula.now; path = [] }) }
        ensures formula { IsFormula formula.now }
    {
        formula.prefix();
        let loaded = load(alloc, formula)?;
        Ok(Node {
            formula,
            sides: loaded.sides,
            counts: loaded.counts,
            path: Vec::new(alloc),
        })
    }

    /// What the clauses say of the node.
    pub fn look(&self) -> Verdict
        ensures value { result ≡ verdict_spec self.now.formula.matrix (unset self.now)
            (values self.now) }
        ensures open { result ≡ Open → length self.now.path < length self.now.formula.prefix }
    {
        self.counts.verdict()
    }

    /// Gives the next variable a value.
    pub fn give(&mut self, value: bool) -> Result<(), NoMemory>
        requires { length self.old.path < length self.old.formula.prefix }
        ensures ok { OnOk result (self.new ≡ record {
          formula = self.old.formula;
          path = self.old.path ++ value ∷ [];
        }) }
        ensures err { OnErr result (self.new ≡ self.old) }
    {
        let place = self.path.len();
        let open = known_open(self.formula.prefix()[place].quant);
        let given = known_value(value);
        self.path.push(value)?;
        change(&self.sides, &mut self.counts, place, open, given);
        Ok(())
    }

    /// Takes the last decision back.
    pub fn take_back(&mut self) -> Option<Decision>
        ensures { MatchOption result ((self.old.path ≡ []) × (self.new ≡ self.old))
            (λ d. IsLast self.old self.new d) }
    {
        let depth = self.path.len();
        let value = self.path.pop()?;
        let place = self.path.len();
        let bound = self.formula.prefix()[place];
        let given = known_value(value);
        let open = known_open(bound.quant);
        change(&self.sides, &mut self.counts, place, given, open);
        Some(Decision {
            bound,
            depth,
            value,
        })
    }
}
