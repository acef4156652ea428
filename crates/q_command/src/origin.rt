// The formula that a log begins with. Once a checker has it, it is held on demand alone.
ghost use Rattle.std.specs.Prelude.{◌≡◌, None, Some, IfOk, MatchOption};
ghost use Rattle.q_logic.specs.Prelude.{PrenexFormula};
ghost use Rattle.q_command.specs.LazyCheckers.{IsHeld};

use q_logic::{Formula, NoMemory};
use std::alloc::Global;
use std::marker::Model;

/// A place for the formula: a row of at most one.
#[derive(Drop)]
pub(crate) struct Origin {
    row: Vec<Formula>,
    keeps: bool,
}

impl Model for Origin {
    ghost use Rattle.std.specs.Prelude.{Option};
    ghost use Rattle.q_logic.specs.Prelude.{PrenexFormula};
    ghost use Rattle.q_command.specs.LazyCheckers.{first_in};

    ghost Value = { Option PrenexFormula };

    ghost view = { λ o. first_in o.row.items };
}

impl Origin {
    pub fn new(alloc: Global, formula: Formula, keeps: bool) -> Result<Origin, NoMemory>
        ensures { IfOk result (λ o. o ≡ Some formula) }
    {
        let mut row = Vec::new(alloc);
        row.push(formula)?;
        Ok(Origin { row, keeps })
    }

    pub fn formula(&self) -> Option<&Formula>
        ensures { MatchOption result (self.now ≡ None) (λ f. self.now ≡ Some f.now) }
    {
        self.row.first()
    }

    /// Lets the formula go, unless it is held on demand.
    pub fn release(&mut self)
        ensures { (F : PrenexFormula) → IsHeld F self.old → IsHeld F self.new }
    {
        if !self.keeps {
            self.row.clear();
        }
    }

    pub fn into_formula(mut self) -> Option<Formula>
        ensures { result ≡ self }
    {
        if self.row.is_empty() {
            return None;
        }
        Some(self.row.swap_remove(0))
    }
}
