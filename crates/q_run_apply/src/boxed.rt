// A place for the checker. It stands in a row of one, so that the place is let go by one call.
ghost use Rattle.std.specs.Prelude.{◌≡◌, false, IfOk, IfErr, OnOk, OnErr};
ghost use Rattle.q_logic.specs.Prelude.{AreAlike, after, standard};
ghost use Rattle.q_same_steps.specs.Making.{Applies};
ghost use Rattle.q_check.specs.Replays.{IsUnfitFor};

use q_check::{CheckError, Checker};
use q_logic::{Formula, Limits, NoMemory, Step};
use std::alloc::Global;
use std::marker::Model;

/// A place that holds a checker.
#[derive(Drop)]
pub(crate) struct BoxedChecker {
    row: Vec<Checker>,
}

impl Model for BoxedChecker {
    ghost use Rattle.std.specs.Prelude.{◌≡◌, length};
    ghost use Rattle.q_check.specs.Checked.{Checked};
    ghost use Rattle.q_run_apply.specs.Boxed.{boxed};

    ghost Value = { Checked };

    ghost view = { λ s. boxed s.row.items };

    ghost invariant = { λ s. length s.row.items ≡ 1 };
}

impl BoxedChecker {
    /// Begins with the formula. Nothing can be undone.
    pub fn start(alloc: Global, formula: &Formula) -> Result<BoxedChecker, NoMemory>
        ensures started { IfOk result (λ c. AreAlike formula.now c.formula × (c.limits ≡ standard)
            × (c.keeps ≡ false)) }
    {
        match Checker::start(alloc, formula, Limits::standard(), false) {
            Ok(checker) => placed(alloc, checker),
            Err(_) => Err(NoMemory),
        }
    }

    /// Makes the step if it can be made, without judging it.
    pub fn pass(&mut self, step: &Step) -> Result<(), CheckError>
        requires { self.old.keeps ≡ false }
        ensures fit { OnOk result (Applies self.old.limits self.old.formula step.now) }
        ensures after { OnOk result (AreAlike (after self.old.formula step.now) self.new.formula) }
        ensures kept { (self.new.limits ≡ self.old.limits) × (self.new.keeps ≡ self.old.keeps)
            × (self.new.undo ≡ self.old.undo) }
        ensures refused { IfErr result (IsUnfitFor self.old.limits self.old.formula step.now) }
        ensures unchanged { OnErr result (self.new ≡ self.old) }
    {
        self.row[0].pass(step)
    }

    /// The formula now: the prefix as it stands, and the clauses in some order.
    pub fn formula(&self, alloc: Global) -> Result<Formula, NoMemory>
        ensures { IfOk result (λ f. f ≡ self.now.formula) }
    {
        self.row[0].formula(alloc)
    }
}

// The checker in a place of its own.
fn placed(alloc: Global, checker: Checker) -> Result<BoxedChecker, NoMemory>
    ensures { IfOk result (λ c. c ≡ checker) }
{
    let mut row = Vec::new(alloc);
    row.push(checker)?;
    Ok(BoxedChecker { row })
}
