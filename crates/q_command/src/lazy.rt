// Places for the checkers of a log. A checker stands in a row of at most one, so that who holds a place lets it go by one call.
ghost use Rattle.std.specs.Prelude.{◌≡◌, ◌<◌, ◌+◌, ◌^◌, false, None, IsSome, IsSomeAnd, is_some, OnOk, IfErr};
ghost use Rattle.q_judge.specs.declared.error.CheckError.TheVariants.{NoMemory as MemoryError};
ghost use Rattle.q_logic.specs.Prelude.{PrenexFormula};
ghost use Rattle.q_command.specs.LazyCheckers.{IsHeld, HasSteppedHinted, HasSteppedPlain, IsEndedHinted, IsEndedPlain, IsReadyHinted, IsReadyPlain, KeepsNoHinted, KeepsNone, hints_taken};

use crate::origin::Origin;
use q_check::{CheckError, Checker, HintChecker, Verified};
use q_logic::{Formula, Limits, Proof, Step};
use std::alloc::Global;
use std::marker::Model;

/// A place for the checker of plain steps.
#[derive(Drop)]
pub(crate) struct LazyChecker {
    row: Vec<Checker>,
}

impl Model for LazyChecker {
    ghost use Rattle.std.specs.Prelude.{Option};
    ghost use Rattle.q_check.specs.Checked.{Checked};
    ghost use Rattle.q_command.specs.LazyCheckers.{first_in};

    ghost Value = { Option Checked };

    ghost view = { λ s. first_in s.row.items };
}

impl LazyChecker {
    pub fn empty(alloc: Global) -> LazyChecker
        ensures { result ≡ None }
    {
        LazyChecker {
            row: Vec::new(alloc),
        }
    }

    /// Makes a checker where there is none.
    pub fn fill(
        &mut self,
        alloc: Global,
        origin: &Origin,
        keeps_undo: bool,
    ) -> Result<(), CheckError>
        ensures ready { OnOk result ((F : PrenexFormula) → IsHeld F origin.now →
            IsReadyPlain keeps_undo F self.old self.new) }
        ensures only_memory { IfErr result (λ e. e ≡ MemoryError) }
    {
        if !self.row.is_empty() {
            return Ok(());
        }
        let Some(formula) = origin.formula() else {
            return Err(CheckError::NoMemory);
        };
        self.row.reserve(1)?;
        let limits = Limits::standard();
        let checker = Checker::start(alloc, formula, limits, keeps_undo)?;
        self.row.push_reserved(checker);
        Ok(())
    }

    /// A step of the checker that is here, which judges it, or makes it alone.
    pub fn step(&mut self, step: &Step, judged: bool) -> Result<(), CheckError>
        requires there { IsSome self.old }
        requires free { judged ≡ false → KeepsNone self.old }
        ensures { HasSteppedPlain step.now judged result self.old self.new }
    {
        if judged {
            self.row[0].step(step)
        } else {
            self.row[0].pass(step)
        }
    }

    /// The end of the checker that is here.
    pub fn finish(mut self, output: &Formula) -> Result<Verified, CheckError>
        requires { IsSome self }
        ensures { IsSomeAnd self (IsEndedPlain output.now result) }
    {
        self.row.swap_remove(0).finish(output)
    }
}

/// A place for the checker of steps with proof parts.
#[derive(Drop)]
pub(crate) struct LazyHintChecker {
    row: Vec<HintChecker>,
}

impl Model for LazyHintChecker {
    ghost use Rattle.std.specs.Prelude.{Option};
    ghost use Rattle.q_check.specs.HintChecks.{HintChecked};
    ghost use Rattle.q_command.specs.LazyCheckers.{first_in};

    ghost Value = { Option HintChecked };

    ghost view = { λ s. first_in s.row.items };
}

impl LazyHintChecker {
    pub fn empty(alloc: Global) -> LazyHintChecker
        ensures { result ≡ None }
    {
        LazyHintChecker {
            row: Vec::new(alloc),
        }
    }

    /// Whether a checker is here.
    pub fn is_taken(&self) -> bool
        ensures { result ≡ is_some self.now }
    {
        !self.row.is_empty()
    }

    /// Makes a checker where there is none.
    pub fn fill(
        &mut self,
        alloc: Global,
        origin: &Origin,
        keeps_undo: bool,
    ) -> Result<(), CheckError>
        ensures ready { OnOk result ((F : PrenexFormula) → IsHeld F origin.now →
            IsReadyHinted keeps_undo F self.old self.new) }
        ensures only_memory { IfErr result (λ e. e ≡ MemoryError) }
    {
        if !self.row.is_empty() {
            return Ok(());
        }
        let Some(formula) = origin.formula() else {
            return Err(CheckError::NoMemory);
        };
        self.row.reserve(1)?;
        let limits = Limits::standard();
        let checker = HintChecker::start(alloc, formula, limits, keeps_undo)?;
        self.row.push_reserved(checker);
        Ok(())
    }

    /// A step of the checker that is here, which judges it by its hints, or makes it without a look at them.
    pub fn step(&mut self, step: &Step, proof: &Proof, judged: bool) -> Result<(), CheckError>
        requires there { IsSome self.old }
        requires free { judged ≡ false → KeepsNoHinted self.old }
        requires hints { hints_taken self.old < 2 ^ 61 }
        ensures stepped { HasSteppedHinted step.now proof.now judged result self.old self.new }
        ensures taken { OnOk result (hints_taken self.new ≡ hints_taken self.old + 1) }
    {
        if judged {
            self.row[0].step(step, proof)
        } else {
            self.row[0].pass(step, proof)
        }
    }

    /// The end of the checker that is here.
    pub fn finish(mut self, output: &Formula) -> Result<Verified, CheckError>
        requires { IsSome self }
        ensures { IsSomeAnd self (IsEndedHinted output.now result) }
    {
        self.row.swap_remove(0).finish(output)
    }
}
