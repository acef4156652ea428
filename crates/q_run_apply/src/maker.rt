// The steps of a log, made one after the other without being judged.
ghost use Rattle.std.specs.Prelude.{◌≡◌, ◌<◌, ◌-◌, ◌^◌, IfOk, IfErr, OnOk, IsErrOf};
ghost use Rattle.q_run_apply.specs.Readings.{Convicts, Goes, IsBegun, IsRefusal, IsUnderWay, step_refused};

use crate::applied::Applied;
use crate::boxed::BoxedChecker;
use q_check::CheckError;
use q_logic::{Formula, NoMemory, Step};
use std::alloc::Global;

/// The formula behind the steps so far, and the number of these.
#[derive(Drop)]
pub(crate) struct Maker {
    checker: BoxedChecker,
    steps: u64,
}

fn step_refusal(line: u64, error: CheckError) -> Applied
    ensures is { result ≡ step_refused line error }
    ensures refusal { IsRefusal result }
    ensures fault { result ≡ Applied.ReadFault → ⊥ }
{
    match error {
        CheckError::Refused { cause } => Applied::RefusedLine { line, cause },
        CheckError::NoMemory => Applied::NoMemory,
    }
}

impl Maker {
    /// Begins with the formula.
    pub fn start(alloc: Global, formula: &Formula) -> Result<Maker, NoMemory>
        ensures { IfOk result (IsBegun formula.now) }
    {
        match BoxedChecker::start(alloc, formula) {
            Ok(checker) => Ok(Maker { checker, steps: 0 }),
            Err(NoMemory) => Err(NoMemory),
        }
    }

    /// Makes a step if it can be made.
    pub fn take(&mut self, line: u64, step: &Step) -> Result<(), Applied>
        requires under_way { IsUnderWay self.old }
        requires few { self.old.steps < 2 ^ 64 - 1 }
        ensures goes { OnOk result (Goes step.now self.old self.new) }
        ensures convicts { IfErr result (λ o.
            Convicts o self.old.checker.formula (line, step.now)) }
        ensures refusal { IfErr result IsRefusal }
        ensures fault { IsErrOf result Applied.ReadFault → ⊥ }
    {
        match self.checker.pass(step) {
            Ok(()) => {
                self.steps += 1;
                Ok(())
            }
            Err(error) => Err(step_refusal(line, error)),
        }
    }

    /// How many steps are made.
    pub fn steps(&self) -> u64
        ensures { result ≡ self.now.steps }
    {
        self.steps
    }

    /// The formula behind them.
    pub fn formula(&self, alloc: Global) -> Result<Formula, NoMemory>
        ensures formula { IfOk result (λ f. f ≡ self.now.checker.formula) }
    {
        self.checker.formula(alloc)
    }
}
