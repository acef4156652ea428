// The steps of a log with hints, made one after the other until the empty clause is there. Each is judged by its proof part alone; a deletion
// is made, since its clause has to be there and nothing more.
ghost use Rattle.std.specs.Prelude.{◌≡◌, ◌<◌, ◌+◌, ◌^◌, false, IsTrue, IfOk, IfErr, OnOk, IsErrOf};
ghost use Rattle.q_logic.specs.Prelude.{hinted_after, standard};
ghost use Rattle.q_refutation.specs.Refutations.{IsLost};
ghost use Rattle.q_shown.specs.HintedRefutations.{HintedMayBeMade};
ghost use Rattle.q_run_disprove.specs.HintedReadings.{BringsEmpty, HintConvicts, HintGoes, IsHintBegun, IsHintUnderWay, IsHintedBadFor};

use crate::boxed::BoxedHintChecker;
use crate::disproved::Disproved;
use crate::refuter::step_refusal;
use q_check::CheckError;
use q_logic::{Formula, Kind, NoMemory, Proof, Step};
use std::alloc::Global;

/// The numbered formula behind the steps so far, among whose clauses the empty one is not, and how many they are.
#[derive(Drop)]
pub(crate) struct HintRefuter {
    checker: BoxedHintChecker,
    steps: u64,
}

// Whether the step brings the empty clause, where it was not there: an addition of it, or a drop from a clause of one literal.
fn brings_empty(step: &Step) -> bool
    ensures yes { IsTrue result → BringsEmpty step.now }
    ensures no { result ≡ false → ¬ BringsEmpty step.now }
{
    match step.kind() {
        Kind::Add => step.lits().is_empty(),
        Kind::Drop => step.lits().len() == 1,
        Kind::Delete | Kind::Fresh | Kind::Remove => false,
    }
}

// Makes a step if it may be made; a deletion needs no reason. After an error the formula is as before.
fn make(checker: &mut BoxedHintChecker, step: &Step, proof: &Proof) -> Result<(), CheckError>
    requires limits { checker.old.limits ≡ standard }
    requires keeps { checker.old.keeps ≡ false }
    requires count { checker.old.steps < 2 ^ 61 }
    ensures may { OnOk result (HintedMayBeMade standard checker.old.formula step.now proof.now) }
    ensures after { OnOk result (checker.new.formula ≡ hinted_after checker.old.formula step.now
        proof.now) }
    ensures limits { checker.new.limits ≡ standard }
    ensures keeps { checker.new.keeps ≡ false }
    ensures steps { OnOk result (checker.new.steps ≡ checker.old.steps + 1) }
    ensures refused { IfErr result (IsHintedBadFor checker.old.formula step.now proof.now) }
{
    match step.kind() {
        Kind::Delete => checker.pass(step, proof),
        _ => checker.step(step, proof),
    }
}

impl HintRefuter {
    /// Begins with the formula.
    pub fn start(alloc: Global, formula: &Formula) -> Result<HintRefuter, NoMemory>
        requires { ¬ IsLost formula.now }
        ensures { IfOk result (IsHintBegun formula.now) }
    {
        match BoxedHintChecker::start(alloc, formula) {
            Ok(checker) => Ok(HintRefuter { checker, steps: 0 }),
            Err(NoMemory) => Err(NoMemory),
        }
    }

    /// Makes a step if it may be made, and goes on if the empty clause is not there then.
    pub fn take(&mut self, line: u64, step: &Step, proof: &Proof) -> Result<(), Disproved>
        requires under_way { IsHintUnderWay self.old }
        requires few { self.old.steps < 2 ^ 61 }
        ensures goes { OnOk result (HintGoes step.now proof.now self.old self.new) }
        ensures convicts { IfErr result (λ o. HintConvicts o self.old (line, step.now) proof.now) }
        ensures fault { IsErrOf result Disproved.ReadFault → ⊥ }
    {
        if let Err(error) = make(&mut self.checker, step, proof) {
            return Err(step_refusal(line, error));
        }
        self.steps += 1;
        if brings_empty(step) {
            return Err(Disproved::False { steps: self.steps });
        }
        Ok(())
    }
}
