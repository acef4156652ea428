// Who judges the steps of a proof: where hints count, the first step tells, and until then the formula waits.
ghost use Rattle.std.specs.Prelude.{◌≡◌, ◌<◌, ◌^◌, true, false, is_some, IfOk, IfErr, OnOk};
ghost use Rattle.q_refutation.specs.Refutations.{IsLost};
ghost use Rattle.q_run_disprove.specs.HintedReadings.{IsHintUnderWay};
ghost use Rattle.q_run_disprove.specs.Judges.{EndsBy, FailsAt, FailsHinted, GoesOn, HasHinted, IsJudging, IsOpenedAs, Loses, Opened, steps_in};
ghost use Rattle.q_run_disprove.specs.Readings.{IsReady, TellsAtOnce};

use crate::disproved::Disproved;
use crate::hint_refuter::HintRefuter;
use crate::refuter::Refuter;
use crate::verdict::Verdict;
use q_command::Part;
use q_logic::{Formula, NoMemory, Proof, Step};
use std::alloc::Global;

/// The judge of the steps so far.
#[derive(Drop)]
pub(crate) enum Judge {
    /// There is no step yet, and the empty clause is not in the formula.
    Open {
        alloc: Global,
        formula: Formula,
        part: Part,
    },
    /// Steps are judged as if they had no proof parts.
    Plain {
        refuter: Refuter,
    },
    /// Steps are judged by their proof parts.
    Hinted {
        refuter: HintRefuter,
    },
}

fn plain_judge(alloc: Global, formula: &Formula, part: Part) -> Result<Judge, Verdict>
    ensures opened { IfOk result (IsOpenedAs false formula.now part) }
    ensures lost { IfErr result (TellsAtOnce false formula.now) }
    ensures ready { IfErr result IsReady }
    ensures fault { IfErr result (λ v. v.outcome ≡ Disproved.ReadFault → ⊥) }
{
    match Refuter::open(alloc, formula, part) {
        Ok(refuter) => Ok(Judge::Plain { refuter }),
        Err(verdict) => Err(verdict),
    }
}

fn hinted_judge(alloc: Global, formula: &Formula, part: Part) -> Result<Judge, Verdict>
    requires { ¬ IsLost formula.now }
    ensures opened { IfOk result (IsOpenedAs true formula.now part) }
    ensures lost { IfErr result (TellsAtOnce false formula.now) }
    ensures ready { IfErr result IsReady }
    ensures fault { IfErr result (λ v. v.outcome ≡ Disproved.ReadFault → ⊥) }
{
    let _ = part;
    match HintRefuter::start(alloc, formula) {
        Ok(refuter) => Ok(Judge::Hinted { refuter }),
        Err(NoMemory) => Err(Verdict::of(Disproved::NoMemory)),
    }
}

// A judge of steps with proof parts, or of those without.
fn opened_judge(
    alloc: Global,
    formula: &Formula,
    part: Part,
    hinted: bool,
) -> Result<Judge, Verdict>
    requires { ¬ IsLost formula.now }
    ensures opened { IfOk result (IsOpenedAs hinted formula.now part) }
    ensures lost { IfErr result (TellsAtOnce false formula.now) }
    ensures ready { IfErr result IsReady }
    ensures fault { IfErr result (λ v. v.outcome ≡ Disproved.ReadFault → ⊥) }
{
    if hinted {
        hinted_judge(alloc, formula, part)
    } else {
        plain_judge(alloc, formula, part)
    }
}

// A log has hints at all its steps or at none, so that each has one.
fn take_hinted(
    refuter: &mut HintRefuter,
    line: u64,
    step: &Step,
    proof: &Option<Proof>,
) -> Result<(), Verdict>
    requires under_way { IsHintUnderWay refuter.old }
    requires few { refuter.old.steps < 2 ^ 61 }
    ensures goes { OnOk result (HasHinted (line, step.now, proof.now) refuter.old refuter.new) }
    ensures convicts { IfErr result (λ v. FailsHinted v (line, step.now, proof.now) refuter.old) }
    ensures ready { IfErr result IsReady }
    ensures fault { IfErr result (λ v. v.outcome ≡ Disproved.ReadFault → ⊥) }
{
    let Some(proof) = proof else {
        return Err(Verdict::of(Disproved::NoMemory));
    };
    match refuter.take(line, step, proof) {
        Ok(()) => Ok(()),
        Err(outcome) => Err(Verdict::of(outcome)),
    }
}

impl Judge {
    // Tells by a step whether proof parts are there, where nothing was told.
    fn open(&mut self, hinted: bool) -> Result<(), Verdict>
        requires { IsJudging self.old }
        ensures opened { OnOk result (Opened hinted self.old self.new) }
        ensures lost { IfErr result (Loses self.old) }
        ensures ready { IfErr result IsReady }
        ensures fault { IfErr result (λ v. v.outcome ≡ Disproved.ReadFault → ⊥) }
    {
        let Judge::Open {
            alloc,
            formula,
            part,
        } = self
        else {
            return Ok(());
        };
        match opened_judge(*alloc, formula, *part, hinted) {
            Ok(judge) => {
                *self = judge;
                Ok(())
            }
            Err(verdict) => Err(verdict),
        }
    }

    /// Makes a step if it may be made, and goes on if the empty clause is not there then.
    pub fn take(&mut self, line: u64, step: &Step, proof: &Option<Proof>) -> Result<(), Verdict>
        requires judging { IsJudging self.old }
        requires few { steps_in self.old < 2 ^ 61 }
        ensures goes { OnOk result (GoesOn (line, step.now, proof.now) self.old self.new) }
        ensures fails { IfErr result (λ v. FailsAt v (line, step.now, proof.now) self.old) }
        ensures ready { IfErr result IsReady }
        ensures fault { IfErr result (λ v. v.outcome ≡ Disproved.ReadFault → ⊥) }
    {
        if let Err(verdict) = self.open(proof.is_some()) {
            return Err(verdict);
        }
        match self {
            Judge::Open { .. } => Err(Verdict::of(Disproved::NoMemory)),
            Judge::Plain { refuter } => refuter.take(line, step),
            Judge::Hinted { refuter } => take_hinted(refuter, line, step, proof),
        }
    }

    /// What there is to say where no step follows.
    pub fn stop(&mut self, outcome: Disproved) -> Verdict
        requires { IsJudging self.old }
        ensures ends { EndsBy outcome result self.old }
        ensures ready { IsReady result }
        ensures fault { result.outcome ≡ Disproved.ReadFault → outcome ≡ Disproved.ReadFault }
    {
        match self.open(false) {
            Ok(()) => Verdict::of(outcome),
            Err(verdict) => verdict,
        }
    }
}
