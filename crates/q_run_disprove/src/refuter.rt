// The steps of a proof, made one after the other until the empty clause is there; those of a part are judged.
ghost use Rattle.std.specs.Prelude.{◌≡◌, ◌⊎◌, ◌<◌, ◌-◌, ◌^◌, true, false, IsTrue, IfOk, IfErr, OnOk};
ghost use Rattle.q_logic.specs.Prelude.{AreAlike, after, standard};
ghost use Rattle.q_refutation.specs.Refutations.{IsLost, MayBeMade};
ghost use Rattle.q_refutation.specs.SharedRefutations.{MayBeTaken};
ghost use Rattle.q_command.specs.Parts.{IsWhole, share_of};
ghost use Rattle.q_run_disprove.specs.Readings.{Convicts, Goes, IsBadFor, IsBegun, IsNotTakenFor, IsReady, IsUnderWay, TellsAtOnce, counted, may_bring, step_refused};

use crate::boxed::BoxedChecker;
use crate::disproved::Disproved;
use crate::notes::Notes;
use crate::verdict::Verdict;
use q_check::CheckError;
use q_command::Part;
use q_logic::{Formula, Kind, Step};
use std::alloc::Global;
use std::mem::replace;

/// The formula behind the steps so far, among whose clauses the empty one is not; which steps are judged here, and the numbers of all
/// steps and of those that are of the part's own blocks; and what is kept of the steps for circuits.
#[derive(Drop)]
pub(crate) struct Refuter {
    checker: BoxedChecker,
    part: Part,
    steps: u64,
    own: u64,
    notes: Notes,
}

pub(crate) fn step_refusal(line: u64, error: CheckError) -> Disproved
    ensures { result ≡ step_refused line error }
{
    match error {
        CheckError::Refused { cause } => Disproved::RefusedLine { line, cause },
        CheckError::NoMemory => Disproved::NoMemory,
    }
}

// Whether the empty clause is there behind a step of this kind, before which it was not there. Only an addition or a drop brings it.
fn has_come(checker: &BoxedChecker, kind: Kind) -> bool
    ensures yes { IsTrue result → IsLost checker.now.formula }
    ensures no { result ≡ false → (may_bring kind ≡ false) ⊎ ¬ IsLost checker.now.formula }
{
    match kind {
        Kind::Add | Kind::Drop => checker.has_empty(),
        Kind::Delete | Kind::Fresh | Kind::Remove => false,
    }
}

// Makes a step if it may be made; a deletion needs no reason. After an error the formula is as before.
fn make(checker: &mut BoxedChecker, step: &Step) -> Result<(), CheckError>
    requires limits { checker.old.limits ≡ standard }
    requires keeps { checker.old.keeps ≡ false }
    ensures may { OnOk result (MayBeMade false standard checker.old.formula step.now) }
    ensures after { OnOk result (AreAlike (after checker.old.formula step.now) checker.new.formula) }
    ensures limits { checker.new.limits ≡ standard }
    ensures keeps { checker.new.keeps ≡ false }
    ensures refused { IfErr result (IsBadFor checker.old.formula step.now) }
{
    match step.kind() {
        Kind::Delete => checker.pass(step),
        _ => checker.step(step),
    }
}

// Makes a step, and judges it if it is one of the part's own. After an error the formula is as before.
fn make_or_pass(checker: &mut BoxedChecker, step: &Step, own: bool) -> Result<(), CheckError>
    requires limits { checker.old.limits ≡ standard }
    requires keeps { checker.old.keeps ≡ false }
    ensures may { OnOk result (MayBeTaken own standard checker.old.formula step.now) }
    ensures after { OnOk result (AreAlike (after checker.old.formula step.now) checker.new.formula) }
    ensures limits { checker.new.limits ≡ standard }
    ensures keeps { checker.new.keeps ≡ false }
    ensures refused { IfErr result (IsNotTakenFor own checker.old.formula step.now) }
{
    if own {
        make(checker, step)
    } else {
        checker.pass(step)
    }
}

fn one_more_if(own: bool, count: u64) -> u64
    requires { count < 2 ^ 64 - 1 }
    ensures { result ≡ counted own count }
{
    if own { count + 1 } else { count }
}

impl Refuter {
    /// Begins with the formula, unless the empty clause is in it. Steps of the part are judged, and notes are kept where they are wanted.
    pub fn start(
        alloc: Global,
        formula: Formula,
        keeps: bool,
        part: Part,
    ) -> Result<Refuter, Verdict>
        requires { keeps ≡ true → IsWhole (share_of part) }
        ensures begun { IfOk result (IsBegun keeps part formula) }
        ensures lost { IfErr result (TellsAtOnce keeps formula) }
        ensures ready { IfErr result IsReady }
        ensures fault { IfErr result (λ v. v.outcome ≡ Disproved.ReadFault → ⊥) }
    {
        let Ok(checker) = BoxedChecker::start(alloc, &formula) else {
            return Err(Verdict::of(Disproved::NoMemory));
        };
        let Ok(notes) = Notes::start(alloc, formula, keeps) else {
            return Err(Verdict::of(Disproved::NoMemory));
        };
        if checker.has_empty() {
            return Err(Verdict {
                outcome: Disproved::False { steps: 0 },
                notes,
            });
        }
        Ok(Refuter {
            checker,
            part,
            steps: 0,
            own: 0,
            notes,
        })
    }

    /// Begins with the formula, unless the empty clause is in it. Steps of the part are judged, and no notes are kept.
    pub fn open(alloc: Global, formula: &Formula, part: Part) -> Result<Refuter, Verdict>
        ensures begun { IfOk result (IsBegun false part formula.now) }
        ensures lost { IfErr result (TellsAtOnce false formula.now) }
        ensures ready { IfErr result IsReady }
        ensures fault { IfErr result (λ v. v.outcome ≡ Disproved.ReadFault → ⊥) }
    {
        let Ok(checker) = BoxedChecker::start(alloc, formula) else {
            return Err(Verdict::of(Disproved::NoMemory));
        };
        if checker.has_empty() {
            return Err(Verdict::of(Disproved::False { steps: 0 }));
        }
        Ok(Refuter {
            checker,
            part,
            steps: 0,
            own: 0,
            notes: Notes::Unkept,
        })
    }

    // What there is to say where the empty clause has come.
    fn found(&mut self) -> Verdict
        ensures { result ≡ record { outcome = Disproved.False self.old.own; notes = self.old.notes } }
    {
        Verdict {
            outcome: Disproved::False { steps: self.own },
            notes: replace(&mut self.notes, Notes::Unkept),
        }
    }

    /// Makes a step if it may be made, and goes on if the empty clause is not there then.
    pub fn take(&mut self, line: u64, step: &Step) -> Result<(), Verdict>
        requires under_way { IsUnderWay self.old }
        requires few { self.old.steps < 2 ^ 64 - 1 }
        ensures goes { OnOk result (Goes line step.now self.old self.new) }
        ensures convicts { IfErr result (λ v.
            Convicts v self.old (line, step.now)) }
        ensures ready { IfErr result IsReady }
        ensures fault { IfErr result (λ v. v.outcome ≡ Disproved.ReadFault → ⊥) }
    {
        let own = self.part.judges(self.steps);
        if let Err(error) = make_or_pass(&mut self.checker, step, own) {
            return Err(Verdict::of(step_refusal(line, error)));
        }
        if let Err(_) = self.notes.note(line, step) {
            return Err(Verdict::of(Disproved::NoMemory));
        }
        self.steps += 1;
        self.own = one_more_if(own, self.own);
        if has_come(&self.checker, step.kind()) {
            return Err(self.found());
        }
        Ok(())
    }
}
