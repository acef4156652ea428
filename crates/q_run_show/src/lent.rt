// A place for the annotator, so that it is let go by one call, and how the empty clause is told: by the formula at the start, and then by
// the step that brings it. `q_run_annotate` and `q_run_disprove` have the like for themselves.
ghost use Rattle.std.specs.Prelude.{◌≡◌, ◌<◌, ◌+◌, ◌^◌, [], IsTrue, true, false, IfOk, IfErr, OnOk, OnErr};
ghost use Rattle.q_logic.specs.Prelude.{begun, plain, kind_of, HintedValid, hinted_after, standard, IsStep};
ghost use Rattle.q_logic.specs.declared.steps.Kind.TheVariants.{Delete};
ghost use Rattle.q_same_steps.specs.HintedMaking.{HintedApplies};
ghost use Rattle.q_check.specs.Annotations.{HasForm, implied_part};
ghost use Rattle.q_check.specs.Checked.{IsRefusal};
ghost use Rattle.q_check.specs.Replays.{IsNumberedStep, IsUnfitFor};
ghost use Rattle.q_refutation.specs.Refutations.{IsLost};
ghost use Rattle.q_run_disprove.specs.HintedReadings.{BringsEmpty};

use q_check::{Annotator, CheckError};
use q_logic::{Formula, Kind, Limits, NoMemory, Proof, Step};
use std::alloc::Global;
use std::marker::Model;

/// A place that holds an annotator.
#[derive(Drop)]
pub(crate) struct BoxedAnnotator {
    row: Vec<Annotator>,
}

impl Model for BoxedAnnotator {
    ghost use Rattle.std.specs.Prelude.{◌≡◌, length};
    ghost use Rattle.q_check.specs.Annotations.{Annotating};
    ghost use Rattle.q_run_annotate.specs.Boxed.{boxed};

    ghost Value = { Annotating };

    ghost view = { λ s. boxed s.row.items };

    ghost invariant = { λ s. length s.row.items ≡ 1 };
}

impl BoxedAnnotator {
    pub fn start(alloc: Global, formula: &Formula) -> Result<BoxedAnnotator, NoMemory>
        ensures started { IfOk result (λ s.
            s ≡ record { formula = begun formula.now; limits = standard; steps = 0 }) }
    {
        match Annotator::start(alloc, formula, Limits::standard()) {
            Ok(annotator) => placed(alloc, annotator),
            Err(_) => Err(NoMemory),
        }
    }

    /// The number of steps that were taken.
    pub fn steps(&self) -> u64
        ensures { result ≡ self.now.steps }
    {
        self.row[0].steps()
    }

    /// Takes the step if it is valid, and answers the proof part that shows it.
    pub fn step(&mut self, step: &Step) -> Result<Proof, CheckError>
        requires { self.old.steps < 2 ^ 61 }
        ensures shown { IfOk result (HintedValid self.old.limits self.old.formula step.now) }
        ensures after { IfOk result (λ t.
            self.new.formula ≡ hinted_after self.old.formula step.now t) }
        ensures form { IfOk result (HasForm step.now) }
        ensures limits { self.new.limits ≡ self.old.limits }
        ensures steps { OnOk result (self.new.steps ≡ self.old.steps + 1) }
        ensures refused { IfErr result
            (IsRefusal self.old.limits (plain self.old.formula) step.now) }
        ensures unchanged { OnErr result (self.new ≡ self.old) }
    {
        self.row[0].step(step)
    }

    /// Makes a deletion for whatever reason, and answers the proof part that names its clause.
    pub fn delete(&mut self, step: &Step) -> Result<Proof, CheckError>
        requires few { self.old.steps < 2 ^ 61 }
        requires deletion { kind_of step.now ≡ Delete }
        ensures named { IfOk result (HintedApplies self.old.limits self.old.formula step.now) }
        ensures after { IfOk result (λ t.
            self.new.formula ≡ hinted_after self.old.formula step.now t) }
        ensures form { IfOk result (λ t. t ≡ implied_part t.number []) }
        ensures limits { self.new.limits ≡ self.old.limits }
        ensures steps { OnOk result (self.new.steps ≡ self.old.steps + 1) }
        ensures refused { IfErr result
            (IsUnfitFor self.old.limits (plain self.old.formula) step.now) }
        ensures unchanged { OnErr result (self.new ≡ self.old) }
    {
        self.row[0].delete(step)
    }

    /// Makes the step if it can be made, and shows nothing.
    pub fn pass(&mut self, step: &Step) -> Result<(), CheckError>
        requires { self.old.steps < 2 ^ 61 }
        ensures made { OnOk result (IsNumberedStep self.old.limits self.old.formula step.now
            self.new.formula) }
        ensures limits { self.new.limits ≡ self.old.limits }
        ensures steps { OnOk result (self.new.steps ≡ self.old.steps + 1) }
        ensures refused { IfErr result
            (IsUnfitFor self.old.limits (plain self.old.formula) step.now) }
        ensures unchanged { OnErr result (self.new ≡ self.old) }
    {
        self.row[0].pass(step)
    }
}

// The annotator in a place of its own.
fn placed(alloc: Global, annotator: Annotator) -> Result<BoxedAnnotator, NoMemory>
    ensures { IfOk result (λ s. s ≡ annotator) }
{
    let mut row = Vec::new(alloc);
    row.push(annotator)?;
    Ok(BoxedAnnotator { row })
}

// Whether the step brings the empty clause, where it was not there: an addition of it, or a drop from a clause of one literal.
pub(crate) fn brings_empty(step: &Step) -> bool
    ensures yes { IsTrue result → BringsEmpty step.now }
    ensures no { result ≡ false → ¬ BringsEmpty step.now }
    ensures lawful { IsStep step.now }
{
    let lits = step.lits();
    match step.kind() {
        Kind::Add => lits.is_empty(),
        Kind::Drop => lits.len() == 1,
        Kind::Delete | Kind::Fresh | Kind::Remove => false,
    }
}

// Whether the empty clause is in the formula.
pub(crate) fn is_lost(formula: &Formula) -> bool
    ensures yes { IsTrue result → IsLost formula.now }
    ensures no { result ≡ false → ¬ IsLost formula.now }
{
    for at in 0..formula.clauses() {
        if formula.clause(at).is_empty() {
            return true;
        }
    }
    false
}
