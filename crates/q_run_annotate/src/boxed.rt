// A place for the annotator. It stands in a row of one, so that the place is let go by one call.
ghost use Rattle.std.specs.Prelude.{◌≡◌, ◌<◌, ◌+◌, ◌^◌, IfOk, IfErr, OnOk, OnErr};
ghost use Rattle.q_logic.specs.Prelude.{begun, plain, HintedValid, hinted_after, standard, SameFormula};
ghost use Rattle.q_check.specs.Annotations.{HasForm};
ghost use Rattle.q_check.specs.Checked.{IsRefusal};
ghost use Rattle.q_check.specs.Replays.{IsNumberedStep, IsUnfitFor};
ghost use Rattle.q_judge.specs.Tried.{IsEndRefusal};

use q_check::{Annotator, CheckError};
use q_logic::{Formula, Limits, NoMemory, Proof, Step};
use std::alloc::Global;
use std::marker::Model;

/// A place that holds an annotator.
#[derive(Drop)]
pub(crate) struct BoxedAnnotator {
    row: Vec<Annotator>,
}

impl Model for BoxedAnnotator {
    ghost use Rattle.std.specs.Prelude.{◌≡◌, length};
    ghost use Rattle.q_check.specs.Annotations.{Annotating};
    ghost use Rattle.q_run_annotate.specs.Boxed.{boxed};

    ghost Value = { Annotating };

    ghost view = { λ s. boxed s.row.items };

    ghost invariant = { λ s. length s.row.items ≡ 1 };
}

impl BoxedAnnotator {
    pub fn start(alloc: Global, formula: &Formula) -> Result<BoxedAnnotator, NoMemory>
        ensures started { IfOk result (λ s.
            s ≡ record { formula = begun formula.now; limits = standard; steps = 0 }) }
    {
        match Annotator::start(alloc, formula, Limits::standard()) {
            Ok(annotator) => placed(alloc, annotator),
            Err(_) => Err(NoMemory),
        }
    }

    /// The number of steps that were taken.
    pub fn steps(&self) -> u64
        ensures { result ≡ self.now.steps }
    {
        self.row[0].steps()
    }

    /// Takes the step if it is valid, and answers the proof part that shows it.
    pub fn step(&mut self, step: &Step) -> Result<Proof, CheckError>
        requires { self.old.steps < 2 ^ 61 }
        ensures shown { IfOk result (HintedValid self.old.limits self.old.formula step.now) }
        ensures after { IfOk result (λ t.
            self.new.formula ≡ hinted_after self.old.formula step.now t) }
        ensures form { IfOk result (HasForm step.now) }
        ensures limits { self.new.limits ≡ self.old.limits }
        ensures steps { OnOk result (self.new.steps ≡ self.old.steps + 1) }
        ensures refused { IfErr result
            (IsRefusal self.old.limits (plain self.old.formula) step.now) }
        ensures unchanged { OnErr result (self.new ≡ self.old) }
    {
        self.row[0].step(step)
    }

    /// Makes the step if it can be made, and shows nothing.
    pub fn pass(&mut self, step: &Step) -> Result<(), CheckError>
        requires { self.old.steps < 2 ^ 61 }
        ensures made { OnOk result (IsNumberedStep self.old.limits self.old.formula step.now
            self.new.formula) }
        ensures limits { self.new.limits ≡ self.old.limits }
        ensures steps { OnOk result (self.new.steps ≡ self.old.steps + 1) }
        ensures refused { IfErr result
            (IsUnfitFor self.old.limits (plain self.old.formula) step.now) }
        ensures unchanged { OnErr result (self.new ≡ self.old) }
    {
        self.row[0].pass(step)
    }

    /// Ends the check: blocks and clauses are those of the output, in any order.
    pub fn finish(self, output: &Formula) -> Result<(), CheckError>
        ensures same { OnOk result (SameFormula (plain self.formula) output.now) }
        ensures refused { IfErr result (IsEndRefusal (plain self.formula) output.now) }
    {
        let BoxedAnnotator { mut row } = self;
        match row.pop() {
            Some(annotator) => annotator.finish(output),
            None => Err(CheckError::NoMemory),
        }
    }
}

// The annotator in a place of its own.
fn placed(alloc: Global, annotator: Annotator) -> Result<BoxedAnnotator, NoMemory>
    ensures { IfOk result (λ s. s ≡ annotator) }
{
    let mut row = Vec::new(alloc);
    row.push(annotator)?;
    Ok(BoxedAnnotator { row })
}
