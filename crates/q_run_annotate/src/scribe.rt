// The text of a part of a log with hints, made in memory step by step: each step of the part is tried once, and shown by its
// proof part. The others are made, so that clauses have the numbers of the whole log.
ghost use Rattle.std.specs.Prelude.{◌≡◌, ◌≤◌, ◌<◌, ◌^◌, true, false, IfOk, IfErr, OnOk, IsErrOf};
ghost use Rattle.q_logic.specs.Prelude.{plain};
ghost use Rattle.q_command.specs.Checks.{IsUnverified};
ghost use Rattle.q_command.specs.Parts.{share_of};
ghost use Rattle.q_run_annotate.specs.AnnotatedShares.{header_in};
ghost use Rattle.q_run_annotate.specs.Readings.{IsBegun, IsUnderWay, Goes, Convicts, EndsAs, IsEndOutcome, turn};

use crate::boxed::BoxedAnnotator;
use q_check::CheckError;
use q_command::{Outcome, Part, step_refusal};
use q_hinted::{push_header, push_hinted};
use q_logic::{Formula, NoMemory, Step};
use std::alloc::Global;

// More clauses have no place in memory.
const MOST: u64 = 1 << 60;

/// The annotator behind the steps so far, the lines of the part's own with proof parts, and how many these are.
#[derive(Drop)]
pub(crate) struct Scribe {
    part: Part,
    annotator: BoxedAnnotator,
    written: u64,
    text: Vec<u8>,
}

/// The text of a part of a log with hints, and the number of its steps.
#[derive(Drop)]
pub(crate) struct HintedText {
    pub steps: u64,
    pub text: Vec<u8>,
}

// The header, where the part has the first step.
fn first_line(alloc: Global, part: Part) -> Result<Vec<u8>, NoMemory>
    ensures { IfOk result (λ t. t.items ≡ header_in (share_of part)) }
{
    let mut text = Vec::new(alloc);
    if part.judges(0) {
        push_header(&mut text)?;
    }
    Ok(text)
}

impl Scribe {
    /// The header is put where it is due, and no step.
    pub fn start(alloc: Global, formula: &Formula, part: Part) -> Result<Scribe, NoMemory>
        ensures { IfOk result (IsBegun formula.now part) }
    {
        if formula.clauses() as u64 >= MOST {
            return Err(NoMemory);
        }
        let text = first_line(alloc, part)?;
        match BoxedAnnotator::start(alloc, formula) {
            Ok(annotator) => Ok(Scribe {
                part,
                annotator,
                written: 0,
                text,
            }),
            Err(NoMemory) => Err(NoMemory),
        }
    }

    /// Takes a step: shows it where it is of the part, and else makes it.
    pub fn take(&mut self, line: u64, step: &Step) -> Result<(), Outcome>
        requires under_way { IsUnderWay self.old.annotator }
        requires few { self.old.annotator.steps < 2 ^ 60 }
        requires fewer { self.old.written ≤ self.old.annotator.steps }
        ensures goes { OnOk result (Goes step.now self.old self.new) }
        ensures refused { IfErr result (λ o.
            Convicts (turn self.old) o (plain self.old.annotator.formula) (line, step.now)) }
        ensures unverified { IfErr result IsUnverified }
        ensures fault { IsErrOf result Outcome.ReadFault → ⊥ }
    {
        if self.part.judges(self.annotator.steps()) {
            self.show(line, step)
        } else {
            self.pass(line, step)
        }
    }

    // Takes a step if it is valid, and puts its line with the proof part that shows it.
    fn show(&mut self, line: u64, step: &Step) -> Result<(), Outcome>
        requires turn { turn self.old ≡ true }
        requires under_way { IsUnderWay self.old.annotator }
        requires few { self.old.annotator.steps < 2 ^ 60 }
        requires fewer { self.old.written ≤ self.old.annotator.steps }
        ensures goes { OnOk result (Goes step.now self.old self.new) }
        ensures refused { IfErr result (λ o.
            Convicts (turn self.old) o (plain self.old.annotator.formula) (line, step.now)) }
        ensures unverified { IfErr result IsUnverified }
        ensures fault { IsErrOf result Outcome.ReadFault → ⊥ }
    {
        match self.annotator.step(step) {
            Ok(proof) => match push_hinted(&mut self.text, step, &proof) {
                Ok(()) => {
                    self.written += 1;
                    Ok(())
                }
                Err(NoMemory) => Err(Outcome::NoMemory),
            },
            Err(error) => Err(step_refusal(line, error)),
        }
    }

    // Makes a step of another part.
    fn pass(&mut self, line: u64, step: &Step) -> Result<(), Outcome>
        requires turn { turn self.old ≡ false }
        requires under_way { IsUnderWay self.old.annotator }
        requires few { self.old.annotator.steps < 2 ^ 60 }
        ensures goes { OnOk result (Goes step.now self.old self.new) }
        ensures refused { IfErr result (λ o.
            Convicts (turn self.old) o (plain self.old.annotator.formula) (line, step.now)) }
        ensures unverified { IfErr result IsUnverified }
        ensures fault { IsErrOf result Outcome.ReadFault → ⊥ }
    {
        match self.annotator.pass(step) {
            Ok(()) => Ok(()),
            Err(unfit) => Err(step_refusal(line, unfit)),
        }
    }

    /// The text, where the steps lead to the output.
    pub fn finish(self, output: &Formula) -> Result<HintedText, Outcome>
        ensures ended { IfOk result (λ t. EndsAs self output.now t) }
        ensures refused { IfErr result (λ o.
            IsEndOutcome o (plain self.annotator.formula) output.now) }
        ensures unverified { IfErr result IsUnverified }
        ensures fault { IsErrOf result Outcome.ReadFault → ⊥ }
    {
        let Scribe {
            part: _,
            annotator,
            written,
            text,
        } = self;
        match annotator.finish(output) {
            Ok(()) => Ok(HintedText {
                steps: written,
                text,
            }),
            Err(CheckError::Refused { cause }) => Err(Outcome::RefusedEnd { cause }),
            Err(CheckError::NoMemory) => Err(Outcome::NoMemory),
        }
    }
}
