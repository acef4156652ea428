// The text of a part of a proof with hints, made in memory step by step, up to the empty clause. Each step of the part is shown by its proof
// part; that of a deletion names its clause alone. The other steps are made, so that clauses have the numbers of the whole proof.
ghost use Rattle.std.specs.Prelude.{◌≡◌, ◌<◌, ◌+◌, ◌^◌, true, false, IfOk, IfErr, OnOk, IsErrOf};
ghost use Rattle.q_logic.specs.Prelude.{begun, hinted_after, kind_of, plain, standard};
ghost use Rattle.q_hinted.specs.Parts.{IsPartOf};
ghost use Rattle.q_shown.specs.HintedRefutations.{HintedMayBeMade};
ghost use Rattle.q_command.specs.Parts.{share_of};
ghost use Rattle.q_run_annotate.specs.AnnotatedShares.{header_in};
ghost use Rattle.q_run_annotate.specs.Readings.{IsUnderWay as Annotates};
ghost use Rattle.q_run_disprove.specs.Readings.{IsBadFor};
ghost use Rattle.q_run_show.specs.Readings.{AreNamed, Convicts, EndsAt, EndsAtOnce, EndsWith, Goes, IsBegun, IsFault, IsUnderWay, Takes, turn};

use crate::ending::{Ending, HintedText};
use crate::lent::{BoxedAnnotator, brings_empty, is_lost};
use q_check::CheckError;
use q_command::{Outcome, Part, step_refusal};
use q_hinted::{push_header, push_hinted};
use q_logic::{Formula, Kind, NoMemory, Proof, Step};
use std::alloc::Global;
use std::mem::replace;

// More clauses have no place in memory.
const MOST: u64 = 1 << 60;

/// The annotator behind the steps so far, among whose clauses the empty one is not, the lines of the part's own with proof parts, and how
/// many these are.
#[derive(Drop)]
pub(crate) struct Scribe {
    alloc: Global,
    part: Part,
    annotator: BoxedAnnotator,
    written: u64,
    text: Vec<u8>,
}

// The header, where the part has the first step.
fn first_line(alloc: Global, part: Part) -> Result<Vec<u8>, NoMemory>
    ensures { IfOk result (λ t. t.items ≡ header_in (share_of part)) }
{
    let mut text = Vec::new(alloc);
    if part.judges(0) {
        push_header(&mut text)?;
    }
    Ok(text)
}

// Makes a step if it may be made, and answers its proof part; a deletion needs no reason.
fn show_step(annotator: &mut BoxedAnnotator, step: &Step) -> Result<Proof, CheckError>
    requires under_way { Annotates annotator.old }
    requires few { annotator.old.steps < 2 ^ 60 }
    ensures may { IfOk result (HintedMayBeMade standard annotator.old.formula step.now) }
    ensures part { IfOk result (IsPartOf (kind_of step.now)) }
    ensures after { IfOk result (λ t. annotator.new.formula ≡ hinted_after annotator.old.formula step.now
        t) }
    ensures limits { OnOk result (annotator.new.limits ≡ annotator.old.limits) }
    ensures steps { OnOk result (annotator.new.steps ≡ annotator.old.steps + 1) }
    ensures refused { IfErr result (IsBadFor (plain annotator.old.formula) step.now) }
{
    match step.kind() {
        Kind::Delete => annotator.delete(step),
        _ => annotator.step(step),
    }
}

// The annotator of no step.
fn annotator_of(alloc: Global, formula: &Formula) -> Result<BoxedAnnotator, NoMemory>
    ensures begun { IfOk result (λ a.
        a ≡ record { formula = begun formula.now; limits = standard; steps = 0 }) }
    ensures under_way { IfOk result Annotates }
    ensures named { IfOk result (λ a. AreNamed a.formula.prefix) }
{
    if formula.clauses() as u64 >= MOST {
        return Err(NoMemory);
    }
    BoxedAnnotator::start(alloc, formula)
}

impl Scribe {
    /// Begins with the formula, unless the empty clause is in it. The header is put where it is due.
    pub fn start(alloc: Global, formula: &Formula, part: Part) -> Result<Scribe, Ending>
        ensures begun { IfOk result (IsBegun formula.now part) }
        ensures lost { IfErr result (EndsAtOnce (share_of part) formula.now) }
    {
        let Ok(text) = first_line(alloc, part) else {
            return Err(Ending::Refused {
                why: Outcome::NoMemory,
            });
        };
        if is_lost(formula) {
            let hinted = HintedText { steps: 0, text };
            return Err(Ending::Shown { hinted });
        }
        match annotator_of(alloc, formula) {
            Ok(annotator) => Ok(Scribe {
                alloc,
                part,
                annotator,
                written: 0,
                text,
            }),
            Err(NoMemory) => Err(Ending::Refused {
                why: Outcome::NoMemory,
            }),
        }
    }

    /// Takes a step: shows it where it is of the part, and else makes it. It goes on if the empty clause is not there then.
    pub fn take(&mut self, line: u64, step: &Step) -> Result<(), Ending>
        requires under_way { IsUnderWay self.old }
        requires few { self.old.annotator.steps < 2 ^ 60 }
        ensures goes { OnOk result (Goes step.now self.old self.new) }
        ensures ends { IfErr result (λ e. EndsAt e self.old (line, step.now)) }
        ensures fault { IfErr result (λ e. IsFault e → ⊥) }
    {
        if let Err(why) = self.make(line, step) {
            return Err(Ending::Refused { why });
        }
        if brings_empty(step) {
            return Err(self.found());
        }
        Ok(())
    }

    fn make(&mut self, line: u64, step: &Step) -> Result<(), Outcome>
        requires under_way { IsUnderWay self.old }
        requires few { self.old.annotator.steps < 2 ^ 60 }
        ensures takes { OnOk result (Takes step.now self.old self.new) }
        ensures refused { IfErr result (λ o.
            Convicts (turn self.old) o (plain self.old.annotator.formula) (line, step.now)) }
        ensures fault { IsErrOf result Outcome.ReadFault → ⊥ }
    {
        if self.part.judges(self.annotator.steps()) {
            self.show(line, step)
        } else {
            self.pass(line, step)
        }
    }

    // Makes a step of the part, and puts its line with its proof part.
    fn show(&mut self, line: u64, step: &Step) -> Result<(), Outcome>
        requires turn { turn self.old ≡ true }
        requires under_way { IsUnderWay self.old }
        requires few { self.old.annotator.steps < 2 ^ 60 }
        ensures takes { OnOk result (Takes step.now self.old self.new) }
        ensures refused { IfErr result (λ o.
            Convicts (turn self.old) o (plain self.old.annotator.formula) (line, step.now)) }
        ensures fault { IsErrOf result Outcome.ReadFault → ⊥ }
    {
        match show_step(&mut self.annotator, step) {
            Ok(proof) => match push_hinted(&mut self.text, step, &proof) {
                Ok(()) => {
                    self.written += 1;
                    Ok(())
                }
                Err(NoMemory) => Err(Outcome::NoMemory),
            },
            Err(error) => Err(step_refusal(line, error)),
        }
    }

    // Makes a step of another part.
    fn pass(&mut self, line: u64, step: &Step) -> Result<(), Outcome>
        requires turn { turn self.old ≡ false }
        requires under_way { IsUnderWay self.old }
        requires few { self.old.annotator.steps < 2 ^ 60 }
        ensures takes { OnOk result (Takes step.now self.old self.new) }
        ensures refused { IfErr result (λ o.
            Convicts (turn self.old) o (plain self.old.annotator.formula) (line, step.now)) }
        ensures fault { IsErrOf result Outcome.ReadFault → ⊥ }
    {
        match self.annotator.pass(step) {
            Ok(()) => Ok(()),
            Err(unfit) => Err(step_refusal(line, unfit)),
        }
    }

    // What there is to say where the empty clause has come.
    fn found(&mut self) -> Ending
        ensures { EndsWith self.old result }
    {
        Ending::Shown {
            hinted: HintedText {
                steps: self.written,
                text: replace(&mut self.text, Vec::new(self.alloc)),
            },
        }
    }
}
