// The checker, one step after the other.
ghost use Rattle.std.specs.Prelude.{◌≤◌};
ghost use Rattle.q_logic.specs.Prelude.{AreModerate};

use crate::formulas::{formula_of, push_clause, push_lit};
use crate::trouble::Trouble;
use q_check::{CheckError, Checker, Clauses, Undo, Verified};
use q_log::LogReader;
use q_logic::{Formula, Limits, Step};
use std::alloc::Global;

/// The steps of a log that is none but steps.
pub(crate) fn steps_of(alloc: Global, log: &[u8]) -> Result<Vec<Step>, Trouble> {
    let mut steps = Vec::new(alloc);
    push_steps(alloc, &mut steps, log)?;
    Ok(steps)
}

fn push_steps(alloc: Global, steps: &mut Vec<Step>, log: &[u8]) -> Result<(), Trouble> {
    let Ok(mut reader) = LogReader::new(alloc, 1_000_000_000) else {
        return Err(Trouble::NoMemory);
    };
    for byte in log {
        match reader.push(*byte) {
            Ok(Some((_, step))) => steps.push(step)?,
            Ok(None) => {}
            Err(_) => return Err(Trouble::Unreadable("steps")),
        }
    }
    Ok(())
}

/// The answer to each step, one a line: taken, or the cause of its refusal.
pub(crate) fn answers(
    alloc: Global,
    formula: &Formula,
    limits: Limits,
    log: &[u8],
) -> Result<Vec<u8>, Trouble>
    requires { AreModerate limits }
{
    let steps = steps_of(alloc, log)?;
    answers_from(alloc, formula, limits, &steps)
}

fn answers_from(
    alloc: Global,
    formula: &Formula,
    limits: Limits,
    steps: &[Step],
) -> Result<Vec<u8>, Trouble>
    requires { AreModerate limits }
{
    let mut checker = begin(alloc, formula, limits)?;
    answers_to(alloc, &mut checker, steps)
}

fn answers_to(alloc: Global, checker: &mut Checker, steps: &[Step]) -> Result<Vec<u8>, Trouble> {
    let mut text = String::new(alloc);
    for step in steps {
        let answer = attempt(checker, step);
        push_answer(&mut text, answer)?;
    }
    Ok(text.into_bytes())
}

fn begin(alloc: Global, formula: &Formula, limits: Limits) -> Result<Checker, Trouble>
    requires { AreModerate limits }
{
    match Checker::start(alloc, formula, limits, true) {
        Ok(checker) => Ok(checker),
        Err(_) => Err(Trouble::NoMemory),
    }
}

fn attempt(checker: &mut Checker, step: &Step) -> Result<(), CheckError> {
    checker.step(step)
}

fn push_answer(text: &mut String, answer: Result<(), CheckError>) -> Result<(), Trouble> {
    match answer {
        Ok(()) => text.push_str("taken\n")?,
        Err(CheckError::Refused { cause }) => writeln!(text, "cause {cause}")?,
        Err(CheckError::NoMemory) => return Err(Trouble::NoMemory),
    }
    Ok(())
}

/// Takes the steps of a run, which all are valid and end in a formula.
pub(crate) fn audit(
    alloc: Global,
    formula: &Formula,
    log: &[u8],
    output: &Formula,
) -> Result<(), Trouble> {
    let _verified = verified(alloc, formula, log, output)?;
    Ok(())
}

fn verified(
    alloc: Global,
    formula: &Formula,
    log: &[u8],
    output: &Formula,
) -> Result<Verified, Trouble> {
    let steps = steps_of(alloc, log)?;
    end(checked(alloc, formula, &steps)?, output)
}

// The checker that has taken all steps.
fn checked(alloc: Global, formula: &Formula, steps: &[Step]) -> Result<Checker, Trouble> {
    let mut checker = begin(alloc, formula, Limits::standard())?;
    take_all(&mut checker, steps)?;
    Ok(checker)
}

fn take_all(checker: &mut Checker, steps: &[Step]) -> Result<(), Trouble> {
    for step in steps {
        attempt(checker, step)?;
    }
    Ok(())
}

fn end(checker: Checker, output: &Formula) -> Result<Verified, Trouble> {
    Ok(checker.finish(output)?)
}

/// The undo list of a run to the formula without clauses and prefix, one entry a line: `pivot 2 {-1} {3}`, `removed 2` or
/// `fresh 3`.
pub(crate) fn undo_list(alloc: Global, formula: &Formula, log: &[u8]) -> Result<Vec<u8>, Trouble> {
    let output = formula_of(alloc, "nothing")?;
    let verified = verified(alloc, formula, log, &output)?;
    entries(alloc, verified.undo.as_slice())
}

fn entries(alloc: Global, undo: &[Undo]) -> Result<Vec<u8>, Trouble> {
    let mut text = String::new(alloc);
    for entry in undo {
        push_entry(&mut text, entry)?;
    }
    Ok(text.into_bytes())
}

fn push_entry(text: &mut String, entry: &Undo) -> Result<(), Trouble> {
    match entry {
        Undo::Pivot { pivot, outer } => {
            text.push_str("pivot ")?;
            push_lit(text, *pivot)?;
            push_outers(text, outer)?;
        }
        Undo::Removed { var } => write!(text, "removed {var}")?,
        Undo::Fresh { var } => write!(text, "fresh {var}")?,
    }
    text.push_str("\n")?;
    Ok(())
}

fn push_outers(text: &mut String, outer: &Clauses) -> Result<(), Trouble> {
    for at in 0..outer.len() {
        text.push_str(" ")?;
        push_clause(text, outer.clause(at))?;
    }
    Ok(())
}
