// What rows ask of a kernel that holds their formula.
ghost use Rattle.std.specs.Prelude.{OnOk};
ghost use Rattle.q_kernel.specs.Prelude.{IsReady};

use crate::checking::audit;
use crate::formulas::formula_text;
use crate::guides::guide_of;
use crate::notation::number;
use crate::places::lists;
use crate::row_targets::{RowTarget, find, group_of, row_target_of, try_one};
use crate::trouble::Trouble;
use q_kernel::{Kernel, Taken};
use q_logic::{Bounds, Formula};
use q_sched::{Guide, Move, Proposal};
use std::alloc::Global;
use std::fmt;

/// The answer to a question on a formula. The kernel stands in this function alone, so that it is let go by one call.
pub(crate) fn answer(
    alloc: Global,
    formula: &Formula,
    bounds: &Bounds,
    verb: &str,
    rest: &str,
) -> Result<String, Trouble> {
    if formula.clauses() > 1000 {
        return Err(Trouble::Unreadable("a formula of few clauses"));
    }
    let mut kernel = Kernel::start(alloc, formula)?;
    answer_of(alloc, formula, &mut kernel, bounds, verb, rest)
}

fn answer_of(
    alloc: Global,
    formula: &Formula,
    kernel: &mut Kernel,
    bounds: &Bounds,
    verb: &str,
    rest: &str,
) -> Result<String, Trouble> {
    if verb == "figures" {
        return figures(alloc, kernel, bounds);
    }
    make_ready(kernel)?;
    ready_answer(alloc, formula, kernel, bounds, verb, rest)
}

// Sweeps the kernel, so that it is ready where the formula is small.
fn make_ready(kernel: &mut Kernel) -> Result<(), Trouble>
    ensures { OnOk result (IsReady kernel.new) }
{
    kernel.sweep()?;
    if kernel.greatest_var() > 1000 || kernel.clauses() > 1000 || kernel.size() > 10_000 {
        return Err(Trouble::Unreadable("a small formula"));
    }
    Ok(())
}

fn ready_answer(
    alloc: Global,
    formula: &Formula,
    kernel: &mut Kernel,
    bounds: &Bounds,
    verb: &str,
    rest: &str,
) -> Result<String, Trouble>
    requires ready { IsReady kernel.old }
{
    match verb {
        "take" => outcome(alloc, formula, kernel, bounds, &row_target_of(rest)?),
        "lists" => lists(alloc, kernel, bounds, &row_target_of(rest)?),
        "find" => found(alloc, kernel, bounds, rest),
        "ask" => proposals(alloc, kernel, rest),
        _ => Err(Trouble::Unreadable("a verb")),
    }
}

// What becomes of a target: `no`, and the formula is as it was, or `yes` and the formula then. The log is a run there, and the
// rule's search finds something where the answer is yes.
fn outcome(
    alloc: Global,
    formula: &Formula,
    kernel: &mut Kernel,
    bounds: &Bounds,
    row_target: &RowTarget,
) -> Result<String, Trouble>
    requires ready { IsReady kernel.old }
{
    let is_found = find(alloc, row_target.target.group(), kernel, bounds, 0)?.is_some();
    let said = tried(alloc, formula, kernel, bounds, &row_target.target)?;
    if !is_found && said.as_str() != "no" {
        return Err(Trouble::Unreadable("a target that is found"));
    }
    Ok(said)
}

fn tried(
    alloc: Global,
    formula: &Formula,
    kernel: &mut Kernel,
    bounds: &Bounds,
    target: &Move,
) -> Result<String, Trouble>
    requires ready { IsReady kernel.old }
{
    let before = held(alloc, formula, kernel)?;
    let taken = try_one(alloc, kernel, target, bounds)?;
    let after = compacted(alloc, formula, kernel)?;
    told(alloc, taken, &before, &after)
}

fn told(alloc: Global, taken: Taken, before: &str, after: &str) -> Result<String, Trouble> {
    let mut said = String::new(alloc);
    match taken {
        Taken::Yes => {
            said.push_str("yes ")?;
            said.push_str(after)?;
        }
        Taken::No => {
            if before != after {
                return Err(Trouble::Unreadable("a formula that stays"));
            }
            said.push_str("no")?;
        }
    }
    Ok(said)
}

// The formula that the kernel holds; its log leads there.
fn held(alloc: Global, formula: &Formula, kernel: &Kernel) -> Result<String, Trouble> {
    let now = kernel.formula(alloc)?;
    audit(alloc, formula, kernel.log(), &now)?;
    formula_text(alloc, &now)
}

// The same, before and after all dead words went.
fn compacted(alloc: Global, formula: &Formula, kernel: &mut Kernel) -> Result<String, Trouble> {
    let before = held(alloc, formula, kernel)?;
    kernel.compact();
    let after = held(alloc, formula, kernel)?;
    if before != after || kernel.dead() != 0 {
        return Err(Trouble::Unreadable("a formula without dead words"));
    }
    Ok(after)
}

// What a group of rules finds, `GROUP` or `GROUP from PLACE`: a target, or `none`.
fn found(alloc: Global, kernel: &Kernel, bounds: &Bounds, text: &str) -> Result<String, Trouble>
    requires ready { IsReady kernel.now }
{
    let (name, from) = text.split_once(" from ").unwrap_or((text, "0"));
    let group = group_of(name)?;
    let from = number(from)?;
    let row_target = find(alloc, group, kernel, bounds, from)?;
    name_of(alloc, row_target)
}

fn name_of(alloc: Global, row_target: Option<RowTarget>) -> Result<String, Trouble> {
    match row_target {
        Some(RowTarget { target }) => Ok(format!(in alloc; "{target}")?),
        None => Ok(String::from_str(alloc, "none")?),
    }
}

// What a guide proposes for a formula, one proposal after the other, each of which is told as refused.
fn proposals(alloc: Global, kernel: &Kernel, guide: &str) -> Result<String, Trouble>
    requires { IsReady kernel.now }
{
    let guide = guide_of(alloc, guide)?;
    proposed(alloc, kernel, guide)
}

fn proposed<G: Guide>(alloc: Global, kernel: &Kernel, mut guide: G) -> Result<String, Trouble>
    requires { IsReady kernel.now }
{
    let mut text = String::new(alloc);
    for _ in 0..1000u32 {
        match guide.propose(kernel) {
            Proposal::Take(target) => push_target(&mut text, target)?,
            Proposal::Done => {
                text.push_str("done")?;
                return Ok(text);
            }
            Proposal::NoMemory => return Err(Trouble::NoMemory),
        }
        guide.told(false);
    }
    Err(Trouble::Unreadable("a guide that comes to an end"))
}

fn push_target(text: &mut String, target: Move) -> Result<(), Trouble> {
    write!(text, "{target}, ")?;
    Ok(())
}

// What the kernel counts.
#[derive(Clone, Copy)]
struct Counts {
    clauses: usize,
    size: usize,
    greatest: u32,
    measure: u64,
}

impl fmt::Display for Counts {
    fn fmt<W: fmt::Write>(&self, f: &mut fmt::Formatter<W>) -> fmt::Result {
        write!(f, "{} clauses, size {}", self.clauses, self.size)?;
        write!(f, ", greatest {}, measure {}", self.greatest, self.measure)
    }
}

fn counts_of(kernel: &Kernel, bounds: &Bounds) -> Counts {
    Counts {
        clauses: kernel.clauses(),
        size: kernel.size(),
        greatest: kernel.greatest_var(),
        measure: kernel.measure(bounds),
    }
}

// The figures of a formula as it stands.
fn figures(alloc: Global, kernel: &Kernel, bounds: &Bounds) -> Result<String, Trouble> {
    let counts = counts_of(kernel, bounds);
    Ok(format!(in alloc; "{counts}")?)
}
