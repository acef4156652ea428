//! The steps on which the end of a growth rests.
//!
//! **The idea.** Where a growth ends because a literal and its negation have come, it rests on the clauses that gave these two, on
//! those that gave the other literals of these clauses, and so on back to the clause itself. The other steps are left out of what is
//! handed on. Who takes the steps again has less to do then, and the clauses of the log become shorter. Where covered literals came,
//! all steps stay: whether a clause clashes may rest on any literal of the set.
//!
//! Nothing rests on this: steps are tested where they are taken.

use crate::replay::Step;
use q_kernel::{ClauseId, Kernel};
use q_logic::NoMemory;
use q_rule::{Queue, clause_of};
use std::alloc::Global;

/// Room for the literals that are needed, and for the steps that give them.
#[derive(Drop)]
pub struct Needed {
    lits: Queue,
    kept: Vec<Step>,
}

impl Needed {
    pub(crate) fn new(alloc: Global) -> Needed {
        Needed {
            lits: Queue::new(alloc),
            kept: Vec::new(alloc),
        }
    }
}

// Whether no step is of covered literals.
fn are_hidden(steps: &[Step]) -> bool {
    for step in steps {
        if matches!(step, Step::Covered(_)) {
            return false;
        }
    }
    true
}

// Begins with the last literal and its negation. No where that is not in the set.
fn begin(set: &Queue, needed: &mut Queue) -> Result<bool, NoMemory> {
    needed.clear();
    let len = set.len();
    if len == 0 {
        return Ok(false);
    }
    let last = set.at(len - 1);
    if !set.has(last.negated()) {
        return Ok(false);
    }
    needed.push(last)?;
    needed.push(last.negated())?;
    Ok(true)
}

// All literals of a clause are needed.
fn need(kernel: &Kernel, needed: &mut Queue, d: ClauseId) -> Result<(), NoMemory> {
    if !kernel.live(d) {
        return Ok(());
    }
    for k in clause_of(kernel, d) {
        if !needed.has(*k) {
            needed.push(*k)?;
        }
    }
    Ok(())
}

// Keeps the step that gave the literal at a place of the set, if that is needed.
fn keep(
    kernel: &Kernel,
    set: &Queue,
    needed: &mut Needed,
    place: usize,
    step: Step,
) -> Result<(), NoMemory> {
    let Step::Hidden(d) = step else {
        return Ok(());
    };
    if place >= set.len() {
        return Ok(());
    }
    if !needed.lits.has(set.at(place)) {
        return Ok(());
    }
    need(kernel, &mut needed.lits, d)?;
    needed.kept.push(step)?;
    Ok(())
}

// Takes the steps out, the last one first, and keeps those that are needed.
fn pick(
    kernel: &Kernel,
    set: &Queue,
    steps: &mut Vec<Step>,
    needed: &mut Needed,
) -> Result<(), NoMemory> {
    needed.kept.clear();
    let mut place = set.len();
    for _ in 0..steps.len() {
        let Some(step) = steps.pop() else {
            return Ok(());
        };
        place = place.saturating_sub(1);
        keep(kernel, set, needed, place, step)?;
    }
    Ok(())
}

fn put_back(steps: &mut Vec<Step>, kept: &mut Vec<Step>) -> Result<(), NoMemory> {
    for _ in 0..kept.len() {
        let Some(step) = kept.pop() else {
            return Ok(());
        };
        steps.push(step)?;
    }
    Ok(())
}

fn leave_out_all(
    kernel: &Kernel,
    set: &Queue,
    steps: &mut Vec<Step>,
    needed: &mut Needed,
) -> Result<(), NoMemory> {
    if !are_hidden(steps) {
        return Ok(());
    }
    if !begin(set, &mut needed.lits)? {
        return Ok(());
    }
    pick(kernel, set, steps, needed)?;
    put_back(steps, &mut needed.kept)
}

/// Leaves out the steps on which the end of a growth does not rest. Where memory is wanting, further ones may go.
pub(crate) fn leave_out(kernel: &Kernel, set: &Queue, steps: &mut Vec<Step>, needed: &mut Needed) {
    let _had_room = leave_out_all(kernel, set, steps, needed);
}
