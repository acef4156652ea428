//! What is the same for all steps of a log, and rows that are used again from step to step.
ghost use Rattle.std.specs.Prelude.{◌≡◌, []};

use q_logic::{Limits, Lit};
use std::alloc::Global;

/// The limits of a checker, and whether it keeps the undo list.
#[derive(Clone, Copy)]
pub struct Settings {
    pub limits: Limits,
    pub keeps: bool,
}

/// Rows for hints: the clauses that they are for, and those of one clause.
#[derive(Drop)]
pub struct HintRows {
    pub alloc: Global,
    pub targets: Vec<u64>,
    pub hints: Vec<u64>,
}

/// Rows for a step: its clause in literal order, what is left of it without a literal, and rows for its hints.
#[derive(Drop)]
pub struct StepRows {
    pub clause: Vec<Lit>,
    pub rest: Vec<Lit>,
    pub hints: HintRows,
}

impl StepRows {
    pub fn new(alloc: Global) -> StepRows
        ensures clause { result.clause.items ≡ [] }
        ensures rest { result.rest.items ≡ [] }
        ensures targets { result.hints.targets.items ≡ [] }
        ensures hints { result.hints.hints.items ≡ [] }
    {
        StepRows {
            clause: Vec::new(alloc),
            rest: Vec::new(alloc),
            hints: HintRows {
                alloc,
                targets: Vec::new(alloc),
                hints: Vec::new(alloc),
            },
        }
    }
}
