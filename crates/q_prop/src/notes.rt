//! Hints from the slots that a trail noted as those that forced its literals: from the falsified clause on, depth
//! first, each clause after those on which it rests. None of what stands here is relied on, since hints are tried
//! before they are handed out.
ghost use Rattle.std.specs.Prelude.{◌≡◌};

use crate::clauses::Clauses;
use crate::trail::{NO_SLOT, Trail};
use q_logic::{Lit, NoMemory};
use std::alloc::Global;

/// A clause whose literals are gone through, up to a place: the one that forced a literal, or the falsified one.
#[derive(Clone, Copy)]
struct Frame {
    lit: Option<Lit>,
    slot: usize,
    next: usize,
}

/// The slots of the clauses on which a conflict rests, each after those on which it rests itself.
#[derive(Drop)]
pub struct Notes {
    wanted: bool,
    hints: Vec<usize>,
    begun: Trail,
    stack: Vec<Frame>,
}

impl Notes {
    pub(crate) fn new(alloc: Global) -> Notes {
        Notes {
            wanted: false,
            hints: Vec::new(alloc),
            begun: Trail::new(alloc),
            stack: Vec::new(alloc),
        }
    }

    pub(crate) fn want(&mut self, wanted: bool) {
        self.wanted = wanted;
        if wanted {
            self.hints.clear();
        }
    }

    /// One slot shows it alone.
    pub(crate) fn tell(&mut self, slot: usize) {
        if self.wanted {
            self.hints.clear();
            let _ = self.hints.push(slot);
        }
    }

    pub(crate) fn hints(&self) -> &[usize] {
        &self.hints
    }

    /// Gathers the slots, from the one that the trail noted as falsified. Without memory they are not all there.
    pub(crate) fn gather(&mut self, clauses: &Clauses, trail: &Trail) {
        if !self.wanted || trail.conflict() == NO_SLOT {
            return;
        }
        self.hints.clear();
        self.begun.truncate(0);
        self.stack.clear();
        let first = Frame {
            lit: None,
            slot: trail.conflict(),
            next: 0,
        };
        if self.stack.push(first).is_err() {
            return;
        }
        // each literal comes and goes once
        for _ in 0..trail.len().saturating_mul(2).saturating_add(2) {
            let Some(frame) = self.stack.pop() else {
                return;
            };
            if self.go_on(clauses, trail, frame).is_err() {
                return;
            }
        }
    }

    // Goes on with a frame up to a literal that has to come first, or to its end.
    fn go_on(&mut self, clauses: &Clauses, trail: &Trail, frame: Frame) -> Result<(), NoMemory> {
        let Some(clause) = clauses.get(frame.slot) else {
            return Ok(());
        };
        for next in frame.next..clause.len() {
            let lit = clause[next].negated();
            if !is_own(frame.lit, clause[next]) && !self.begun.has(lit) {
                let slot = trail.reason(lit);
                if slot != NO_SLOT {
                    self.begun.push(lit)?;
                    self.stack.push(Frame { next, ..frame })?;
                    self.stack.push(Frame {
                        lit: Some(lit),
                        slot,
                        next: 0,
                    })?;
                    return Ok(());
                }
            }
        }
        self.hints.push(frame.slot)?;
        Ok(())
    }
}

fn is_own(own: Option<Lit>, lit: Lit) -> bool {
    match own {
        Some(other) => other.is(lit),
        None => false,
    }
}
