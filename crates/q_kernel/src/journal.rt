//! What the steps touched, for guides that look only where something has changed.
//!
//! Touches are counted from 0. The newest are kept in a ring of reserved room, so a step notes them without memory; the
//! oldest are forgotten. Nothing that is proved rests on them.
ghost use Rattle.std.specs.Prelude.{◌≤◌, vec_len};

use q_arena::ClauseId;
use q_logic::Lit;
use std::alloc::Global;

/// What a step touched.
#[derive(Clone, Copy, Debug, PartialEq, Eq)]
pub enum Touch {
    /// The clause came, or lost a literal.
    Clause(ClauseId),
    /// The literal stands in one clause less: a clause with it went, or lost it.
    Literal(Lit),
    /// The variable's block became one with a block further in, or the variable is fresh. Of a large block that meets a smaller
    /// one only the variables that share a clause with the inner one are noted.
    Variable(u32),
}

// So many touches are kept at least, and at most.
const FEWEST: usize = 1_024;

const MOST: usize = 1_048_576;

/// A ring of touches.
#[derive(Drop)]
pub(crate) struct Journal {
    ring: Vec<Touch>,
    // the place after the newest touch, and how many touches are kept
    next: usize,
    kept: usize,
    // how many there were
    count: u64,
    ghost next_within: { next ≤ vec_len ring },
    ghost kept_within: { kept ≤ vec_len ring },
}

impl Journal {
    pub(crate) fn new(alloc: Global) -> Journal {
        Journal {
            ring: Vec::new(alloc),
            next: 0,
            kept: 0,
            count: 0,
        }
    }

    /// Makes room for so many touches, within limits. Where memory is wanting, it forgets sooner.
    pub(crate) fn reserve(&mut self, touches: usize) {
        let room = self.ring.len();
        let wanted = touches.clamp(FEWEST, MOST);
        if wanted <= room {
            return;
        }
        // the oldest touch comes first, so that the room behind the newest may grow
        if self.kept == room {
            let next = self.next;
            self.ring.rotate_left(next);
        }
        self.next = self.kept;
        let _ = self
            .ring
            .resize(wanted.max(2 * room).min(MOST), Touch::Variable(0));
    }

    /// How many touches there were.
    pub(crate) fn count(&self) -> u64 {
        self.count
    }

    /// A touch by its number, unless it is forgotten.
    pub(crate) fn get(&self, number: u64) -> Option<Touch> {
        if number >= self.count {
            return None;
        }
        let back = self.count - number;
        if back > self.kept as u64 {
            return None;
        }
        let back = back as usize;
        if back <= self.next {
            return Some(self.ring[self.next - back]);
        }
        Some(self.ring[self.ring.len() - (back - self.next)])
    }

    /// Notes a touch.
    pub(crate) fn note(&mut self, touch: Touch) {
        self.count = self.count.saturating_add(1);
        let room = self.ring.len();
        if self.next == room {
            self.next = 0;
        }
        if self.next < room {
            self.ring[self.next] = touch;
            self.next += 1;
        }
        if self.kept < room {
            self.kept += 1;
        }
    }

    /// Notes that a clause with these literals went.
    pub(crate) fn note_gone(&mut self, lits: &[Lit]) {
        for lit in lits {
            self.note(Touch::Literal(*lit));
        }
    }
}
