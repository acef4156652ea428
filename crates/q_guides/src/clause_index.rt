//! An index of clauses for subsumption: each clause hangs at one of its literals, the one that occurs least.
//!
//! What lies within a clause d hangs at a literal of d, and what does so with one literal turned hangs at a literal of d or
//! at its negation. So few clauses are looked at, and a signature of variables rules most of these out. (One literal a
//! clause: L. Zhang, "On subsumption removal and on-the-fly CNF simplification", SAT 2005; signatures: N. Eén and A. Biere,
//! SAT 2005.)
//!
//! The clauses of a literal are a list, linked by their ids. Nothing here has to agree with the kernel.

use crate::grown::take_in;
use crate::lists::{index_of, lits_of};
use q_kernel::{ClauseId, Kernel};
use q_logic::{Lit, NoMemory};
use q_sparse::Sparse;
use std::alloc::Global;

/// No clause has this id.
pub(crate) const NONE: ClauseId = u32::MAX;

/// Where a clause hangs.
#[derive(Clone, Copy)]
pub(crate) struct Entry {
    pub signature: u64,
    pub len: usize,
    /// The index of the literal, 0 where the clause hangs nowhere.
    pub home: u32,
    pub next: ClauseId,
    pub before: ClauseId,
}

impl Entry {
    /// Whether a clause that hangs here may lie in one of that shape, but for a literal that is turned.
    pub(crate) fn may_lie_in(&self, shape: &Entry) -> bool {
        self.len <= shape.len && self.signature & !shape.signature == 0
    }
}

#[derive(Drop)]
pub(crate) struct ClauseIndex {
    entries: Vec<Entry>,
    first: Sparse<ClauseId>,
}

const NOWHERE: Entry = Entry {
    signature: 0,
    len: 0,
    home: 0,
    next: NONE,
    before: NONE,
};

impl ClauseIndex {
    /// It takes no memory.
    pub(crate) fn new(alloc: Global) -> ClauseIndex {
        ClauseIndex {
            entries: Vec::new(alloc),
            first: Sparse::new(alloc, NONE),
        }
    }

    /// Hangs a clause as it is now; one that is gone hangs nowhere.
    pub(crate) fn hang(&mut self, kernel: &Kernel, c: ClauseId) -> Result<(), NoMemory> {
        self.take_out(c);
        let clause = lits_of(kernel, c);
        let home = rarest(kernel, clause);
        if home == 0 {
            return Ok(());
        }
        self.make_room(c, home)?;
        let next = self.first(home);
        let entry = Entry {
            signature: signature_of(clause),
            len: clause.len(),
            home,
            next,
            before: NONE,
        };
        put_entry(&mut self.entries, c, entry);
        let after = Entry {
            before: c,
            ..self.entry(next)
        };
        put_entry(&mut self.entries, next, after);
        put_first(&mut self.first, home, c);
        Ok(())
    }

    fn make_room(&mut self, c: ClauseId, home: u32) -> Result<(), NoMemory> {
        if c as usize >= self.entries.len() {
            self.entries.resize(c as usize + 1, NOWHERE)?;
        }
        take_in(&mut self.first, home)
    }

    /// Takes a clause from its list.
    pub(crate) fn take_out(&mut self, c: ClauseId) {
        let entry = self.entry(c);
        if entry.home == 0 {
            return;
        }
        let after = Entry {
            before: entry.before,
            ..self.entry(entry.next)
        };
        put_entry(&mut self.entries, entry.next, after);
        if entry.before == NONE {
            put_first(&mut self.first, entry.home, entry.next);
        } else {
            let behind = Entry {
                next: entry.next,
                ..self.entry(entry.before)
            };
            put_entry(&mut self.entries, entry.before, behind);
        }
        put_entry(&mut self.entries, c, NOWHERE);
    }

    /// The first clause that hangs at a literal.
    pub(crate) fn first(&self, home: u32) -> ClauseId {
        self.first.get(home as usize)
    }

    /// Where a clause hangs.
    pub(crate) fn entry(&self, c: ClauseId) -> Entry {
        self.entries.get(c as usize).copied().unwrap_or(NOWHERE)
    }

    /// How many clauses can hang here.
    pub(crate) fn len(&self) -> usize {
        self.entries.len()
    }
}

fn put_entry(entries: &mut [Entry], c: ClauseId, entry: Entry) {
    let place = c as usize;
    if place < entries.len() {
        entries[place] = entry;
    }
}

fn put_first(first: &mut Sparse<ClauseId>, home: u32, c: ClauseId) {
    let place = home as usize;
    if place < first.len() {
        first.set(place, c);
    }
}

// The index of the literal that stands in the fewest clauses.
fn rarest(kernel: &Kernel, clause: &[Lit]) -> u32 {
    let mut home = 0;
    let mut least = u32::MAX;
    for l in clause {
        let count = kernel.count(*l);
        if count < least {
            home = index_of(*l);
            least = count;
        }
    }
    home
}

/// A bit for each variable, which variables share.
pub(crate) fn signature_of(clause: &[Lit]) -> u64 {
    let mut signature = 0;
    for l in clause {
        signature |= bit_of(l.var());
    }
    signature
}

fn bit_of(var: u32) -> u64 {
    1 << ((var.wrapping_mul(2_654_435_761) >> 16) % 64)
}
