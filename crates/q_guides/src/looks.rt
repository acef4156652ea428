//! When clauses were looked at last, and when literals were touched last.
//!
//! A clause is gathered for each of its literals that is touched. Some come again: a literal with a long list waits until short
//! ones are done, and what is taken in a batch touches clauses that are looked at later in the same batch. Once a clause was
//! looked at, all touches before are done with: a number for each literal and one for each clause tell it. (Where another
//! literal of its set was touched, more may come now. For such a touch no clause is gathered; the search behind all guides
//! looks at all of them.)
//!
//! Nothing has to be right here: by a wrong number a clause is looked at once more, or left to that search.

use crate::grown::take_in;
use crate::lists::{index_of, lits_of};
use q_kernel::{ClauseId, Kernel};
use q_logic::NoMemory;
use q_sparse::{Filling, Sparse};
use std::alloc::Global;

#[derive(Drop)]
pub(crate) struct Looks {
    // how often looks began
    now: u32,
    // what `now` was, by index of the literal and by id of the clause; 0 for those that never were
    touched: Sparse<u32>,
    looked: Sparse<u32>,
}

impl Looks {
    /// It takes no memory.
    pub(crate) fn new(alloc: Global) -> Looks {
        Looks {
            now: 0,
            touched: Sparse::new(alloc, 0),
            looked: Sparse::filled(alloc, 0, Filling::Most),
        }
    }

    /// The literal is touched. Before the first look nothing has to be noted.
    pub(crate) fn touch(&mut self, index: u32) -> Result<(), NoMemory> {
        if self.now == 0 {
            return Ok(());
        }
        put_stamp(&mut self.touched, index, self.now)
    }

    /// Looks begin, at a kernel whose touches were told.
    pub(crate) fn begin(&mut self) {
        self.now = self.now.saturating_add(1);
    }

    /// The clause is looked at.
    pub(crate) fn look(&mut self, c: ClauseId) -> Result<(), NoMemory> {
        put_stamp(&mut self.looked, c, self.now)
    }

    /// Whether a clause was looked at, and none of its literals was touched since.
    pub(crate) fn is_done_with(&self, kernel: &Kernel, c: ClauseId) -> bool {
        let looked = self.looked.get(c as usize);
        for l in lits_of(kernel, c) {
            if self.touched.get(index_of(*l) as usize) >= looked {
                return false;
            }
        }
        true
    }
}

fn put_stamp(stamps: &mut Sparse<u32>, number: u32, stamp: u32) -> Result<(), NoMemory> {
    let place = number as usize;
    if place >= stamps.len() {
        take_in(stamps, number)?;
    }
    stamps.set(place, stamp);
    Ok(())
}
