//! Literals that wait until their clauses are looked at again. Those with long lists can be put off: a literal that each
//! move touches would have its whole list walked each time.

use crate::lists::lit_at;
use crate::marked::Marked;
use q_kernel::Kernel;
use q_logic::{Lit, NoMemory};
use std::alloc::Global;

#[derive(Drop)]
pub(crate) struct Lits {
    queue: Marked,
    // those that are put off; their marks stand
    long: Vec<u32>,
}

impl Lits {
    /// It takes no memory.
    pub(crate) fn new(alloc: Global) -> Lits {
        Lits {
            queue: Marked::new(alloc),
            long: Vec::new(alloc),
        }
    }

    /// Puts a literal in, unless it waits.
    pub(crate) fn push(&mut self, index: u32) -> Result<(), NoMemory> {
        self.queue.push(index)
    }

    /// What was put off waits with the others again.
    pub(crate) fn release(&mut self) -> Result<(), NoMemory> {
        for _ in 0..self.long.len() {
            let Some(index) = self.long.pop() else {
                return Ok(());
            };
            self.queue.put_back(index)?;
        }
        Ok(())
    }

    /// Takes a literal out that stands in at most so many clauses; the others are put off.
    #[inline]
    pub(crate) fn next(&mut self, kernel: &Kernel, limit: u32) -> Result<Option<Lit>, NoMemory> {
        for _ in 0..self.queue.len() {
            let Some(index) = self.queue.take() else {
                return Ok(None);
            };
            let found = self.choose(kernel, index, limit)?;
            if found.is_some() {
                return Ok(found);
            }
        }
        Ok(None)
    }

    fn choose(&mut self, kernel: &Kernel, index: u32, limit: u32) -> Result<Option<Lit>, NoMemory> {
        let Some(lit) = lit_at(index) else {
            return Ok(None);
        };
        if kernel.count(lit) > limit {
            self.long.push(index)?;
            return Ok(None);
        }
        self.queue.unmark(index);
        Ok(Some(lit))
    }
}
