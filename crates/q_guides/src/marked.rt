//! Numbers that wait, each once.
//!
//! They are variables, ids of clauses or indices of literals. A mark tells that a number waits, so to put it in again costs
//! nothing. The one that came last is the first to leave.

use crate::grown::take_in;
use q_logic::NoMemory;
use q_sparse::Sparse;
use std::alloc::Global;

#[derive(Drop)]
pub(crate) struct Marked {
    waiting: Vec<u32>,
    marks: Sparse<bool>,
}

impl Marked {
    /// It takes no memory.
    pub(crate) fn new(alloc: Global) -> Marked {
        Marked {
            waiting: Vec::new(alloc),
            marks: Sparse::new(alloc, false),
        }
    }

    /// Puts a number in, unless it waits.
    pub(crate) fn push(&mut self, number: u32) -> Result<(), NoMemory> {
        if self.mark(number)? {
            return Ok(());
        }
        self.waiting.push(number)?;
        Ok(())
    }

    /// Takes one out.
    pub(crate) fn pop(&mut self) -> Option<u32> {
        let number = self.waiting.pop()?;
        self.unmark(number);
        Some(number)
    }

    /// Takes one out whose mark stays, so that it can't come in again before `unmark`.
    pub(crate) fn take(&mut self) -> Option<u32> {
        self.waiting.pop()
    }

    /// Puts one back that was taken.
    pub(crate) fn put_back(&mut self, number: u32) -> Result<(), NoMemory> {
        self.waiting.push(number)?;
        Ok(())
    }

    /// Takes a mark away.
    pub(crate) fn unmark(&mut self, number: u32) {
        let place = number as usize;
        if place < self.marks.len() {
            self.marks.set(place, false);
        }
    }

    /// How many wait.
    pub(crate) fn len(&self) -> usize {
        self.waiting.len()
    }

    /// Marks a number; whether it was marked.
    pub(crate) fn mark(&mut self, number: u32) -> Result<bool, NoMemory> {
        let place = number as usize;
        if place >= self.marks.len() {
            take_in(&mut self.marks, number)?;
        }
        let was = self.marks.get(place);
        self.marks.set(place, true);
        Ok(was)
    }
}
