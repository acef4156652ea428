//! Keys in ascending order above a cursor, for guides that go through variables or clauses by a number that changes.
use q_logic::NoMemory;
use std::alloc::Global;
use std::cmp::Reverse;
use std::collections::BinaryHeap;

/// A number by which is sorted, and of what it is: a variable or a clause.
pub(crate) type Key = (u32, u32);

/// Keys above a cursor, the least first, and the others, which wait for the next start. Keys may be out of date: whoever
/// takes one looks whether it still holds.
#[derive(Drop)]
pub(crate) struct Ascending {
    ahead: BinaryHeap<Reverse<Key>>,
    passed: Vec<Key>,
    cursor: Option<Key>,
}

impl Ascending {
    pub(crate) fn new(alloc: Global) -> Ascending {
        Ascending {
            ahead: BinaryHeap::new(alloc),
            passed: Vec::new(alloc),
            cursor: None,
        }
    }

    /// How many keys are above the cursor, copies included.
    pub(crate) fn len(&self) -> usize {
        self.ahead.len()
    }

    /// Takes all keys out. The cursor stays.
    pub(crate) fn clear(&mut self) {
        self.ahead.clear();
        self.passed.clear();
    }

    fn is_passed(&self, key: Key) -> bool {
        match self.cursor {
            Some(cursor) => key <= cursor,
            None => false,
        }
    }

    /// Puts a key in, where there is one.
    pub(crate) fn put(&mut self, key: Option<Key>) -> Result<(), NoMemory> {
        let Some(key) = key else {
            return Ok(());
        };
        if self.is_passed(key) {
            self.passed.push(key)?;
        } else {
            self.ahead.push(Reverse(key))?;
        }
        Ok(())
    }

    /// Takes out the least key above the cursor. A second copy of a key at the cursor goes.
    pub(crate) fn pop(&mut self) -> Option<Key> {
        for _ in 0..self.ahead.len() {
            match self.ahead.pop() {
                Some(Reverse(key)) => {
                    if !self.is_passed(key) {
                        return Some(key);
                    }
                }
                None => return None,
            }
        }
        None
    }

    /// Puts the cursor at a key.
    pub(crate) fn pass(&mut self, key: Key) -> Result<(), NoMemory> {
        self.cursor = Some(key);
        self.passed.push(key)?;
        Ok(())
    }

    /// Puts the cursor below all keys.
    pub(crate) fn start_again(&mut self) -> Result<(), NoMemory> {
        self.cursor = None;
        for _ in 0..self.passed.len() {
            if let Some(key) = self.passed.pop() {
                self.ahead.push(Reverse(key))?;
            }
        }
        Ok(())
    }
}
