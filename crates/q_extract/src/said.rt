//! What lines say of variables: a value, or, where two lines hold different signs of one, what a merge gives.
ghost use Rattle.std.specs.Prelude.{◌≡◌, ◌&&◌, ◌==◌, if◌then◌else◌, ℕ, Some, None, OnOk};
ghost use Rattle.q_extract.specs.Saying.{said_in};

use q_logic::{Lit, NoMemory};
use std::alloc::Global;
use std::collections::HashMap;

/// What a line says of a variable: a value, or what the merge at this place gives.
#[derive(Clone, Copy, Debug, PartialEq, Eq)]
pub enum Said {
    Constant(bool),
    Merged(usize),
}

/// What the first of two lines says where the pivot is true, and what the second says where it is false.
#[derive(Clone, Copy)]
pub struct Merge {
    pub pivot: Lit,
    pub first: Said,
    pub second: Said,
}

/// The merges that give the values of variables, by a number and the variable.
#[derive(Drop)]
pub struct Sayings {
    pub merges: HashMap<(usize, u32), usize>,
}

impl Sayings {
    pub fn new(alloc: Global) -> Sayings
        ensures { (n : ℕ) → (x : ℕ) → said_in result n x ≡ None }
    {
        Sayings {
            merges: HashMap::new(alloc),
        }
    }

    /// The merge that gives the value of a variable at a number, if it is merged there.
    pub fn get(&self, number: usize, var: u32) -> Option<usize>
        ensures { result ≡ said_in self.now number var }
    {
        self.merges.get(&(number, var)).copied()
    }

    pub fn put(&mut self, number: usize, var: u32, merge: usize) -> Result<(), NoMemory>
        ensures { OnOk result ((n : ℕ) → (x : ℕ) → said_in self.new n x
            ≡ (if n == number && x == var then Some merge else said_in self.old n x)) }
    {
        self.merges.insert((number, var), merge)?;
        Ok(())
    }
}
