//! The steps by which a covered clause goes.
ghost use Rattle.std.specs.Prelude.{◌≡◌, ◌≤◌, [], IfOk, length};
ghost use Rattle.q_blocked.specs.Plans.{words_of};

use q_logic::{Lit, NoMemory};
use std::alloc::Global;

// More stages, or more literals in them, have no place in memory.
const MOST: usize = 1_073_741_824;

/// A larger clause, and how the smaller one goes once it has come.
#[derive(Clone, Copy, Debug)]
pub struct Stage {
    /// The larger clause has the literals before this place.
    pub to: usize,
    /// The smaller one goes by this pivot, or is implied.
    pub on: Option<Lit>,
}

/// The literals of a covered clause and those that come, in the order of their coming; where the clause is made
/// larger; and how the last one goes.
#[derive(Drop)]
pub struct Plan {
    pub lits: Vec<Lit>,
    pub stages: Vec<Stage>,
    pub last: Option<Lit>,
}

impl Plan {
    pub fn new(alloc: Global) -> Plan
        ensures { result.stages.items ≡ [] }
    {
        Plan {
            lits: Vec::new(alloc),
            stages: Vec::new(alloc),
            last: None,
        }
    }

    /// The number of stages, and the literals of all larger clauses.
    pub fn size(&self) -> Result<Size, NoMemory>
        ensures ids { IfOk result (λ s. (s.ids ≡ length self.now.stages.items) × (s.ids ≤ MOST)) }
        ensures words { IfOk result (λ s.
            (s.words ≡ words_of self.now.stages.items) × (s.words ≤ MOST)) }
    {
        let ids = self.stages.len();
        if ids > MOST {
            return Err(NoMemory);
        }
        let mut words = 0;
        for stage in &self.stages {
            if stage.to > MOST - words {
                return Err(NoMemory);
            }
            words += stage.to;
        }
        Ok(Size { words, ids })
    }
}

/// What the clauses of a plan take.
#[derive(Clone, Copy, Debug)]
pub struct Size {
    pub words: usize,
    pub ids: usize,
}
