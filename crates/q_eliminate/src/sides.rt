//! The clauses of a variable.
ghost use Rattle.std.specs.Prelude.{◌≡◌, ◌<◌, OnOk};
ghost use Rattle.q_logic.specs.Prelude.{size_of, clauses_at};
ghost use Rattle.q_kernel.specs.Prelude.{slots};
ghost use Rattle.q_eliminate.specs.Sides.{AreIdsOf, AreLive, AreSidesOf};

use q_kernel::{ClauseId, Kernel};
use q_logic::{Lit, NoMemory};
use std::alloc::Global;

/// The ids of the clauses that hold a literal, and of those that hold its negation.
#[derive(Drop)]
pub struct Sides {
    pub positive: Vec<ClauseId>,
    pub negative: Vec<ClauseId>,
}

impl Sides {
    pub(crate) fn new(alloc: Global) -> Sides {
        Sides {
            positive: Vec::new(alloc),
            negative: Vec::new(alloc),
        }
    }

    /// Makes them those of a literal.
    pub fn gather(&mut self, kernel: &Kernel, lit: Lit) -> Result<(), NoMemory>
        ensures { OnOk result (AreSidesOf kernel.now lit self.new) }
    {
        collect(kernel, lit, &mut self.positive)?;
        collect(kernel, lit.negated(), &mut self.negative)
    }
}

// The ids of the clauses that hold a literal.
#[inline]
fn collect(kernel: &Kernel, lit: Lit, ids: &mut Vec<ClauseId>) -> Result<(), NoMemory>
    ensures { OnOk result (AreIdsOf kernel.now lit ids.new.items) }
{
    ids.clear();
    for id in kernel.holders(lit) {
        ids.push(id)?;
    }
    Ok(())
}

/// The number of literals and clauses.
pub fn weight(kernel: &Kernel, ids: &[ClauseId]) -> usize
    requires live { AreLive (slots kernel.now) ids.now }
    requires small { size_of (clauses_at (slots kernel.now) ids.now) < 8589934592 }
    ensures { result ≡ size_of (clauses_at (slots kernel.now) ids.now) }
{
    let mut sum = 0;
    for id in ids {
        sum += kernel.lits(*id).len() + 1;
    }
    sum
}
