//! Elimination of the touched existential variables, those with the fewest places first. (S. Subbarayan and D. Pradhan,
//! "NiVER", SAT 2004; N. Eén and A. Biere, SAT 2005.)
//!
//! A variable waits in a heap by the number of its places when it was put in. Where the number has changed since, it is put
//! in again once it is met.
ghost use Rattle.q_kernel.specs.Prelude.{IsReady};

use crate::lists::{lit_at, places_of};
use crate::marked::Marked;
use crate::watch::{Pass, Watch};
use q_eliminate::{Search, Target};
use q_kernel::Kernel;
use q_logic::{Bounds, NoMemory};
use q_rule::Rules;
use std::alloc::Global;
use std::cmp::Reverse;
use std::collections::BinaryHeap;

#[derive(Drop)]
pub(crate) struct Eliminating {
    heap: BinaryHeap<Reverse<(u32, u32)>>,
    marks: Marked,
    search: Search,
}

impl Eliminating {
    /// It takes no memory.
    pub(crate) fn new(alloc: Global) -> Eliminating {
        Eliminating {
            heap: BinaryHeap::new(alloc),
            marks: Marked::new(alloc),
            search: Search::new(alloc),
        }
    }

    /// The existential variable is touched.
    pub(crate) fn touch(&mut self, kernel: &Kernel, var: u32) -> Result<(), NoMemory> {
        if !self.marks.mark(var)? {
            self.heap.push(Reverse((weight(kernel, var), var)))?;
        }
        Ok(())
    }

    /// A target that applies.
    pub(crate) fn next<W: Watch>(
        &mut self,
        kernel: &Kernel,
        bounds: &Bounds,
        watch: &W,
    ) -> Result<Option<Target>, NoMemory>
        requires ready { IsReady kernel.now }
    {
        for _ in 0..u64::MAX {
            if !watch.look(Pass::Eliminate, kernel) {
                return Ok(None);
            }
            let Some(Reverse((places, x))) = self.heap.pop() else {
                return Ok(None);
            };
            let now = weight(kernel, x);
            if now != 0 && now != places {
                self.heap.push(Reverse((now, x)))?;
            } else if self.fits(kernel, bounds, x)? {
                return Ok(Some(Target::Eliminate { x }));
            }
        }
        Ok(None)
    }

    fn fits(&mut self, kernel: &Kernel, bounds: &Bounds, x: u32) -> Result<bool, NoMemory>
        requires ready { IsReady kernel.now }
    {
        self.marks.unmark(x);
        self.search
            .applies(kernel, &Target::Eliminate { x }, bounds)
    }
}

// How many clauses hold a variable.
fn weight(kernel: &Kernel, var: u32) -> u32 {
    match lit_at(var.saturating_mul(2)) {
        Some(lit) => places_of(kernel, lit),
        None => 0,
    }
}
