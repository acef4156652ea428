//! Equivalent literals, where a clause of two literals came. All components are found at once, and their merges are handed
//! out one by one.

use crate::watch::{Pass, Watch};
use q_equiv::{Search, Target, candidates};
use q_kernel::Kernel;
use q_logic::NoMemory;
use q_rule::Rules;
use std::alloc::Global;

#[derive(Drop)]
pub(crate) struct Merging {
    is_due: bool,
    batch: Vec<Target>,
    search: Search,
}

impl Merging {
    /// It takes no memory.
    pub(crate) fn new(alloc: Global) -> Merging {
        Merging {
            is_due: false,
            batch: Vec::new(alloc),
            search: Search::new(alloc),
        }
    }

    /// A clause of two literals came.
    pub(crate) fn touch(&mut self) {
        self.is_due = true;
    }

    /// Gathers all merges, where there may be new ones.
    pub(crate) fn collect<W: Watch>(&mut self, kernel: &Kernel, watch: &W) -> Result<(), NoMemory> {
        if self.is_due && watch.look(Pass::Merge, kernel) {
            self.is_due = false;
            candidates(kernel, &mut self.search, &mut self.batch)?;
            self.batch.reverse();
        }
        Ok(())
    }

    /// The next one whose variables are still there.
    pub(crate) fn hand_out(&mut self, kernel: &Kernel) -> Option<Target> {
        for _ in 0..self.batch.len() {
            let target = self.batch.pop()?;
            let prefix = kernel.prefix();
            if prefix.contains(target.keep().var()) && prefix.contains(target.gone().var()) {
                return Some(target);
            }
        }
        None
    }
}
