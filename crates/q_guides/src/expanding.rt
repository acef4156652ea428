//! Expansion of the touched universal variables.
ghost use Rattle.q_kernel.specs.Prelude.{IsReady};

use crate::marked::Marked;
use crate::watch::{Pass, Watch};
use q_expand::{Search, Target};
use q_kernel::Kernel;
use q_logic::{Bounds, NoMemory};
use q_rule::Rules;
use std::alloc::Global;

#[derive(Drop)]
pub(crate) struct Expanding {
    waiting: Marked,
    search: Search,
}

impl Expanding {
    /// It takes no memory.
    pub(crate) fn new(alloc: Global) -> Expanding {
        Expanding {
            waiting: Marked::new(alloc),
            search: Search::new(alloc),
        }
    }

    /// The universal variable is touched.
    pub(crate) fn touch(&mut self, var: u32) -> Result<(), NoMemory> {
        self.waiting.push(var)
    }

    /// A target that applies.
    pub(crate) fn next<W: Watch>(
        &mut self,
        kernel: &Kernel,
        bounds: &Bounds,
        watch: &W,
    ) -> Result<Option<Target>, NoMemory>
        requires ready { IsReady kernel.now }
    {
        for _ in 0..self.waiting.len() {
            if !watch.look(Pass::Expand, kernel) {
                return Ok(None);
            }
            let Some(u) = self.waiting.pop() else {
                return Ok(None);
            };
            let target = Target::Expand { u };
            if self.search.applies(kernel, &target, bounds)? {
                return Ok(Some(target));
            }
        }
        Ok(None)
    }
}
