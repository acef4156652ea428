//! The search as one of `Rules`. A target is tested once; where it applies, room is reserved for its steps and the sweep after
//! them, and then no step can fail.
ghost use Rattle.q_equiv.specs.Targets.{target_of};

use crate::find::{Walks, find_from};
use crate::merge::{fits, take};
use crate::proposing::Halves;
use crate::room::reserve;
use crate::search::Search;
use crate::target::Target;
use q_kernel::{Kernel, Taken};
use q_logic::{Bounds, NoMemory};
use q_rule::{Queue, Rules};
use std::alloc::Global;

impl Rules for Search {
    type Target = Target;

    ghost target_of = { target_of };

    ghost IsFitFor = { λ k s. Unit {0} };

    fn new(alloc: Global) -> Search {
        Search {
            queue: Queue::new(alloc),
            clause: Vec::new(alloc),
            walks: Walks::new(alloc),
            halves: Halves::new(alloc),
        }
    }

    fn applies(
        &mut self,
        kernel: &Kernel,
        target: &Target,
        bounds: &Bounds,
    ) -> Result<bool, NoMemory> {
        let _ = bounds;
        fits(kernel, &mut self.queue, target.keep(), target.gone())
    }

    fn take(
        &mut self,
        kernel: &mut Kernel,
        target: &Target,
        bounds: &Bounds,
    ) -> Result<Taken, NoMemory> {
        let _ = bounds;
        let (keep, gone) = (target.keep(), target.gone());
        if !fits(kernel, &mut self.queue, keep, gone)? {
            return Ok(Taken::No);
        }
        reserve(kernel, &mut self.clause, gone)?;
        take(kernel, &mut self.clause, keep, gone);
        Ok(Taken::Yes)
    }

    fn find(
        &mut self,
        kernel: &Kernel,
        bounds: &Bounds,
        from: u32,
    ) -> Result<Option<Target>, NoMemory> {
        let _ = bounds;
        find_from(kernel, &mut self.walks, from)
    }
}
