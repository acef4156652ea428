//! The search as one of `Rules`. A target is tested once; where it applies, room is reserved for its steps and the sweep after
//! them, and then no step can fail.
ghost use Rattle.std.specs.Prelude.{◌≡◌};
ghost use Rattle.q_kernel.specs.Prelude.{Seen};
ghost use Rattle.q_reduce.specs.Targets.{target_of};
ghost use Rattle.q_reduce.specs.Learned.{nothing_learned, IsFitFor};

use crate::dispatch::{fits, take};
use crate::find::find_from;
use crate::forests::Forests;
use crate::recent::RecentRegions;
use crate::search::Search;
use crate::target::Target;
use q_kernel::{Kernel, Taken};
use q_logic::{Bounds, NoMemory};
use q_rule::{Queue, Rules, reserve_log};
use std::alloc::Global;

impl Rules for Search {
    type Target = Target;

    ghost target_of = { target_of };

    ghost IsFitFor = { IsFitFor };

    fn new(alloc: Global) -> Search
        ensures nothing { result ≡ nothing_learned }
        ensures fit { (k : Seen) → IsFitFor k result }
    {
        Search {
            queue: Queue::new(alloc),
            forests: Forests::new(alloc),
            recent: RecentRegions::new(alloc),
        }
    }

    fn applies(
        &mut self,
        kernel: &Kernel,
        target: &Target,
        bounds: &Bounds,
    ) -> Result<bool, NoMemory> {
        let _ = bounds;
        fits(kernel, self, target)
    }

    fn take(
        &mut self,
        kernel: &mut Kernel,
        target: &Target,
        bounds: &Bounds,
    ) -> Result<Taken, NoMemory> {
        let _ = bounds;
        if !fits(kernel, self, target)? {
            return Ok(Taken::No);
        }
        self.forests.forget();
        reserve_log(kernel)?;
        take(kernel, target);
        Ok(Taken::Yes)
    }

    fn find(
        &mut self,
        kernel: &Kernel,
        bounds: &Bounds,
        from: u32,
    ) -> Result<Option<Target>, NoMemory> {
        let _ = bounds;
        find_from(kernel, self, from)
    }
}
