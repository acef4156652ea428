//! The search as one of `Rules`. A target is tested once; where it applies, room is reserved for its steps and the sweep after
//! them, and then no step can fail.
ghost use Rattle.q_logic.specs.declared.rule_bounds.Bounds.{Bounds};
ghost use Rattle.q_subsume.specs.Targets.{target_of};

use crate::dispatch::{fits, take};
use crate::find::find_from;
use crate::search::Search;
use crate::target::Target;
use q_kernel::{Kernel, Taken};
use q_logic::{Bounds, NoMemory};
use q_rule::{Rules, reserve_log};
use std::alloc::Global;

impl Rules for Search {
    type Target = Target;

    ghost target_of = { target_of };

    ghost IsFitFor = { λ k s. Unit {0} };

    fn new(alloc: Global) -> Search {
        let _ = alloc;
        Search { start: 0 }
    }

    fn applies(
        &mut self,
        kernel: &Kernel,
        target: &Target,
        bounds: &Bounds,
    ) -> Result<bool, NoMemory> {
        let _ = bounds;
        Ok(fits(kernel, target))
    }

    fn take(
        &mut self,
        kernel: &mut Kernel,
        target: &Target,
        bounds: &Bounds,
    ) -> Result<Taken, NoMemory> {
        let _ = bounds;
        if !fits(kernel, target) {
            return Ok(Taken::No);
        }
        reserve_log(kernel)?;
        take(kernel, target);
        Ok(Taken::Yes)
    }

    fn find(
        &mut self,
        kernel: &Kernel,
        bounds: &Bounds,
        from: u32,
    ) -> Result<Option<Target>, NoMemory> {
        let _ = bounds;
        Ok(find_from(kernel, self, from))
    }
}
