//! The search as one of `Rules`. A target is tested once; where it applies, room is reserved for its steps and the sweep after
//! them, and then no step can fail.
ghost use Rattle.q_blocked.specs.Targets.{target_of};

use crate::apart::Apart;
use crate::dispatch::{fits, take};
use crate::find::find_from;
use crate::growth::Growth;
use crate::needed::Needed;
use crate::replay::Hint;
use crate::room::reserve;
use crate::search::Search;
use crate::target::Target;
use crate::units::Units;
use q_kernel::{Kernel, Taken};
use q_logic::{Bounds, NoMemory};
use q_rule::Rules;
use q_watch::Watches;
use std::alloc::Global;

impl Rules for Search {
    type Target = Target;

    ghost target_of = { target_of };

    ghost IsFitFor = { λ k s. Unit {0} };

    fn new(alloc: Global) -> Search {
        Search {
            growth: Growth::new(alloc),
            hint: Hint::new(alloc),
            units: Units::new(alloc),
            watches: Watches::new(alloc),
            apart: Apart::new(alloc),
            needed: Needed::new(alloc),
            larger: Vec::new(alloc),
        }
    }

    fn applies(
        &mut self,
        kernel: &Kernel,
        target: &Target,
        bounds: &Bounds,
    ) -> Result<bool, NoMemory> {
        let _ = bounds;
        fits(kernel, self, target)
    }

    fn take(
        &mut self,
        kernel: &mut Kernel,
        target: &Target,
        bounds: &Bounds,
    ) -> Result<Taken, NoMemory> {
        let _ = bounds;
        if !fits(kernel, self, target)? {
            return Ok(Taken::No);
        }
        reserve(kernel, &self.growth.plan, &mut self.larger)?;
        take(kernel, self, target);
        Ok(Taken::Yes)
    }

    fn find(
        &mut self,
        kernel: &Kernel,
        bounds: &Bounds,
        from: u32,
    ) -> Result<Option<Target>, NoMemory> {
        let _ = bounds;
        find_from(kernel, self, from)
    }
}
