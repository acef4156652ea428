//! The search as one of `Rules`. A target is tested once; where it applies, room is reserved for its steps and the sweep after
//! them, and then no step can fail.
ghost use Rattle.q_eliminate.specs.Targets.{target_of};

use crate::eliminate::take;
use crate::find::find_from;
use crate::plan::make_plan;
use crate::room::reserve;
use crate::search::Search;
use crate::sides::Sides;
use crate::target::Target;
use q_kernel::{Kernel, Taken};
use q_logic::{Bounds, NoMemory};
use q_rule::{Queue, Rules};
use std::alloc::Global;

impl Rules for Search {
    type Target = Target;

    ghost target_of = { target_of };

    ghost IsFitFor = { λ k s. Unit {0} };

    fn new(alloc: Global) -> Search {
        Search {
            sides: Sides::new(alloc),
            marks: Queue::new(alloc),
            resolvent: Vec::new(alloc),
        }
    }

    fn applies(
        &mut self,
        kernel: &Kernel,
        target: &Target,
        bounds: &Bounds,
    ) -> Result<bool, NoMemory> {
        let found = make_plan(kernel, self, target.variable(), bounds)?;
        Ok(found.is_some())
    }

    fn take(
        &mut self,
        kernel: &mut Kernel,
        target: &Target,
        bounds: &Bounds,
    ) -> Result<Taken, NoMemory> {
        let x = target.variable();
        let Some(plan) = make_plan(kernel, self, x, bounds)? else {
            return Ok(Taken::No);
        };
        reserve(kernel, &mut self.resolvent, &plan)?;
        take(kernel, self, x, &plan);
        Ok(Taken::Yes)
    }

    fn find(
        &mut self,
        kernel: &Kernel,
        bounds: &Bounds,
        from: u32,
    ) -> Result<Option<Target>, NoMemory> {
        find_from(kernel, self, bounds, from)
    }
}
