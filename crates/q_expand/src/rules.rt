//! The search as one of `Rules`. A target is tested once; where it applies, room is reserved for its steps and the sweep after
//! them, and then no step can fail.
ghost use Rattle.q_expand.specs.Targets.{target_of};

use crate::dependents::Dependents;
use crate::expand::{fits, take};
use crate::find::find_from;
use crate::ordering::read_order;
use crate::room::reserve;
use crate::search::Search;
use crate::target::Target;
use q_kernel::{Kernel, Taken};
use q_logic::{Bounds, NoMemory};
use q_rule::Rules;
use std::alloc::Global;

impl Rules for Search {
    type Target = Target;

    ghost target_of = { target_of };

    ghost IsFitFor = { λ k s. Unit {0} };

    fn new(alloc: Global) -> Search {
        Search {
            dependents: Dependents::new(alloc),
            order: Vec::new(alloc),
            spare: Vec::new(alloc),
        }
    }

    fn applies(
        &mut self,
        kernel: &Kernel,
        target: &Target,
        bounds: &Bounds,
    ) -> Result<bool, NoMemory> {
        fits(kernel, &mut self.dependents, target.variable(), bounds)
    }

    fn take(
        &mut self,
        kernel: &mut Kernel,
        target: &Target,
        bounds: &Bounds,
    ) -> Result<Taken, NoMemory> {
        let u = target.variable();
        if !fits(kernel, &mut self.dependents, u, bounds)? {
            return Ok(Taken::No);
        }
        reserve(kernel, &self.dependents, &mut self.spare, u)?;
        read_order(kernel, &self.dependents, &mut self.order)?;
        take(kernel, &self.dependents, &self.order, &mut self.spare, u);
        Ok(Taken::Yes)
    }

    fn find(
        &mut self,
        kernel: &Kernel,
        bounds: &Bounds,
        from: u32,
    ) -> Result<Option<Target>, NoMemory> {
        find_from(kernel, &mut self.dependents, bounds, from)
    }
}
