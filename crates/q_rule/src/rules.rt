//! What a crate of rules is asked.
//!
//! Its search tells whether a target applies, takes one, and finds the next one. The search is lent from call to call: it
//! keeps buffers, and may have learned something of the formula, which has to be right for the kernel before (`IsFitFor`)
//! and is so after.
ghost use Rattle.std.specs.Prelude.{◌≡◌, ◌↔◌, IfOk, OnErr, IsTrue};
ghost use Rattle.q_logic.specs.Prelude.{Target as TheoryTarget};
ghost use Rattle.q_kernel.specs.Prelude.{Seen, SameView, IsReady, Applies};
ghost use Rattle.q_rule.specs.Searching.{Tries, Finds};

use q_kernel::{Kernel, Taken};
use q_logic::{Bounds, NoMemory};
use std::alloc::Global;

/// The search of a crate of rules.
pub trait Rules: Drop {
    /// What a rule of the crate is applied to.
    type Target;

    /// The same in the theory.
    ghost target_of: { Self.Target → TheoryTarget };

    /// What the search has learned is right for a kernel.
    ghost IsFitFor: { Seen → Self → Type 0 };

    /// Nothing is learned. It takes no memory.
    fn new(alloc: Global) -> Self
        ensures { (k : Seen) → IsFitFor k result };

    /// Whether a target applies.
    fn applies(
        &mut self,
        kernel: &Kernel,
        target: &Self::Target,
        bounds: &Bounds,
    ) -> Result<bool, NoMemory>
        requires ready { IsReady kernel.now }
        requires fit { IsFitFor kernel.now self.old }
        ensures yes { IfOk result (λ yes. IsTrue yes ↔ Applies bounds.now kernel.now
            (target_of target.now)) }
        ensures fit { IsFitFor kernel.now self.new };

    /// Takes a target exactly where it applies. Room is reserved before the first step, so then no step can fail.
    fn take(
        &mut self,
        kernel: &mut Kernel,
        target: &Self::Target,
        bounds: &Bounds,
    ) -> Result<Taken, NoMemory>
        requires ready { IsReady kernel.old }
        requires fit { IsFitFor kernel.old self.old }
        ensures tries { IfOk result (Tries bounds.now kernel.old kernel.new
            (target_of target.now)) }
        ensures err { OnErr result (SameView kernel.old kernel.new) }
        ensures fit { IsFitFor kernel.new self.new };

    /// A target whose place is at least a number; none exactly where no target from that place on applies. The place of a
    /// target is the id of the clause that changes, or its variable.
    fn find(
        &mut self,
        kernel: &Kernel,
        bounds: &Bounds,
        from: u32,
    ) -> Result<Option<Self::Target>, NoMemory>
        requires ready { IsReady kernel.now }
        requires fit { IsFitFor kernel.now self.old }
        ensures finds { IfOk result (Finds target_of bounds.now kernel.now from) }
        ensures fit { IsFitFor kernel.now self.new };

    /// Takes a target exactly where it applies, by a search of its own.
    final fn try_one(
        alloc: Global,
        kernel: &mut Kernel,
        target: &Self::Target,
        bounds: &Bounds,
    ) -> Result<Taken, NoMemory>
        requires ready { IsReady kernel.old }
        ensures tries { IfOk result (Tries bounds.now kernel.old kernel.new
            (target_of target.now)) }
        ensures err { OnErr result (SameView kernel.old kernel.new) }
    {
        Self::new(alloc).take(kernel, target, bounds)
    }

    /// Finds a target by a search of its own.
    final fn find_one(
        alloc: Global,
        kernel: &Kernel,
        bounds: &Bounds,
        from: u32,
    ) -> Result<Option<Self::Target>, NoMemory>
        requires ready { IsReady kernel.now }
        ensures finds { IfOk result (Finds target_of bounds.now kernel.now from) }
    {
        Self::new(alloc).find(kernel, bounds, from)
    }
}
