//! Questions of a caller that asks for many clauses of one kernel.
ghost use Rattle.std.specs.Prelude.{◌≡◌, ◌↔◌, IfOk, IsTrue};
ghost use Rattle.q_logic.specs.declared.rule_bounds.Bounds.{Bounds};
ghost use Rattle.q_logic.specs.Prelude.{cover, Fits};
ghost use Rattle.q_kernel.specs.Prelude.{Seen, slots, IsReady};
ghost use Rattle.q_blocked.specs.Learned.{IsRightFor};
ghost use Rattle.q_blocked.specs.Searches.{FindsWithin};

use crate::cover::fits_cover;
use crate::find::find_between;
use crate::needed::leave_out;
use crate::replay::Step;
use crate::search::Search;
use crate::target::Target;
use q_kernel::{ClauseId, Kernel};
use q_logic::{Bounds, NoMemory};

impl Search {
    /// Drops what was learned of a kernel, so that any other may come.
    pub fn forget(&mut self)
        ensures { (k : Seen) → IsRightFor k self.new }
    {
        self.units.forget();
        self.watches.forget();
        self.apart.forget();
    }

    /// Whether a clause is covered. What is learned of the kernel serves for the next question on the same one. Of the steps those stay
    /// on which the end rests.
    pub fn covers(&mut self, kernel: &Kernel, c: ClauseId) -> Result<bool, NoMemory>
        requires { IsRightFor kernel.now self.old }
        ensures yes { IfOk result (λ yes.
            (B : Bounds) → IsTrue yes ↔ Fits B kernel.now.prefix (slots kernel.now) (cover c)) }
        ensures right { IsRightFor kernel.now self.new }
    {
        let yes = fits_cover(kernel, self, c);
        leave_out(
            kernel,
            &self.growth.set,
            &mut self.growth.steps,
            &mut self.needed,
        );
        yes
    }

    /// A target whose place is at least one number and below another; none exactly where none of these applies. What is learned of
    /// the kernel serves for the next question on the same one, so a search place by place costs what a whole one does.
    pub fn find_within(
        &mut self,
        kernel: &Kernel,
        bounds: &Bounds,
        from: u32,
        upto: u32,
    ) -> Result<Option<Target>, NoMemory>
        requires ready { IsReady kernel.now }
        requires right { IsRightFor kernel.now self.old }
        ensures finds { IfOk result (FindsWithin bounds.now kernel.now from upto) }
        ensures right { IsRightFor kernel.now self.new }
    {
        let _ = bounds;
        find_between(kernel, self, from, upto)
    }

    /// The steps of the last growth. Where it ended, they are a hint for another search that tests the same clause.
    pub fn steps(&self) -> &[Step]
        ensures { result.now ≡ self.now.growth.steps.items }
    {
        &self.growth.steps
    }

    /// Takes steps by which a clause may be covered, for the next test of a covered clause, if it is of this one. They are tested, so
    /// they may be wrong: what the tests answer does not rest on them.
    pub fn suggest(&mut self, c: ClauseId, steps: &[Step])
        ensures { (k : Seen) → IsRightFor k self.old → IsRightFor k self.new }
    {
        self.hint.set(c, steps);
    }
}
