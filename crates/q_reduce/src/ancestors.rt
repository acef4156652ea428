//! Paths in a forest, by the clauses above their ends.
//!
//! A clause stands on the path between two others where it is above one of them and no higher than where the paths up meet.
//! Which clause is above another at some depth is found by as many jumps as the depth has binary digits. So a path costs a few
//! comparisons for each clause that might hold it up, and not its length.
ghost use Rattle.std.specs.Prelude.{◌≡◌, ◌≤◌, ◌<◌, ℕ, true, Some, IsTrue};
ghost use Rattle.q_logic.specs.Prelude.{IsIn};
ghost use Rattle.q_kernel.specs.Prelude.{slots};
ghost use Rattle.q_reduce.specs.Paths.{Leads, AreSides};
ghost use Rattle.q_reduce.specs.Forests.{depth_of, AreLevels, IsAbove, IsForest, IsFree, IsClear};

use crate::forest::Forest;
use crate::sides::Sides;
use q_kernel::{ClauseId, Kernel};
use q_logic::Lit;

impl Forest {
    /// Whether a path between the sides shows that a literal has to stay in its clause.
    pub(crate) fn tells(&self, kernel: &Kernel, c: ClauseId, lit: Lit, sides: &Sides) -> bool
        requires right { IsForest kernel.now.prefix (slots kernel.now) self.now }
        requires sides { AreSides kernel.now.prefix (slots kernel.now) c lit sides.now.starts.items
            sides.now.ends.items }
        ensures { IsTrue result → Leads kernel.now.prefix (slots kernel.now) lit c }
    {
        self.serves(kernel, lit.var()) && self.connects(kernel, sides, lit)
    }

    // Whether a path leads from one of the starts to one of the ends, by no other clause with the literal than its first.
    fn connects(&self, kernel: &Kernel, sides: &Sides, lit: Lit) -> bool
        requires { AreLevels self.now.places }
        ensures { IsTrue result → (from : ℕ) × (to : ℕ) × IsIn from sides.now.starts.items
            × IsIn to sides.now.ends.items × IsClear kernel.now self.now.places lit from to }
    {
        for from in &sides.starts {
            if self.leads_to_any(kernel, *from, &sides.ends, lit) {
                return true;
            }
        }
        false
    }

    fn leads_to_any(&self, kernel: &Kernel, from: ClauseId, ends: &[ClauseId], lit: Lit) -> bool
        requires { AreLevels self.now.places }
        ensures { IsTrue result → (to : ℕ) × IsIn to ends.now
            × IsClear kernel.now self.now.places lit from to }
    {
        for to in ends {
            if self.is_clear(kernel, from, *to, lit) {
                return true;
            }
        }
        false
    }

    fn is_clear(&self, kernel: &Kernel, from: ClauseId, to: ClauseId, lit: Lit) -> bool
        requires { AreLevels self.now.places }
        ensures { IsTrue result → IsClear kernel.now self.now.places lit from to }
    {
        let Some(top) = self.meet(from, to) else {
            return false;
        };
        for x in kernel.holders(lit) {
            if !self.is_free(x, top, from, to) {
                return false;
            }
        }
        true
    }

    fn is_free(&self, x: ClauseId, top: ClauseId, from: ClauseId, to: ClauseId) -> bool
        requires { AreLevels self.now.places }
        ensures { IsTrue result → IsFree self.now.places top from to x }
    {
        if x == from || self.depth(x) < self.depth(top) {
            return true;
        }
        !self.is_above(x, from) && !self.is_above(x, to)
    }

    fn is_above(&self, x: ClauseId, c: ClauseId) -> bool
        requires { AreLevels self.now.places }
        ensures { IsAbove self.now.places x c → result ≡ true }
    {
        self.ancestor(c, self.depth(x)) == x
    }

    // The clause above one at a depth.
    fn ancestor(&self, from: ClauseId, depth: u32) -> ClauseId
        requires { AreLevels self.now.places }
        ensures above { IsAbove self.now.places result from }
        ensures level { depth ≤ depth_of self.now.places from
            → depth_of self.now.places result ≡ depth }
    {
        let mut at = from;
        while depth < self.depth(at) {
            at = self.step_up(at, depth);
        }
        at
    }

    // A step up, by a jump unless that leads above a depth.
    fn step_up(&self, c: ClauseId, depth: u32) -> ClauseId
        requires levels { AreLevels self.now.places }
        requires below { depth < depth_of self.now.places c }
        ensures above { IsAbove self.now.places result c }
        ensures falls { depth_of self.now.places result < depth_of self.now.places c }
        ensures level { depth ≤ depth_of self.now.places result }
    {
        let jump = self.jump(c);
        if depth <= self.depth(jump) {
            jump
        } else {
            self.parent(c)
        }
    }

    // A clause above two others: the lowest one, where jumps are as long at one depth.
    fn meet(&self, a: ClauseId, b: ClauseId) -> Option<ClauseId>
        requires { AreLevels self.now.places }
        ensures { (t : ℕ) → result ≡ Some t
            → IsAbove self.now.places t a × IsAbove self.now.places t b }
    {
        let level = self.depth(a).min(self.depth(b));
        let mut x = self.ancestor(a, level);
        let mut y = self.ancestor(b, level);
        while x != y {
            if self.depth(x) == 0 {
                return None;
            }
            let apart = self.jump(x) != self.jump(y);
            x = self.up(x, apart);
            y = self.up(y, apart);
        }
        Some(x)
    }

    fn up(&self, c: ClauseId, by_jump: bool) -> ClauseId
        requires { AreLevels self.now.places }
        ensures above { IsAbove self.now.places result c }
        ensures falls { 0 < depth_of self.now.places c
            → depth_of self.now.places result < depth_of self.now.places c }
    {
        if by_jump {
            self.jump(c)
        } else {
            self.parent(c)
        }
    }
}
