//! Paths in a forest, edge by edge.
ghost use Rattle.std.specs.Prelude.{◌≡◌, ℕ, true, Some, IsTrue};
ghost use Rattle.q_logic.specs.Prelude.{outer_or_same, negation};
ghost use Rattle.q_kernel.specs.Prelude.{slots, HoldsLiteral};
ghost use Rattle.q_reduce.specs.Paths.{AreJoined, Lacks, Leads};
ghost use Rattle.q_reduce.specs.Forests.{IsForest};

use crate::forest::Forest;
use q_kernel::{ClauseId, Kernel};
use q_logic::{Lit, holds};

// So many clauses with the negation of a literal are tried.
const TRIES: usize = 8;

impl Forest {
    /// Whether a path of at most so many edges leads from a clause to one with the negation of the literal.
    pub(crate) fn climbs(&self, kernel: &Kernel, c: ClauseId, lit: Lit, steps: usize) -> bool
        requires { IsForest kernel.now.prefix (slots kernel.now) self.now }
        ensures { IsTrue result → Leads kernel.now.prefix (slots kernel.now) lit c }
    {
        if !self.serves(kernel, lit.var()) {
            return false;
        }
        let mut tries = 0;
        for d in kernel.holders(lit.negated()) {
            if self.joins(kernel, c, lit, d, steps) {
                return true;
            }
            if tries >= TRIES {
                return false;
            }
            tries += 1;
        }
        false
    }

    // Whether the paths upwards from c and from d, which holds the negation of the literal, meet, and no clause on them but c
    // holds the literal. The lower one of two clauses is left for its parent.
    fn joins(&self, kernel: &Kernel, c: ClauseId, lit: Lit, d: ClauseId, steps: usize) -> bool
        requires right { IsForest kernel.now.prefix (slots kernel.now) self.now }
        requires block { outer_or_same kernel.now.prefix lit.var self.now.block ≡ true }
        requires negation { HoldsLiteral kernel.now d (negation lit) }
        ensures { IsTrue result → Leads kernel.now.prefix (slots kernel.now) lit c }
    {
        let mut near = c;
        let mut far = d;
        for _ in 0..steps {
            if near == far {
                return true;
            }
            if self.depth(near) >= self.depth(far) {
                let Some(parent) = self.free_parent(kernel, near, lit) else {
                    return false;
                };
                near = parent;
            } else {
                let Some(parent) = self.parent_of_free(kernel, far, lit) else {
                    return false;
                };
                far = parent;
            }
        }
        false
    }

    // The parent of a clause, if the parent lacks u.
    fn free_parent(&self, kernel: &Kernel, c: ClauseId, u: Lit) -> Option<ClauseId>
        requires right { IsForest kernel.now.prefix (slots kernel.now) self.now }
        requires block { outer_or_same kernel.now.prefix u.var self.now.block ≡ true }
        ensures joined { (p : ℕ) → result ≡ Some p
            → AreJoined kernel.now.prefix (slots kernel.now) u.var c p }
        ensures lacks { (p : ℕ) → result ≡ Some p → Lacks (slots kernel.now) p u }
    {
        if self.depth(c) == 0 {
            return None;
        }
        let parent = self.parent(c);
        if holds(kernel.lits(parent), u) {
            None
        } else {
            Some(parent)
        }
    }

    // The parent of a clause, if the clause lacks u.
    fn parent_of_free(&self, kernel: &Kernel, c: ClauseId, u: Lit) -> Option<ClauseId>
        requires right { IsForest kernel.now.prefix (slots kernel.now) self.now }
        requires block { outer_or_same kernel.now.prefix u.var self.now.block ≡ true }
        ensures joined { (p : ℕ) → result ≡ Some p
            → AreJoined kernel.now.prefix (slots kernel.now) u.var c p }
        ensures lacks { (p : ℕ) → result ≡ Some p → Lacks (slots kernel.now) c u }
    {
        if self.depth(c) == 0 {
            return None;
        }
        if holds(kernel.lits(c), u) {
            None
        } else {
            Some(self.parent(c))
        }
    }
}
