//! Subsumed clauses.
//!
//! A clause d that holds all literals of another clause c says less than c, and goes. (A. Biere, "Resolve and Expand",
//! SAT 2004; N. Eén and A. Biere, "Effective preprocessing in SAT through variable and clause elimination", SAT 2005; it
//! keeps the truth of quantified formulas whatever the prefix is.)
//!
//! The condition stands in q_logic's `specs/Rules/Subsumed.antt`, the law in its `proofs/PlainRuns.antt`
//! (`subsumed-run`): d is implied by c, since the negations of d's literals leave c nothing. Both clauses are in order, so a
//! test is one walk over the two side by side. Targets are found from c (`find.rt`). Taking one may leave a literal pure.
ghost use Rattle.std.specs.Prelude.{◌↔◌, IsTrue};
ghost use Rattle.q_logic.specs.declared.rule_bounds.Bounds.{Bounds};
ghost use Rattle.q_logic.specs.Prelude.{IsBelow, standard, IsInLimits, ArePairs, IsSubset, subsumed, Fits};
ghost use Rattle.q_kernel.specs.Prelude.{slots, formula_in};
ghost use Rattle.q_rule.specs.Becoming.{CanChange, IsChanged};
ghost use Rattle.q_subsume.specs.Looks.{AreTwo};

use q_kernel::{ClauseId, Kernel};
use q_logic::Lit;
use q_rule::{clause_of, first_missing};

/// Whether all literals of the clause c are in the clause d.
pub fn is_within(c: &[Lit], d: &[Lit]) -> bool
    requires ordered { ArePairs IsBelow c.now }
    requires other { ArePairs IsBelow d.now }
    ensures { IsTrue result ↔ IsSubset c.now d.now }
{
    first_missing(c, d, &None).is_none()
}

/// Whether two ids are different and both live.
pub fn are_two(kernel: &Kernel, c: ClauseId, d: ClauseId) -> bool
    ensures { IsTrue result ↔ AreTwo (slots kernel.now) c d }
{
    c != d && kernel.live(c) && kernel.live(d)
}

/// Whether the clause d is subsumed by the clause c.
pub fn fits(kernel: &Kernel, c: ClauseId, d: ClauseId) -> bool
    ensures { (B : Bounds) → IsTrue result
        ↔ Fits B kernel.now.prefix (slots kernel.now) (subsumed c d) }
{
    are_two(kernel, c, d) && is_within(clause_of(kernel, c), clause_of(kernel, d))
}

/// The clause d goes.
pub fn take(kernel: &mut Kernel, c: ClauseId, d: ClauseId)
    requires fits { (B : Bounds) → Fits B kernel.old.prefix (slots kernel.old) (subsumed c d) }
    requires limits { IsInLimits standard (formula_in kernel.old) }
    requires bytes { CanChange kernel.old }
    ensures { IsChanged kernel.old kernel.new (subsumed c d) }
{
    let _ = c;
    kernel.sound();
    kernel.delete_implied(d);
}
