//! Strengthened clauses.
//!
//! Let d hold l and c hold `not l`, and let each other literal of c be in d and not be l. The resolvent of c and d on l is
//! d without l, which subsumes d; so l leaves d. (Self-subsuming resolution: N. Eén and A. Biere, "Effective preprocessing in SAT through
//! variable and clause elimination", SAT 2005; it keeps the truth of quantified formulas whatever the quantifier of l is.)
//!
//! The condition stands in q_logic's `specs/Rules/Strengthen.antt`, the law in its `proofs/PlainRuns.antt`
//! (`strengthen-run`): where the rest of d is false, c makes l false, and d is left with nothing. A test walks both clauses
//! side by side, after l was found in d and not in c. Targets are found from c (`find.rt`). Taking one may make d a unit
//! clause, a clause that subsumes others or that strengthens them, and may leave l's negation pure.
ghost use Rattle.std.specs.Prelude.{◌↔◌, Some, IsTrue};
ghost use Rattle.q_logic.specs.declared.rule_bounds.Bounds.{Bounds};
ghost use Rattle.q_logic.specs.Prelude.{IsBelow, negation, IsIn, standard, IsInLimits, ArePairs, strengthen, Fits};
ghost use Rattle.q_kernel.specs.Prelude.{slots, formula_in};
ghost use Rattle.q_rule.specs.Becoming.{CanChange, IsChanged};
ghost use Rattle.q_subsume.specs.Looks.{IsTurnedWithin};

use crate::subsumed::are_two;
use q_kernel::{ClauseId, Kernel};
use q_logic::{Lit, holds};
use q_rule::{clause_of, first_missing};

/// Whether the clause c, which holds the negation of l, lies within the clause d once that literal is turned into l.
pub fn is_turned_within(c: &[Lit], d: &[Lit], l: Lit) -> bool
    requires ordered { ArePairs IsBelow c.now }
    requires other { ArePairs IsBelow d.now }
    ensures { IsTrue result ↔ IsTurnedWithin c.now d.now l }
{
    is_new(c, d, l) && first_missing(c, d, &Some(l.negated())).is_none()
}

fn is_new(c: &[Lit], d: &[Lit], l: Lit) -> bool
    ensures { IsTrue result ↔ (IsIn l d.now × (IsIn l c.now → ⊥)) }
{
    holds(d, l) && !holds(c, l)
}

// The same, where it is not known whether c holds the negation.
fn strengthens(c: &[Lit], d: &[Lit], l: Lit) -> bool
    requires ordered { ArePairs IsBelow c.now }
    requires other { ArePairs IsBelow d.now }
    ensures { IsTrue result ↔ (IsIn (negation l) c.now × IsTurnedWithin c.now d.now l) }
{
    holds(c, l.negated()) && is_turned_within(c, d, l)
}

/// Whether l may leave the clause d by the clause c.
pub fn fits(kernel: &Kernel, c: ClauseId, d: ClauseId, l: Lit) -> bool
    ensures { (B : Bounds) → IsTrue result
        ↔ Fits B kernel.now.prefix (slots kernel.now) (strengthen c d l) }
{
    are_two(kernel, c, d) && strengthens(clause_of(kernel, c), clause_of(kernel, d), l)
}

/// The literal l leaves the clause d.
pub fn take(kernel: &mut Kernel, c: ClauseId, d: ClauseId, l: Lit)
    requires fits { (B : Bounds) → Fits B kernel.old.prefix (slots kernel.old) (strengthen c d l) }
    requires limits { IsInLimits standard (formula_in kernel.old) }
    requires bytes { CanChange kernel.old }
    ensures { IsChanged kernel.old kernel.new (strengthen c d l) }
{
    let _ = c;
    kernel.sound();
    kernel.shrink(d, l);
}
