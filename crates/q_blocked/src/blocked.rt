//! Blocked clauses, and universal literals on which a clause is blocked.
//!
//! **The idea.** Each clause D with the negation of a literal l of a clause c gives, resolved with c on l, a
//! tautology: the outer part of D on `not l` holds the negation of a literal of c. An existential l may then always
//! be chosen so that c is true, so c goes. A universal l may be taken as false in c, so it leaves c.
//!
//! **Source.** Armin Biere, Florian Lonsing and Martina Seidl, "Blocked Clause Elimination for QBF" (CADE 2011);
//! for the universal pivot Marijn Heule, Martina Seidl and Armin Biere, "A Unified Proof System for QBF
//! Preprocessing" (IJCAR 2014).
//!
//! **Condition and law.** `Blocked.antt` and `BlockedForall.antt` (`q_logic/specs/Rules`), `AllClash`
//! (`q_logic/specs/Blocking.antt`). The step by the pivot is valid by `blocked-pivot` and `blocked_forall-pivot`
//! (`q_logic/proofs/PlainRuns.antt`).
//!
//! **How it is found.** The literals of c are marked once; then the list of `not l` is walked, and the walk stops at
//! the first clause that does not clash.
//!
//! **Cost.** The lengths of c and of the clauses that are passed, each up to its first clash. Nothing is allocated but
//! the marks, which are kept.
//!
//! **What it may make applicable.** Where a clause goes, its literals may become pure, and the clauses with their
//! negations blocked. Where a literal goes, the clause may subsume, strengthen, or be a unit clause.
ghost use Rattle.std.specs.Prelude.{◌↔◌, IfOk, IsTrue};
ghost use Rattle.q_logic.specs.declared.rule_bounds.Bounds.{Bounds};
ghost use Rattle.q_logic.specs.Prelude.{IsIn, negation, others, blocked, blocked_forall, standard, IsInLimits, Fits};
ghost use Rattle.q_logic.specs.Blocking.{AllClash};
ghost use Rattle.q_kernel.specs.Prelude.{slots, formula_in};
ghost use Rattle.q_rule.specs.Becoming.{CanChange, IsChanged};

use crate::clashing::{all_clash, fill};
use q_kernel::{ClauseId, Kernel};
use q_logic::{Lit, NoMemory, holds};
use q_rule::{Queue, is_existential, is_universal};

/// Whether a clause is blocked on an existential literal.
pub fn fits_blocked(kernel: &Kernel, set: &mut Queue, c: ClauseId, l: Lit) -> Result<bool, NoMemory>
    ensures { IfOk result (λ yes.
        (B : Bounds) → IsTrue yes ↔ Fits B kernel.now.prefix (slots kernel.now) (blocked c l)) }
{
    if !kernel.live(c) || !is_existential(kernel, l.var()) {
        return Ok(false);
    }
    let clause = kernel.lits(c);
    if !holds(clause, l) {
        return Ok(false);
    }
    fill(set, clause)?;
    Ok(all_clash(kernel, set, c, l))
}

/// The same for a universal literal whose negation is not in the clause.
pub fn fits_blocked_forall(
    kernel: &Kernel,
    set: &mut Queue,
    c: ClauseId,
    l: Lit,
) -> Result<bool, NoMemory>
    ensures { IfOk result (λ yes.
        (B : Bounds) → IsTrue yes
        ↔ Fits B kernel.now.prefix (slots kernel.now) (blocked_forall c l)) }
{
    if !kernel.live(c) || !is_universal(kernel, l.var()) {
        return Ok(false);
    }
    let clause = kernel.lits(c);
    if !holds(clause, l) {
        return Ok(false);
    }
    fill(set, clause)?;
    Ok(may_drop(kernel, set, c, l))
}

/// Whether a literal of the clause c, whose literals are the set, may leave it where it is universal.
pub fn may_drop(kernel: &Kernel, set: &Queue, c: ClauseId, l: Lit) -> bool
    ensures { IsTrue result ↔ ((IsIn (negation l) set.now → ⊥)
        × AllClash kernel.now.prefix (others c (slots kernel.now)) l set.now) }
{
    !set.has(l.negated()) && all_clash(kernel, set, c, l)
}

/// Deletes a blocked clause by its pivot.
pub fn take_blocked(kernel: &mut Kernel, c: ClauseId, l: Lit)
    requires fits { (B : Bounds) → Fits B kernel.old.prefix (slots kernel.old) (blocked c l) }
    requires limits { IsInLimits standard (formula_in kernel.old) }
    requires bytes { CanChange kernel.old }
    ensures { IsChanged kernel.old kernel.new (blocked c l) }
{
    kernel.sound();
    kernel.delete_pivot(c, l);
}

/// Drops a universal literal on which its clause is blocked.
pub fn take_blocked_forall(kernel: &mut Kernel, c: ClauseId, l: Lit)
    requires fits { (B : Bounds)
        → Fits B kernel.old.prefix (slots kernel.old) (blocked_forall c l) }
    requires limits { IsInLimits standard (formula_in kernel.old) }
    requires bytes { CanChange kernel.old }
    ensures { IsChanged kernel.old kernel.new (blocked_forall c l) }
{
    kernel.sound();
    kernel.drop_lit(c, l);
}
