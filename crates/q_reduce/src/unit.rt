//! Unit clauses. The literal of a clause that has no other is made true: the clauses that hold it go, and its negation
//! leaves the others. The unit clause goes last, by its pure literal; before that all is implied by it.
//!
//! Source: Davis and Putnam 1960; for quantified formulas the literal has to be existential (Cadoli, Giovanardi and Schaerf
//! 1998). The condition and the change, `assigned`, stand in `q_logic/specs/Rules/Unit.antt`, the laws are those of
//! `q_logic/proofs/PlainRuns.antt`.
//!
//! The test looks at one clause; taking it costs the clauses with the literal or its negation. Shorter clauses may be unit
//! clauses then, or lose universal literals, and what went may leave pure literals.
ghost use Rattle.std.specs.Prelude.{◌≡◌, ◌↔◌, ◌≤◌, ◌+◌, ◌*◌, ℕ, [], ◌∷◌, length, true, Some, None, IsTrue};
ghost use Rattle.q_logic.specs.Prelude.{Literal, negation, is_existential, standard, IsInLimits, size_of, slot, live, with_literal, without_literal, each_without};
ghost use Rattle.q_kernel.specs.Prelude.{slots, formula_in};
ghost use Rattle.q_rule.specs.Becoming.{CanChange, HasBecome};

use crate::lists::{clause_with, delete_all};
use q_kernel::{ClauseId, Kernel};
use q_logic::Lit;
use q_rule::{is_existential, only_literal};

/// The existential literal that is all of a clause.
pub fn unit_literal(kernel: &Kernel, c: ClauseId) -> Option<Lit>
    ensures some { (l : Literal) → result ≡ Some l
        → (slot (slots kernel.now) c ≡ Some (l ∷ []))
        × (is_existential kernel.now.prefix l.var ≡ true) }
    ensures none { result ≡ None → (l : Literal) → slot (slots kernel.now) c ≡ Some (l ∷ [])
        → is_existential kernel.now.prefix l.var ≡ true → ⊥ }
{
    if !kernel.live(c) {
        return None;
    }
    let lit = only_literal(kernel.lits(c))?;
    if is_existential(kernel, lit.var()) {
        Some(lit)
    } else {
        None
    }
}

/// Whether the id has a clause of one existential literal.
pub fn fits_unit(kernel: &Kernel, c: ClauseId) -> bool
    ensures { IsTrue result ↔ ((l : Literal) × (slot (slots kernel.now) c ≡ Some (l ∷ []))
        × (is_existential kernel.now.prefix l.var ≡ true)) }
{
    unit_literal(kernel, c).is_some()
}

/// Makes the literal of a unit clause true. The clause goes last: before that the others are implied.
pub fn take_unit(kernel: &mut Kernel, c: ClauseId)
    requires unit { (l : Literal) × (slot (slots kernel.old) c ≡ Some (l ∷ []))
        × (is_existential kernel.old.prefix l.var ≡ true) }
    requires limits { IsInLimits standard (formula_in kernel.old) }
    requires bytes { CanChange kernel.old }
    ensures { (l : Literal) → slot (slots kernel.old) c ≡ Some (l ∷ [])
        → HasBecome kernel.old kernel.new
        (each_without (negation l) (without_literal l (live (slots kernel.old)))) }
{
    if let Some(l) = unit_literal(kernel, c) {
        shrink_all(kernel, l);
        delete_all(kernel, l, Some(c));
    }
}

// Takes the negation of a unit clause's literal out of all clauses.
fn shrink_all(kernel: &mut Kernel, l: Lit)
    requires unit { (c : ℕ) × (slot (slots kernel.old) c ≡ Some (l ∷ [])) }
    requires limits { IsInLimits standard (formula_in kernel.old) }
    requires bytes { 32 * size_of (with_literal (negation l) (live (slots kernel.old)))
        + 16 * (size_of (live (slots kernel.old)) + length kernel.old.prefix)
        ≤ kernel.old.spare_bytes }
    ensures { HasBecome kernel.old kernel.new
        (each_without (negation l) (live (slots kernel.old))) }
{
    let gone = l.negated();
    while let Some(id) = clause_with(kernel, gone, None) {
        kernel.sound();
        kernel.shrink(id, gone);
    }
}
