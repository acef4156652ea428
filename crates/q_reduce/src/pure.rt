//! Pure literals. A literal whose negation does not occur is made true where it is existential: the clauses that hold it go.
//! Where it is universal it is made false: it leaves all clauses.
//!
//! Source: Davis and Putnam 1960; for quantified formulas Cadoli, Giovanardi and Schaerf 1998. The condition stands in
//! `q_logic/specs/Rules/Pure.antt`, the laws are `pure-pivot` and `pure-reducible` in `q_logic/proofs/PlainRuns.antt`.
//!
//! The test reads two counts; taking it costs the clauses with the literal. What went may make further literals pure.
ghost use Rattle.std.specs.Prelude.{◌≡◌, ◌↔◌, ◌≤◌, ◌+◌, ◌*◌, length, true, cond, IsTrue};
ghost use Rattle.q_logic.specs.Prelude.{negation, is_existential, is_universal, is_bound, standard, IsInLimits, size_of, live, OccursIn, with_literal, without_literal, each_without};
ghost use Rattle.q_kernel.specs.Prelude.{slots, formula_in};
ghost use Rattle.q_rule.specs.Becoming.{CanChange, HasBecome};

use crate::lists::{clause_with, delete_all};
use q_kernel::Kernel;
use q_logic::Lit;
use q_rule::is_existential;

/// Whether the literal occurs and its negation does not.
pub fn fits_pure(kernel: &Kernel, l: Lit) -> bool
    ensures { IsTrue result ↔ ((is_bound kernel.now.prefix l.var ≡ true)
        × OccursIn l (live (slots kernel.now))
        × (OccursIn (negation l) (live (slots kernel.now)) → ⊥)) }
{
    kernel.sound();
    kernel.count(l) > 0 && kernel.count(l.negated()) == 0
}

/// Makes a pure literal true where it is existential, and false where it is universal.
pub fn take_pure(kernel: &mut Kernel, l: Lit)
    requires bound { is_bound kernel.old.prefix l.var ≡ true }
    requires pure { OccursIn (negation l) (live (slots kernel.old)) → ⊥ }
    requires limits { IsInLimits standard (formula_in kernel.old) }
    requires bytes { CanChange kernel.old }
    ensures { HasBecome kernel.old kernel.new
        (cond (is_existential kernel.old.prefix l.var) (without_literal l (live (slots kernel.old)))
        (each_without l (live (slots kernel.old)))) }
{
    if is_existential(kernel, l.var()) {
        delete_all(kernel, l, None);
    } else {
        drop_all(kernel, l);
    }
}

// Takes a universal literal whose negation does not occur out of all clauses.
fn drop_all(kernel: &mut Kernel, l: Lit)
    requires universal { is_universal kernel.old.prefix l.var ≡ true }
    requires pure { OccursIn (negation l) (live (slots kernel.old)) → ⊥ }
    requires limits { IsInLimits standard (formula_in kernel.old) }
    requires bytes { 16 * size_of (with_literal l (live (slots kernel.old)))
        + 16 * (size_of (live (slots kernel.old)) + length kernel.old.prefix)
        ≤ kernel.old.spare_bytes }
    ensures { HasBecome kernel.old kernel.new (each_without l (live (slots kernel.old))) }
{
    while let Some(id) = clause_with(kernel, l, None) {
        kernel.sound();
        kernel.drop_lit(id, l);
    }
}
