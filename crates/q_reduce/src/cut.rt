//! Extended universal reduction. A universal literal may leave a clause where no clause with its negation is reached: by
//! existential literals inner to it, from a clause to those with opposite literals, without a clause that holds the literal.
//!
//! Source: universal reduction is of Kleine Büning, Karpinski and Flögel 1995; the extended rule by a dependency scheme of
//! Heule, Seidl and Biere 2014 (its reach in this form is this project's own). The condition is `Reducible` in
//! `q_logic/specs/Reach.antt`, the law `q_logic/proofs/Reduction.antt`.
//!
//! Four answers are tried, the cheap ones first: the negation occurs nowhere, regions, a path in a forest, and then a
//! walk over occurrence lists (`search.rt`). A shorter clause may be a unit clause, or lose further literals.
ghost use Rattle.std.specs.Prelude.{◌≡◌, ◌↔◌, Some, IfOk, IsTrue};
ghost use Rattle.q_logic.specs.Prelude.{Clause, Reducible, slot, others};
ghost use Rattle.q_kernel.specs.Prelude.{slots};
ghost use Rattle.q_reduce.specs.Learned.{IsFitFor};

use crate::search::Search;
use q_kernel::{ClauseId, Kernel};
use q_logic::{Lit, NoMemory, holds};
use q_rule::is_universal;

/// Whether the literal is universal and reducible in the clause of an id.
pub fn fits_cut(kernel: &Kernel, search: &mut Search, c: ClauseId, l: Lit) -> Result<bool, NoMemory>
    requires { IsFitFor kernel.now search.old }
    ensures fits { IfOk result (λ yes.
        IsTrue yes ↔ ((C : Clause) × (slot (slots kernel.now) c ≡ Some C)
        × Reducible kernel.now.prefix (others c (slots kernel.now)) C l)) }
    ensures fit { IsFitFor kernel.now search.new }
{
    if !is_universal(kernel, l.var()) || !kernel.live(c) {
        return Ok(false);
    }
    let clause = kernel.lits(c);
    if !holds(clause, l) || holds(clause, l.negated()) {
        return Ok(false);
    }
    search.may_drop(kernel, c, l)
}
