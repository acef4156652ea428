//! What the rules do along the list of a literal.
ghost use Rattle.std.specs.Prelude.{◌≡◌, ℕ, true, Some, None};
ghost use Rattle.q_logic.specs.Prelude.{negation, is_existential, standard, IsInLimits, live, OccursIn, without_literal};
ghost use Rattle.q_kernel.specs.Prelude.{slots, formula_in, HoldsLiteral, HasSweepBytes};
ghost use Rattle.q_rule.specs.Becoming.{HasBecome};

use q_kernel::{ClauseId, Kernel};
use q_logic::Lit;

/// A clause with the literal; the given one only where it is the only one.
pub fn clause_with(kernel: &Kernel, l: Lit, last: Option<ClauseId>) -> Option<ClauseId>
    ensures some { (id : ℕ) → result ≡ Some id → HoldsLiteral kernel.now id l }
    ensures none { result ≡ None → OccursIn l (live (slots kernel.now)) → ⊥ }
{
    let place = kernel.first(l)?;
    let id = kernel.owner(place);
    if last == Some(id) {
        if let Some(other) = kernel.next(place) {
            return Some(kernel.owner(other));
        }
    }
    Some(id)
}

/// Deletes the clauses with a literal whose negation does not occur, the given clause after all others.
pub fn delete_all(kernel: &mut Kernel, l: Lit, last: Option<ClauseId>)
    requires existential { is_existential kernel.old.prefix l.var ≡ true }
    requires pure { OccursIn (negation l) (live (slots kernel.old)) → ⊥ }
    requires limits { IsInLimits standard (formula_in kernel.old) }
    requires bytes { HasSweepBytes kernel.old }
    ensures { HasBecome kernel.old kernel.new (without_literal l (live (slots kernel.old))) }
{
    while let Some(id) = clause_with(kernel, l, last) {
        kernel.sound();
        kernel.delete_pivot(id, l);
    }
}
