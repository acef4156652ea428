//! The clauses of the variable go.
ghost use Rattle.std.specs.Prelude.{◌≡◌, ℕ, None, Some};
ghost use Rattle.q_logic.specs.Prelude.{live, OccursIn};
ghost use Rattle.q_kernel.specs.Prelude.{slots, HoldsLiteral, HasSweepBytes};
ghost use Rattle.q_eliminate.specs.Growing.{MayGoBy, HasShrunk};

use q_kernel::{ClauseId, Kernel};
use q_logic::Lit;

/// Deletes the clauses with a literal, by it as pivot.
pub fn delete_with(kernel: &mut Kernel, lit: Lit)
    requires pivot { MayGoBy kernel.old lit }
    requires bytes { HasSweepBytes kernel.old }
    ensures { HasShrunk kernel.old kernel.new lit }
{
    while let Some(id) = clause_with(kernel, lit) {
        kernel.sound();
        kernel.delete_pivot(id, lit);
    }
}

// A clause with the literal.
fn clause_with(kernel: &Kernel, lit: Lit) -> Option<ClauseId>
    ensures some { (id : ℕ) → result ≡ Some id → HoldsLiteral kernel.now id lit }
    ensures none { result ≡ None → OccursIn lit (live (slots kernel.now)) → ⊥ }
{
    let place = kernel.first(lit)?;
    Some(kernel.owner(place))
}
