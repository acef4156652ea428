//! Tests of clauses.
ghost use Rattle.std.specs.Prelude.{◌≡◌, [], ◌∷◌, None, Some};
ghost use Rattle.q_logic.specs.Prelude.{Literal};

use q_logic::Lit;

/// The literal of a clause that has no other.
pub fn only_literal(clause: &[Lit]) -> Option<Lit>
    ensures some { (l : Literal) → result ≡ Some l → clause.now ≡ l ∷ [] }
    ensures none { result ≡ None → (l : Literal) → clause.now ≡ l ∷ [] → ⊥ }
{
    if clause.len() == 1 {
        Some(clause[0])
    } else {
        None
    }
}
