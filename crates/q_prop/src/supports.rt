//! What the clauses beside a slot say of it.
ghost use Rattle.std.specs.Prelude.{◌≡◌, IsTrue, Contains, ℕ, Option};
ghost use Rattle.q_logic.specs.Prelude.{Literal, Slots};
ghost use Rattle.q_prop.specs.Supports.{IsOnly, IsSupport};
ghost use Rattle.q_prop.specs.declared.supports.Support.TheVariants.{Apart};

use q_logic::Lit;

/// What the clauses beside a slot say of a literal of its clause, so that the root can do without it.
#[derive(Clone, Copy)]
pub enum Support {
    /// Another slot, the one told, holds the literal, and each other literal of its clause is one of this slot's or
    /// false by a unit clause.
    Doubled(Lit, usize),
    /// No other slot holds the literal, and none holds its negation.
    Alone(Lit),
    /// No other slot holds the literal, and each clause with its negation is true by a unit clause of another slot.
    Apart(Lit),
    Unknown,
}

/// What is left of a support where the literals of unit clauses may not all be known.
pub fn without_units(support: Support) -> Support
    ensures kept { (s : Slots) (skip : Option ℕ) → IsSupport s skip support
        → IsSupport s skip result }
    ensures none { (l : Literal) → result ≡ Apart l → ⊥ }
{
    match support {
        Support::Apart(_) => Support::Unknown,
        Support::Doubled(lit, other) => Support::Doubled(lit, other),
        Support::Alone(lit) => Support::Alone(lit),
        Support::Unknown => Support::Unknown,
    }
}

/// Whether the literal is one of the clause, which is in literal order.
pub fn is_among(clause: &[Lit], lit: Lit) -> bool
    ensures { IsTrue result → Contains clause.now lit }
{
    match clause.binary_search(&lit) {
        Ok(place) => clause[place].is(lit),
        Err(_) => false,
    }
}

/// Whether the list has this slot and no other.
pub fn is_only(list: &[u32], at: usize) -> bool
    ensures { IsTrue result → IsOnly list.now at }
{
    list.len() == 1 && list[0] as usize == at
}
