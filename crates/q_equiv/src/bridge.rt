//! The two clauses that join a literal to its equivalent one while it takes its place, and the clauses that are still to
//! be renamed beside them.
ghost use Rattle.std.specs.Prelude.{◌≡◌, ◌≢◌, ◌⊎◌, ◌∷◌, [], ℕ, true, None, Some};
ghost use Rattle.q_logic.specs.Prelude.{Clause, insert, has_variable, slot};
ghost use Rattle.q_kernel.specs.Prelude.{slots, HoldsLiteral};

use q_kernel::{ClauseId, Kernel};
use q_logic::Lit;

/// The ids of two clauses: of the one by which a literal gives another one, and of the one by which it is given back.
#[derive(Clone, Copy, Debug, PartialEq, Eq)]
pub struct Bridge {
    pub over: ClauseId,
    pub back: ClauseId,
}

/// A clause of two literals.
pub fn two_lits(a: Lit, b: Lit) -> [Lit; 2]
    requires { a.var ≢ b.var }
    ensures { result ≡ insert a (b ∷ []) }
{
    if a.index() < b.index() {
        [a, b]
    } else {
        [b, a]
    }
}

/// A clause with the variable of the literal, beside the bridge.
pub fn next_clause(kernel: &Kernel, gone: Lit, bridge: Bridge) -> Option<ClauseId>
    ensures some { (id : ℕ) → result ≡ Some id
        → (id ≢ bridge.over) × (id ≢ bridge.back) × (C : Clause)
        × (slot (slots kernel.now) id ≡ Some C) × (has_variable gone.var C ≡ true) }
    ensures none { result ≡ None → (c : ℕ) (C : Clause) → slot (slots kernel.now) c ≡ Some C
        → has_variable gone.var C ≡ true → (c ≡ bridge.over) ⊎ (c ≡ bridge.back) }
{
    let found = clause_beside(kernel, gone, bridge);
    if found.is_some() {
        return found;
    }
    clause_beside(kernel, gone.negated(), bridge)
}

// A clause with the literal, beside the bridge.
fn clause_beside(kernel: &Kernel, lit: Lit, bridge: Bridge) -> Option<ClauseId>
    ensures some { (id : ℕ) → result ≡ Some id
        → (id ≢ bridge.over) × (id ≢ bridge.back) × HoldsLiteral kernel.now id lit }
    ensures none { result ≡ None → (c : ℕ) → HoldsLiteral kernel.now c lit
        → (c ≡ bridge.over) ⊎ (c ≡ bridge.back) }
{
    for id in kernel.holders(lit) {
        if id != bridge.over && id != bridge.back {
            return Some(id);
        }
    }
    None
}
