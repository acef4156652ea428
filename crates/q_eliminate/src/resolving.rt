//! Resolvents.
ghost use Rattle.std.specs.Prelude.{◌≡◌, ◌≤◌, ◌<◌, ◌+◌, ◌-◌, ◌++◌, ◌∷◌, [], length, drop, vec_len, vec_capacity};
ghost use Rattle.q_logic.specs.Prelude.{IsBelow, negation, IsIn, ArePairs, without, resolvent};

use q_logic::Lit;

/// Puts the resolvent of two clauses on a literal in place of what the row has: both are merged in literal order.
pub fn resolve(first: &[Lit], second: &[Lit], lit: Lit, into: &mut Vec<Lit>)
    requires first { ArePairs IsBelow first.now }
    requires second { ArePairs IsBelow second.now }
    requires no_negation { IsIn (negation lit) first.now → ⊥ }
    requires no_literal { IsIn lit second.now → ⊥ }
    requires room { length first.now + length second.now ≤ vec_capacity into.old }
    ensures resolvent { into.new.items ≡ resolvent lit first.now second.now }
    ensures room { vec_capacity into.new ≡ vec_capacity into.old }
{
    let own = lit.negated();
    into.clear();
    let mut i = 0;
    let mut j = 0;
    while i < first.len() && j < second.len() {
        let a = first[i];
        let b = second[j];
        if a.index() < b.index() {
            push_but(into, a, lit);
            i += 1;
        } else if b.index() < a.index() {
            push_but(into, b, own);
            j += 1;
        } else {
            push_but(into, b, own);
            i += 1;
            j += 1;
        }
    }
    append_but(into, first, i, lit);
    append_but(into, second, j, own);
}

// Appends a literal, unless it is the other one.
fn push_but(into: &mut Vec<Lit>, lit: Lit, out: Lit)
    requires { vec_len into.old < vec_capacity into.old }
    ensures items { into.new.items ≡ into.old.items ++ without out (lit ∷ []) }
    ensures len { vec_len into.new ≤ vec_len into.old + 1 }
    ensures room { vec_capacity into.new ≡ vec_capacity into.old }
{
    if !lit.is(out) {
        into.push_reserved(lit);
    }
}

// Appends the literals of a clause from a place on, but one.
fn append_but(into: &mut Vec<Lit>, clause: &[Lit], from: usize, out: Lit)
    requires { vec_len into.old + (length clause.now - from) ≤ vec_capacity into.old }
    ensures items { into.new.items ≡ into.old.items ++ without out (drop from clause.now) }
    ensures len { vec_len into.new ≤ vec_len into.old + (length clause.now - from) }
    ensures room { vec_capacity into.new ≡ vec_capacity into.old }
{
    for at in from..clause.len() {
        push_but(into, clause[at], out);
    }
}
