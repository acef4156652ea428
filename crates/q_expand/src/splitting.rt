//! Clauses over copies.
ghost use Rattle.std.specs.Prelude.{◌⊎◌, ◌^◌, ◌≡◌, ◌≢◌, ◌↔◌, ◌≤◌, ◌<◌, ◌+◌, ℕ, [], ◌∷◌, length, Some, None, true, false, IsTrue, vec_capacity, vec_len};
ghost use Rattle.q_logic.specs.Prelude.{Clause, IsIn, Literal, negation, clause_of, insert, ArePairs, IsBelow, positive, first_of, add, delete, copy_of, copied_literal, shares, in_list, slot, clauses_at};
ghost use Rattle.q_kernel.specs.Lists.{Has, AreApart};
ghost use Rattle.q_kernel.specs.Prelude.{slots};
ghost use Rattle.q_expand.specs.Tracks.{CanTake, HasTaken, KeepsClauses};
ghost use Rattle.q_expand.specs.Steps.{over_copies, split_steps, steps_for, all_split};

use crate::dependents::Dependents;
use q_kernel::{ClauseId, Kernel};
use q_logic::{Lit, holds};

/// What is to become of a clause.
#[derive(Clone, Copy, Debug, PartialEq, Eq)]
pub(crate) enum Part {
    /// It stays as it is.
    Stays,
    /// It turns into one over the copies.
    Turns,
    /// It gets u, and one over the copies comes beside it.
    Splits,
}

/// Splits the clauses of the dependents.
pub(crate) fn split_all(
    kernel: &mut Kernel,
    dependents: &Dependents,
    u: Lit,
    order: &[u32],
    first: u32,
    spare: &mut Vec<Lit>,
)
    requires sign { u.negative ≡ false }
    requires small { (1 ≤ first) × (first + length order.now ≤ 16777216) }
    requires apart { AreApart dependents.now.met }
    requires room { (c : ℕ) → Has dependents.now.met c
        → (C : Clause) × (slot (slots kernel.old) c ≡ Some C)
        × (length C + 1 ≤ vec_capacity spare.old) }
    requires steps { CanTake kernel.old
        (all_split u.var order.now first (clauses_at (slots kernel.old) dependents.now.met)) }
    ensures { HasTaken kernel.old kernel.new
        (all_split u.var order.now first (clauses_at (slots kernel.old) dependents.now.met)) }
{
    for i in 0..dependents.clauses() {
        split(kernel, dependents.clause(i), u, order, first, spare);
    }
}

// Splits a clause.
fn split(kernel: &mut Kernel, c: ClauseId, u: Lit, order: &[u32], first: u32, spare: &mut Vec<Lit>)
    requires sign { u.negative ≡ false }
    requires small { (1 ≤ first) × (first + length order.now ≤ 16777216) }
    requires room { (C : Clause) × (slot (slots kernel.old) c ≡ Some C)
        × (length C + 1 ≤ vec_capacity spare.old) }
    requires steps { (C : Clause) → slot (slots kernel.old) c ≡ Some C
        → CanTake kernel.old (split_steps u.var order.now first C) }
    ensures taken { (C : Clause) → slot (slots kernel.old) c ≡ Some C
        → HasTaken kernel.old kernel.new (split_steps u.var order.now first C) }
    ensures others { (d : ℕ) (D : Clause) → d ≢ c → slot (slots kernel.old) d ≡ Some D
        → slot (slots kernel.new) d ≡ Some D }
    ensures room { vec_capacity spare.new ≡ vec_capacity spare.old }
{
    match part_of(kernel.lits(c), u, order) {
        Part::Stays => {}
        Part::Turns => {
            add_over(kernel, c, u, order, first, spare);
            remove(kernel, c);
        }
        Part::Splits => {
            add_over(kernel, c, u, order, first, spare);
            add_with(kernel, c, u, spare);
            remove(kernel, c);
        }
    }
}

// What is to become of a clause.
fn part_of(clause: &[Lit], u: Lit, order: &[u32]) -> Part
    requires { u.negative ≡ false }
    ensures { (t : ℕ) → split_steps u.var order.now t clause.now
        ≡ steps_for result u.var order.now t clause.now }
{
    if holds(clause, u) {
        return Part::Stays;
    }
    if !shares(clause, order) {
        return Part::Stays;
    }
    if holds(clause, u.negated()) {
        return Part::Turns;
    }
    Part::Splits
}

// Whether the clause has a variable of the list.
fn shares(clause: &[Lit], order: &[u32]) -> bool
    ensures { result ≡ shares order.now clause.now }
{
    for k in clause {
        if is_listed(order, k.var()) {
            return true;
        }
    }
    false
}

fn is_listed(order: &[u32], var: u32) -> bool
    ensures { result ≡ in_list var order.now }
{
    for x in order {
        if *x == var {
            return true;
        }
    }
    false
}

// Adds the clause over the copies of one.
fn add_over(
    kernel: &mut Kernel,
    c: ClauseId,
    u: Lit,
    order: &[u32],
    first: u32,
    spare: &mut Vec<Lit>,
)
    requires sign { u.negative ≡ false }
    requires small { (1 ≤ first) × (first + length order.now ≤ 16777216) }
    requires room { (C : Clause) × (slot (slots kernel.old) c ≡ Some C)
        × (length C + 1 ≤ vec_capacity spare.old) }
    requires steps { (C : Clause) → slot (slots kernel.old) c ≡ Some C
        → CanTake kernel.old (add (first_of (over_copies u.var order.now first C))
        (over_copies u.var order.now first C) ∷ []) }
    ensures taken { (C : Clause) → slot (slots kernel.old) c ≡ Some C
        → HasTaken kernel.old kernel.new
        (add (first_of (over_copies u.var order.now first C)) (over_copies u.var order.now first C)
        ∷ []) }
    ensures keeps { KeepsClauses kernel.old kernel.new }
    ensures room { vec_capacity spare.new ≡ vec_capacity spare.old }
{
    kernel.sound();
    put_over(spare, kernel.lits(c), u, order, first);
    kernel.add_implied(spare);
}

// Adds a clause joined with u.
fn add_with(kernel: &mut Kernel, c: ClauseId, u: Lit, spare: &mut Vec<Lit>)
    requires sign { u.negative ≡ false }
    requires room { (C : Clause) × (slot (slots kernel.old) c ≡ Some C)
        × (length C + 1 ≤ vec_capacity spare.old) }
    requires steps { (C : Clause) → slot (slots kernel.old) c ≡ Some C
        → CanTake kernel.old (add (first_of (insert (positive u.var) C)) (insert (positive u.var) C)
        ∷ []) }
    ensures taken { (C : Clause) → slot (slots kernel.old) c ≡ Some C
        → HasTaken kernel.old kernel.new
        (add (first_of (insert (positive u.var) C)) (insert (positive u.var) C) ∷ []) }
    ensures keeps { KeepsClauses kernel.old kernel.new }
    ensures room { vec_capacity spare.new ≡ vec_capacity spare.old }
{
    kernel.sound();
    put_with(spare, kernel.lits(c), u);
    kernel.add_implied(spare);
}

// Deletes a clause that is implied.
fn remove(kernel: &mut Kernel, c: ClauseId)
    requires live { (C : Clause) × (slot (slots kernel.old) c ≡ Some C) }
    requires steps { (C : Clause) → slot (slots kernel.old) c ≡ Some C
        → CanTake kernel.old (delete (first_of C) C ∷ []) }
    ensures taken { (C : Clause) → slot (slots kernel.old) c ≡ Some C
        → HasTaken kernel.old kernel.new (delete (first_of C) C ∷ []) }
    ensures others { (d : ℕ) (D : Clause) → d ≢ c → slot (slots kernel.old) d ≡ Some D
        → slot (slots kernel.new) d ≡ Some D }
{
    kernel.sound();
    kernel.delete_implied(c);
}

// Writes the clause over the copies of one, with not u.
fn put_over(spare: &mut Vec<Lit>, clause: &[Lit], u: Lit, order: &[u32], first: u32)
    requires sign { u.negative ≡ false }
    requires small { (1 ≤ first) × (first + length order.now ≤ 16777216) }
    requires room { length clause.now + 1 ≤ vec_capacity spare.old }
    ensures items { spare.new.items ≡ over_copies u.var order.now first clause.now }
    ensures room { vec_capacity spare.new ≡ vec_capacity spare.old }
{
    let gone = u.negated();
    spare.clear();
    spare.push_reserved(gone);
    for k in clause {
        if !k.is(gone) {
            spare.push_reserved(image(*k, order, first));
        }
    }
    sort_lits(spare);
}

// Writes a clause joined with u.
fn put_with(spare: &mut Vec<Lit>, clause: &[Lit], u: Lit)
    requires ordered { ArePairs IsBelow clause.now }
    requires room { length clause.now + 1 ≤ vec_capacity spare.old }
    ensures items { spare.new.items ≡ insert u clause.now }
    ensures room { vec_capacity spare.new ≡ vec_capacity spare.old }
{
    spare.clear();
    spare.push_reserved(u);
    for k in clause {
        spare.push_reserved(*k);
    }
    sort_lits(spare);
}

// The literal of the copy, where its variable has one.
fn image(k: Lit, order: &[u32], first: u32) -> Lit
    requires { (1 ≤ first) × (first + length order.now ≤ 16777216) }
    ensures { result ≡ copied_literal order.now first k }
{
    Lit::new(copy_of(order, first, k.var()), k.negative())
}

// The copy of a variable, or the variable itself.
fn copy_of(order: &[u32], first: u32, var: u32) -> u32
    requires { (1 ≤ first) × (first + length order.now ≤ 16777216) }
    ensures value { result ≡ copy_of order.now first var }
    ensures range { (result ≡ var) ⊎ ((1 ≤ result) × (result < 2 ^ 31)) }
{
    for i in 0..order.len() {
        if order[i] == var {
            return first + i as u32;
        }
    }
    var
}

// Brings literals into order, each once.
fn sort_lits(lits: &mut Vec<Lit>)
    ensures items { lits.new.items ≡ clause_of lits.old.items }
    ensures capacity { vec_capacity lits.new ≡ vec_capacity lits.old }
{
    lits.sort_unstable();
    lits.dedup();
}
