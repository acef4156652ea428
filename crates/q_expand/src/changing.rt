//! The steps of an expansion.
ghost use Rattle.std.specs.Prelude.{◌≡◌, ◌≢◌, ◌↔◌, IsTrue, false, ◌≤◌, ◌<◌, ◌+◌, ℕ, [], ◌∷◌, length, Some, None, true, slice_get};
ghost use Rattle.q_logic.specs.Prelude.{Clause, IsIn, IsBelow, ArePairs, fresh, add, delete, slot, live};
ghost use Rattle.q_kernel.specs.Prelude.{slots};
ghost use Rattle.q_expand.specs.Tracks.{CanTake, HasTaken, KeepsClauses};
ghost use Rattle.q_expand.specs.Steps.{each_with, copy_step, of_sign, linked, link_steps, unlink_steps, AreLinkable, HasCopy, HaveCopies};

use q_kernel::{ClauseId, Kernel};
use q_logic::Lit;

/// Puts a copy of each variable directly after it.
pub(crate) fn put_copies(kernel: &mut Kernel, order: &[u32], first: u32)
    requires small { first + length order.now ≤ 16777216 }
    requires steps { CanTake kernel.old (each_with copy_step order.now first) }
    ensures taken { HasTaken kernel.old kernel.new (each_with copy_step order.now first) }
    ensures same { slots kernel.new ≡ slots kernel.old }
{
    for i in 0..order.len() {
        put_copy(kernel, order[i], first + i as u32);
    }
}

// Puts a copy directly after its original.
fn put_copy(kernel: &mut Kernel, x: u32, copy: u32)
    requires { CanTake kernel.old (copy_step x copy) }
    ensures taken { HasTaken kernel.old kernel.new (copy_step x copy) }
    ensures same { slots kernel.new ≡ slots kernel.old }
{
    kernel.sound();
    kernel.fresh(copy, x);
}

/// Makes each copy equal to its original where u is true.
pub(crate) fn link_all(kernel: &mut Kernel, u: Lit, order: &[u32], first: u32)
    requires copies { HaveCopies u order.now first }
    requires steps { CanTake kernel.old (each_with (link_steps u.var) order.now first) }
    ensures taken { HasTaken kernel.old kernel.new (each_with (link_steps u.var) order.now first) }
    ensures keeps { KeepsClauses kernel.old kernel.new }
{
    for i in 0..order.len() {
        link(kernel, u, order[i], first + i as u32);
    }
}

// The same for one variable.
fn link(kernel: &mut Kernel, u: Lit, x: u32, copy: u32)
    requires copies { HasCopy u x copy }
    requires steps { CanTake kernel.old (link_steps u.var x copy) }
    ensures taken { HasTaken kernel.old kernel.new (link_steps u.var x copy) }
    ensures keeps { KeepsClauses kernel.old kernel.new }
{
    let copy = Lit::new(copy, false);
    let original = Lit::new(x, true);
    add_link(kernel, u, copy, original);
    add_link(kernel, u, copy.negated(), original.negated());
}

// Adds the clause of a, not u and b by the pivot a.
fn add_link(kernel: &mut Kernel, u: Lit, a: Lit, b: Lit)
    requires linkable { AreLinkable u a b }
    requires steps { CanTake kernel.old (add (Some a) (linked u.var a b) ∷ []) }
    ensures taken { HasTaken kernel.old kernel.new (add (Some a) (linked u.var a b) ∷ []) }
    ensures keeps { KeepsClauses kernel.old kernel.new }
{
    kernel.sound();
    let clause = link_clause(u, a, b);
    kernel.add_pivot(a, &clause);
}

// The literals a, not u and b, of which a has the greatest variable.
fn link_clause(u: Lit, a: Lit, b: Lit) -> [Lit; 3]
    requires linkable { AreLinkable u a b }
    ensures clause { result ≡ linked u.var a b }
    ensures ordered { ArePairs IsBelow (linked u.var a b) }
    ensures first { IsIn a (linked u.var a b) }
    ensures last { IsIn b (linked u.var a b) }
{
    if u.var() < b.var() {
        [u.negated(), b, a]
    } else {
        [b, u.negated(), a]
    }
}

/// Takes the equalities away again.
pub(crate) fn unlink_all(kernel: &mut Kernel, u: Lit, order: &[u32], first: u32)
    requires copies { HaveCopies u order.now first }
    requires steps { CanTake kernel.old (each_with (unlink_steps u.var) order.now first) }
    ensures taken { HasTaken kernel.old kernel.new
        (each_with (unlink_steps u.var) order.now first) }
{
    for i in 0..order.len() {
        unlink(kernel, u, order[i], first + i as u32);
    }
}

// The same for one variable.
fn unlink(kernel: &mut Kernel, u: Lit, x: u32, copy: u32)
    requires copies { HasCopy u x copy }
    requires steps { CanTake kernel.old (unlink_steps u.var x copy) }
    ensures taken { HasTaken kernel.old kernel.new (unlink_steps u.var x copy) }
{
    let copy = Lit::new(copy, false);
    let original = Lit::new(x, true);
    delete_link(kernel, u, copy, original);
    delete_link(kernel, u, copy.negated(), original.negated());
}

// Deletes the clause of a, not u and b by the pivot b.
fn delete_link(kernel: &mut Kernel, u: Lit, a: Lit, b: Lit)
    requires linkable { AreLinkable u a b }
    requires steps { CanTake kernel.old (delete (Some b) (linked u.var a b) ∷ []) }
    ensures { HasTaken kernel.old kernel.new (delete (Some b) (linked u.var a b) ∷ []) }
{
    kernel.sound();
    let clause = link_clause(u, a, b);
    if let Some(id) = find_clause(kernel, &clause, a) {
        kernel.delete_pivot(id, b);
    }
}

// The id of a clause, by one of its literals.
fn find_clause(kernel: &Kernel, clause: &[Lit], lit: Lit) -> Option<ClauseId>
    requires { IsIn lit clause.now }
    ensures some { (id : ℕ) → result ≡ Some id → slot (slots kernel.now) id ≡ Some clause.now }
    ensures none { result ≡ None → IsIn clause.now (live (slots kernel.now)) → ⊥ }
{
    for id in kernel.holders(lit) {
        if is_same(kernel.lits(id), clause) {
            return Some(id);
        }
    }
    None
}

// Whether two clauses are equal.
fn is_same(one: &[Lit], other: &[Lit]) -> bool
    ensures { IsTrue result ↔ (one.now ≡ other.now) }
{
    if one.len() != other.len() {
        return false;
    }
    for i in 0..one.len() {
        if !one[i].is(other[i]) {
            return false;
        }
    }
    true
}
