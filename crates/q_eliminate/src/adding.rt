//! The resolvents come.
ghost use Rattle.std.specs.Prelude.{◌≡◌, ◌≤◌, ◌+◌, [], length, vec_capacity};
ghost use Rattle.q_logic.specs.Prelude.{negation, size_of, put_unless_tautology, resolvent, resolve_one, resolve_all, clauses_at};
ghost use Rattle.q_kernel.specs.Prelude.{slots};
ghost use Rattle.q_eliminate.specs.Sides.{clause_in, IsParent, AreParents};
ghost use Rattle.q_eliminate.specs.Growing.{CanGrow, HasGrown};

use crate::resolving::resolve;
use q_kernel::{ClauseId, Kernel};
use q_logic::Lit;
use q_rule::is_tautology;

/// Adds the resolvents on a literal of some clauses with others. The buffer takes one of them at a time.
pub fn add_resolvents(
    kernel: &mut Kernel,
    buffer: &mut Vec<Lit>,
    lit: Lit,
    ids: &[ClauseId],
    others: &[ClauseId],
)
    requires ids { AreParents (slots kernel.old) lit ids.now }
    requires others { AreParents (slots kernel.old) (negation lit) others.now }
    requires buffer { size_of (clauses_at (slots kernel.old) ids.now)
        + size_of (clauses_at (slots kernel.old) others.now) ≤ vec_capacity buffer.old }
    requires room { CanGrow kernel.old
        (resolve_all lit (clauses_at (slots kernel.old) ids.now)
        (clauses_at (slots kernel.old) others.now)) }
    ensures { HasGrown kernel.old kernel.new
        (resolve_all lit (clauses_at (slots kernel.old) ids.now)
        (clauses_at (slots kernel.old) others.now)) }
{
    for c in ids {
        add_with(kernel, buffer, lit, *c, others);
    }
}

// Adds the resolvents of one clause with others.
fn add_with(kernel: &mut Kernel, buffer: &mut Vec<Lit>, lit: Lit, c: ClauseId, others: &[ClauseId])
    requires parent { IsParent (slots kernel.old) lit c }
    requires others { AreParents (slots kernel.old) (negation lit) others.now }
    requires buffer { length (clause_in (slots kernel.old) c)
        + size_of (clauses_at (slots kernel.old) others.now) ≤ vec_capacity buffer.old }
    requires room { CanGrow kernel.old
        (resolve_one lit (clause_in (slots kernel.old) c)
        (clauses_at (slots kernel.old) others.now)) }
    ensures grown { HasGrown kernel.old kernel.new
        (resolve_one lit (clause_in (slots kernel.old) c)
        (clauses_at (slots kernel.old) others.now)) }
    ensures buffer { vec_capacity buffer.new ≡ vec_capacity buffer.old }
{
    for d in others {
        add_one(kernel, buffer, lit, c, *d);
    }
}

// Adds the resolvent of two clauses, unless it is a tautology.
fn add_one(kernel: &mut Kernel, buffer: &mut Vec<Lit>, lit: Lit, c: ClauseId, d: ClauseId)
    requires parent { IsParent (slots kernel.old) lit c }
    requires other { IsParent (slots kernel.old) (negation lit) d }
    requires buffer { length (clause_in (slots kernel.old) c)
        + length (clause_in (slots kernel.old) d) ≤ vec_capacity buffer.old }
    requires room { CanGrow kernel.old
        (put_unless_tautology (resolvent lit (clause_in (slots kernel.old) c)
        (clause_in (slots kernel.old) d)) []) }
    ensures grown { HasGrown kernel.old kernel.new
        (put_unless_tautology (resolvent lit (clause_in (slots kernel.old) c)
        (clause_in (slots kernel.old) d)) []) }
    ensures buffer { vec_capacity buffer.new ≡ vec_capacity buffer.old }
{
    kernel.sound();
    resolve(kernel.lits(c), kernel.lits(d), lit, buffer);
    if !is_tautology(buffer) {
        kernel.add_implied(buffer);
    }
}
