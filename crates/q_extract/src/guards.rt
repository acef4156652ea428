//! Guards: a guard is the conjunction of what a line keeps. Its circuit is made when a drop of the line first asks for it, and serves
//! all drops of the line from then on, since whatever it reads has its circuit by then and keeps it.
ghost use Rattle.std.specs.Prelude.{◌≡◌, ◌==◌, if◌then◌else◌, ℕ, Some, None, false, ◌<◌, length, slice_get, IfOk};
ghost use Rattle.q_certificate.specs.Prelude.{look_at, AreLiterals};
ghost use Rattle.q_extract.specs.Saying.{said_in};
ghost use Rattle.q_extract.specs.Merges.{AreNodes, merge_circuits, value_at};
ghost use Rattle.q_extract.specs.Rows.{guards_in, kept_in, AreSound};
ghost use Rattle.q_extract.specs.Built.{AreHeld, IsAlike, IsEvery, IsGuard, IsNoneHeld};

use crate::drops::Drops;
use crate::merging::{choose, node};
use q_aig::{Aig, constant, negate};
use q_certificate::Tables;
use q_logic::{Lit, NoMemory};
use std::alloc::Global;

/// A row for the circuits of guards, none of which is made.
pub fn nothing_held(alloc: Global, guards: usize) -> Result<Vec<Option<u64>>, NoMemory>
    ensures { IfOk result (λ held. IsNoneHeld guards held.items) }
{
    let mut held = Vec::new(alloc);
    held.resize(guards, None)?;
    Ok(held)
}

fn held_at(held: &[Option<u64>], guard: usize) -> Option<u64>
    requires { guard < length held.now }
    ensures { result ≡ look_at held.now guard }
{
    held[guard]
}

fn hold(held: &mut Vec<Option<u64>>, guard: usize, lit: u64)
    requires { guard < length held.old.items }
    ensures size { length held.new.items ≡ length held.old.items }
    ensures put { (x : ℕ) → look_at held.new.items x ≡ (if x == guard then Some lit
        else look_at held.old.items x) }
{
    held[guard] = Some(lit);
}

// The literal that is true where its variable is.
fn positive(lit: Lit) -> Lit
    ensures { result ≡ record { var = lit.var; negative = false } }
{
    if lit.negative() {
        return lit.negated();
    }
    lit
}

// Whether a variable has the value that a guard asks for.
fn part_of(
    aig: &mut Aig,
    tables: &Tables,
    drops: &Drops,
    nodes: &[u64],
    guard: usize,
    lit: Lit,
) -> Result<u64, NoMemory>
    requires inputs { AreLiterals aig.old tables.now.inputs.items }
    requires circuits { AreLiterals aig.old tables.now.circuits.items }
    requires drops { AreSound drops.now }
    requires nodes { AreNodes aig.old (merge_circuits drops.now.merges.items) nodes.now }
    ensures { IfOk result (IsAlike aig.old aig.new tables.now.inputs.items
        tables.now.circuits.items (value_at (merge_circuits drops.now.merges.items)
        (said_in drops.now.said guard) lit)) }
{
    match drops.said.get(guard, lit.var()) {
        None => Ok(tables.literal(lit)),
        Some(merge) => {
            let own = tables.literal(positive(lit));
            let value = node(nodes, merge);
            let part = choose(aig, own, value, negate(value))?;
            Ok(part)
        }
    }
}

// The conjunction of what a line keeps.
fn every_of(
    aig: &mut Aig,
    tables: &Tables,
    drops: &Drops,
    nodes: &[u64],
    guard: usize,
) -> Result<u64, NoMemory>
    requires inputs { AreLiterals aig.old tables.now.inputs.items }
    requires circuits { AreLiterals aig.old tables.now.circuits.items }
    requires drops { AreSound drops.now }
    requires nodes { AreNodes aig.old (merge_circuits drops.now.merges.items) nodes.now }
    requires guard { guard < length drops.now.guards }
    ensures { IfOk result (IsEvery aig.old aig.new tables.now.inputs.items
        tables.now.circuits.items (kept_in (slice_get (guards_in drops.now) guard))) }
{
    let term = drops.guards.clause(guard);
    let mut every = constant(true);
    for k in term {
        let part = part_of(aig, tables, drops, nodes, guard, *k)?;
        every = aig.and(every, part)?;
    }
    Ok(every)
}

/// The circuit of a guard, which is made if it isn't there.
pub fn guard_of(
    aig: &mut Aig,
    tables: &Tables,
    drops: &Drops,
    nodes: &[u64],
    held: &mut Vec<Option<u64>>,
    guard: usize,
) -> Result<u64, NoMemory>
    requires inputs { AreLiterals aig.old tables.now.inputs.items }
    requires circuits { AreLiterals aig.old tables.now.circuits.items }
    requires drops { AreSound drops.now }
    requires nodes { AreNodes aig.old (merge_circuits drops.now.merges.items) nodes.now }
    requires held { AreHeld aig.old (guards_in drops.now) held.old.items }
    requires guard { guard < length drops.now.guards }
    ensures { IfOk result (IsGuard aig.old aig.new tables.now.inputs.items tables.now.circuits.items
        (guards_in drops.now) held.old.items held.new.items
        (kept_in (slice_get (guards_in drops.now) guard))) }
{
    match held_at(held, guard) {
        Some(lit) => Ok(lit),
        None => {
            let every = every_of(aig, tables, drops, nodes, guard)?;
            hold(held, guard, every);
            Ok(every)
        }
    }
}
