//! Resolvents, and what a line keeps and takes away of one.
ghost use Rattle.std.specs.Prelude.{◌≡◌, ◌++◌, ◌∷◌, [], ℕ, None, map, OnOk};
ghost use Rattle.q_logic.specs.Prelude.{without};
ghost use Rattle.q_derive.specs.Traces.{resolvent};
ghost use Rattle.q_long.specs.Decided.{drops_of};
ghost use Rattle.q_extract.specs.Rows.{drops_in, said_next, values_next, AreSound, IsMore};
ghost use Rattle.q_resolve.specs.Sides.{sided};
ghost use Rattle.q_resolve.specs.Seats.{AreSeats};
ghost use Rattle.q_resolve.specs.Reduced.{front_of, back_of, IsJoined, IsSame};

use crate::leaves::Owner;
use crate::marked::Marked;
use crate::seats::seat;
use q_certificate::Table;
use q_extract::{Drops, no_drops, take_away};
use q_logic::{Bound, Lit, NoMemory};
use std::alloc::Global;

// The literals without one, each once.
fn join_without(row: &mut Marked, lits: &[Lit], lit: Lit) -> Result<(), NoMemory>
    ensures { OnOk result (IsJoined row.old (without lit lits.now) row.new) }
{
    for k in lits {
        if !k.is(lit) {
            join(row, *k)?;
        }
    }
    Ok(())
}

fn join(row: &mut Marked, lit: Lit) -> Result<(), NoMemory>
    ensures { OnOk result (IsJoined row.old (lit ∷ []) row.new) }
{
    if row.has(lit) {
        return Ok(());
    }
    row.push(lit)?;
    Ok(())
}

/// The resolvent of two lines, each literal once.
pub fn resolve(row: &mut Marked, first: &[Lit], second: &[Lit], pivot: Lit) -> Result<(), NoMemory>
    ensures { OnOk result (IsSame (resolvent first.now second.now pivot) row.new) }
{
    row.clear();
    join_without(row, first, pivot)?;
    join_without(row, second, pivot.negated())?;
    Ok(())
}

/// A literal as one of a term: a clause is read as the term that says that it is false.
pub fn side(owner: Owner, lit: Lit) -> Lit
    ensures { result ≡ sided owner lit }
{
    match owner {
        Owner::Exists => lit,
        Owner::Forall => lit.negated(),
    }
}

/// What the lines so far take away, and rows for what the next one keeps and takes away.
#[derive(Drop)]
pub struct Away {
    pub drops: Drops,
    kept: Vec<Lit>,
    taken: Vec<Lit>,
}

impl Away {
    pub fn new(alloc: Global) -> Away
        ensures sound { AreSound result.drops }
        ensures none { drops_in result.drops ≡ [] }
        ensures merges { result.drops.merges.items ≡ [] }
        ensures said { (x : ℕ) → said_next result.drops x ≡ None }
    {
        Away {
            drops: no_drops(alloc),
            kept: Vec::new(alloc),
            taken: Vec::new(alloc),
        }
    }
}

fn push_front(
    row: &mut Vec<Lit>,
    prefix: &[Bound],
    seats: &Table,
    owner: Owner,
    at: u64,
    parent: &[Lit],
) -> Result<(), NoMemory>
    requires { AreSeats prefix.now seats.now.items }
    ensures { OnOk result (row.new.items ≡ row.old.items ++ map (sided owner) (front_of prefix.now at
        parent.now)) }
{
    for k in parent {
        if seat(prefix, seats, *k) < at {
            row.push(side(owner, *k))?;
        }
    }
    Ok(())
}

fn push_back(
    row: &mut Vec<Lit>,
    prefix: &[Bound],
    seats: &Table,
    owner: Owner,
    at: u64,
    parent: &[Lit],
) -> Result<(), NoMemory>
    requires { AreSeats prefix.now seats.now.items }
    ensures { OnOk result (row.new.items ≡ row.old.items ++ map (sided owner) (back_of prefix.now at
        parent.now)) }
{
    for k in parent {
        if seat(prefix, seats, *k) >= at {
            row.push(side(owner, *k))?;
        }
    }
    Ok(())
}

/// Takes away all literals from a place on, and keeps those before it.
pub fn put_away(
    away: &mut Away,
    prefix: &[Bound],
    seats: &Table,
    owner: Owner,
    at: u64,
    parent: &[Lit],
) -> Result<(), NoMemory>
    requires seats { AreSeats prefix.now seats.now.items }
    requires sound { AreSound away.old.drops }
    ensures more { OnOk result (IsMore away.old.drops away.new.drops (drops_of
        (values_next away.old.drops (map (sided owner) (back_of prefix.now at parent.now)))
        (values_next away.old.drops (map (sided owner) (front_of prefix.now at parent.now))))) }
    ensures next { OnOk result ((x : ℕ) → said_next away.new.drops x ≡ None) }
{
    away.kept.clear();
    push_front(&mut away.kept, prefix, seats, owner, at, parent)?;
    away.taken.clear();
    push_back(&mut away.taken, prefix, seats, owner, at, parent)?;
    take_away(&mut away.drops, &away.taken, &away.kept)?;
    Ok(())
}
