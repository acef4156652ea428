//! What the reductions of a proof take away, in the order of its lines. The literals that a line keeps stand once for all that
//! it takes away; for each variable the places of its drops are linked from the last to the first. Which of the variables are
//! merged is said by the number of what the line keeps.
ghost use Rattle.std.specs.Prelude.{◌≡◌, ◌<◌, ◌++◌, ◌∷◌, [], None, ℕ, length, slice_get, IfOk, OnOk};
ghost use Rattle.q_long.specs.Decided.{drops_of};
ghost use Rattle.q_extract.specs.Saying.{said_in};
ghost use Rattle.q_extract.specs.Merges.{IsSaidBelow, merge_circuits, value_at};
ghost use Rattle.q_extract.specs.Rows.{drops_in, guards_in, kept_in, values_next, AreSound, IsMore, IsMoreOver, IsMergeMore, IsSayingMore};

use crate::said::{Merge, Sayings};
use q_certificate::{Table, look, put};
use q_logic::{Clauses, Lit, NoMemory};
use std::alloc::Global;

/// A literal that a line takes away, the number of those that it keeps, and the place of the drop of its variable before it.
#[derive(Clone, Copy)]
pub struct Fall {
    pub lit: Lit,
    pub guard: usize,
    pub before: Option<u64>,
}

#[derive(Drop)]
pub struct Drops {
    pub guards: Clauses,
    pub row: Vec<Fall>,
    pub last: Table,
    pub merges: Vec<Merge>,
    pub said: Sayings,
}

/// No drops. They take no memory.
pub fn no_drops(alloc: Global) -> Drops
    ensures sound { AreSound result }
    ensures none { drops_in result ≡ [] }
    ensures merges { result.merges.items ≡ [] }
    ensures said { (g : ℕ) → (x : ℕ) → said_in result.said g x ≡ None }
{
    Drops {
        guards: Clauses::new(alloc),
        row: Vec::new(alloc),
        last: Table::new(alloc),
        merges: Vec::new(alloc),
        said: Sayings::new(alloc),
    }
}

/// What two lines say of a variable of which they hold different signs, by its place.
pub fn merge(drops: &mut Drops, merge: Merge) -> Result<usize, NoMemory>
    requires sound { AreSound drops.old }
    requires first { IsSaidBelow (length drops.old.merges.items) merge.first }
    requires second { IsSaidBelow (length drops.old.merges.items) merge.second }
    ensures { IfOk result (IsMergeMore drops.old drops.new merge) }
{
    let place = drops.merges.len();
    drops.merges.push(merge)?;
    Ok(place)
}

/// The next line that takes something away has this merge for the variable.
pub fn say(drops: &mut Drops, var: u32, merge: usize) -> Result<(), NoMemory>
    requires sound { AreSound drops.old }
    requires there { merge < length drops.old.merges.items }
    ensures { OnOk result (IsSayingMore drops.old drops.new var merge) }
{
    let guard = drops.guards.len();
    drops.said.put(guard, var, merge)?;
    Ok(())
}

/// What one line takes away, and what it keeps.
pub fn take_away(drops: &mut Drops, taken: &[Lit], kept: &[Lit]) -> Result<(), NoMemory>
    requires { AreSound drops.old }
    ensures more { OnOk result (IsMore drops.old drops.new (drops_of (values_next drops.old taken.now)
        (values_next drops.old kept.now))) }
    ensures guards { OnOk result (drops.new.guards ≡ drops.old.guards ++ kept.now ∷ []) }
{
    let guard = drops.guards.len();
    drops.guards.push(kept)?;
    for lit in taken {
        drop_one(drops, *lit, guard)?;
    }
    Ok(())
}

fn drop_one(drops: &mut Drops, lit: Lit, guard: usize) -> Result<(), NoMemory>
    requires sound { AreSound drops.old }
    requires guard { guard < length drops.old.guards }
    ensures { OnOk result (IsMoreOver drops.old drops.new (record {
      value = value_at (merge_circuits drops.old.merges.items) (said_in drops.old.said guard) lit;
      kept = kept_in (slice_get (guards_in drops.old) guard);
    } ∷ [])) }
{
    let before = look(&drops.last, lit.var());
    let place = drops.row.len() as u64;
    drops.row.push(Fall { lit, guard, before })?;
    put(&mut drops.last, lit.var(), Some(place))?;
    Ok(())
}
