//! What lines say of variables of the owner that they hold in both signs, by merges: a reduction says what its parent says; where both
//! lines of a resolvent hold a variable in different signs, the pivot chooses between what they say.
ghost use Rattle.std.specs.Prelude.{◌≡◌, ◌<◌, ◌||◌, ℕ, Some, None, false, length, IfOk, OnOk};
ghost use Rattle.q_logic.specs.Prelude.{negation, has};
ghost use Rattle.q_extract.specs.Saying.{said_in};
ghost use Rattle.q_extract.specs.Rows.{said_next, AreSound};
ghost use Rattle.q_resolve.specs.Seats.{AreSeats};
ghost use Rattle.q_resolve.specs.Merging.{value_sign as value_sign_spec, said_for, IsMergeOf, IsSaidOne, IsSaidMerged, IsSaidSame, IsSaidUpto, IsKeptSaid, IsKeptOne};

use crate::leaves::Owner;
use crate::marked::Marked;
use crate::resolving::side;
use crate::tests::is_both;
use q_certificate::Table;
use q_extract::{Drops, Merge, Said, Sayings, merge, say};
use q_logic::{Bound, Lit, NoMemory};

// Whether a line holds a variable, of which this is a literal.
fn holds_either(marked: &Marked, lit: Lit) -> bool
    ensures { result ≡ has lit marked.now || has (negation lit) marked.now }
{
    if marked.has(lit) {
        return true;
    }
    marked.has(lit.negated())
}

fn value_sign(owner: Owner, positive: bool) -> bool
    ensures { result ≡ value_sign_spec owner positive }
{
    match owner {
        Owner::Exists => positive,
        Owner::Forall => !positive,
    }
}

// What the line with a number says of the variable of a positive literal.
fn said_of(said: &Sayings, owner: Owner, number: usize, marked: &Marked, lit: Lit) -> Said
    requires { lit.negative ≡ false }
    ensures { result ≡ said_for owner (said_in said.now number) marked.now lit.var }
{
    match said.get(number, lit.var()) {
        None => Said::Constant(value_sign(owner, marked.has(lit))),
        Some(merge) => Said::Merged(merge),
    }
}

// The merge by which a resolvent says what a variable is of which it holds both signs: that of the one line that holds it, or a new one.
fn merge_of(
    drops: &mut Drops,
    said: &Sayings,
    owner: Owner,
    i: usize,
    j: usize,
    first: &Marked,
    second: &Marked,
    pivot: Lit,
    lit: Lit,
) -> Result<Option<usize>, NoMemory>
    requires positive { lit.negative ≡ false }
    requires sound { AreSound drops.old }
    requires below { (m : ℕ) → (x : ℕ) → (n : ℕ) → said_in said.now m x ≡ Some n
        → n < length drops.old.merges.items }
    ensures { IfOk result (IsMergeOf owner pivot (said_in said.now i) (said_in said.now j) first.now
        second.now lit.var drops.old drops.new) }
{
    if !holds_either(second, lit) {
        return Ok(said.get(i, lit.var()));
    }
    if !holds_either(first, lit) {
        return Ok(said.get(j, lit.var()));
    }
    let made = Merge {
        pivot: side(owner, pivot),
        first: said_of(said, owner, i, first, lit),
        second: said_of(said, owner, j, second, lit),
    };
    let place = merge(drops, made)?;
    Ok(Some(place))
}

// The next line that takes something away says this of the variable, if it is anything.
fn say_one(drops: &mut Drops, var: u32, merge: Option<usize>) -> Result<(), NoMemory>
    requires sound { AreSound drops.old }
    requires there { (n : ℕ) → merge ≡ Some n → n < length drops.old.merges.items }
    ensures { OnOk result (IsSaidOne drops.old drops.new var merge) }
{
    match merge {
        None => Ok(()),
        Some(place) => {
            say(drops, var, place)?;
            Ok(())
        }
    }
}

// A variable of which the resolvent holds both signs.
fn say_merged(
    drops: &mut Drops,
    said: &Sayings,
    owner: Owner,
    i: usize,
    j: usize,
    first: &Marked,
    second: &Marked,
    pivot: Lit,
    lit: Lit,
) -> Result<(), NoMemory>
    requires positive { lit.negative ≡ false }
    requires sound { AreSound drops.old }
    requires below { (m : ℕ) → (x : ℕ) → (n : ℕ) → said_in said.now m x ≡ Some n
        → n < length drops.old.merges.items }
    ensures { OnOk result (IsSaidMerged owner pivot (said_in said.now i) (said_in said.now j) first.now
        second.now lit.var drops.old drops.new) }
{
    let made = merge_of(drops, said, owner, i, j, first, second, pivot, lit)?;
    say_one(drops, lit.var(), made)?;
    Ok(())
}

/// What a resolvent says of all variables of which it holds both signs. Its literals are marked, and those of both lines.
pub fn say_resolved(
    drops: &mut Drops,
    said: &Sayings,
    prefix: &[Bound],
    seats: &Table,
    owner: Owner,
    i: usize,
    j: usize,
    first: &Marked,
    second: &Marked,
    parent: &Marked,
    pivot: Lit,
) -> Result<(), NoMemory>
    requires seats { AreSeats prefix.now seats.now.items }
    requires sound { AreSound drops.old }
    requires fresh { (x : ℕ) → said_next drops.old x ≡ None }
    requires below { (m : ℕ) → (x : ℕ) → (n : ℕ) → said_in said.now m x ≡ Some n
        → n < length drops.old.merges.items }
    ensures { OnOk result (IsSaidUpto owner prefix.now pivot (said_in said.now i) (said_in said.now j)
        first.now second.now parent.now parent.now drops.old drops.new) }
{
    let lits = parent.as_slice();
    for k in lits {
        if is_both(prefix, seats, parent, *k) {
            say_merged(drops, said, owner, i, j, first, second, pivot, *k)?;
        }
    }
    Ok(())
}

/// A reduction of the line with a number says the same.
pub fn say_same(
    drops: &mut Drops,
    said: &Sayings,
    number: usize,
    source: &[Lit],
) -> Result<(), NoMemory>
    requires sound { AreSound drops.old }
    requires fresh { (x : ℕ) → said_next drops.old x ≡ None }
    requires below { (m : ℕ) → (x : ℕ) → (n : ℕ) → said_in said.now m x ≡ Some n
        → n < length drops.old.merges.items }
    ensures { OnOk result (IsSaidSame (said_in said.now number) source.now drops.old drops.new) }
{
    for k in source {
        say_one(drops, k.var(), said.get(number, k.var()))?;
    }
    Ok(())
}

/// A line says what its parent says of the variables that it still holds in both signs. Its literals are marked.
pub fn keep(
    said: &mut Sayings,
    drops: &Drops,
    prefix: &[Bound],
    seats: &Table,
    own: &Marked,
    number: usize,
) -> Result<(), NoMemory>
    requires seats { AreSeats prefix.now seats.now.items }
    requires later { (x : ℕ) → said_in said.old number x ≡ None }
    ensures { OnOk result (IsKeptSaid prefix.now own.now number (said_next drops.now) said.old
        said.new) }
{
    let lits = own.as_slice();
    for k in lits {
        if is_both(prefix, seats, own, *k) {
            keep_one(said, drops, number, k.var())?;
        }
    }
    Ok(())
}

fn keep_one(said: &mut Sayings, drops: &Drops, number: usize, var: u32) -> Result<(), NoMemory>
    ensures { OnOk result (IsKeptOne number var (said_next drops.now) said.old said.new) }
{
    match drops.said.get(drops.guards.len(), var) {
        None => Ok(()),
        Some(merge) => {
            said.put(number, var, merge)?;
            Ok(())
        }
    }
}
