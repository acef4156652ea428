//! A glance at short rows, before the trail is worked off in its order.
//!
//! Where variables are merged, all their clauses come to one literal, whose row grows to many thousand entries. The row of
//! each other literal is short, and the conflict stands some steps beyond it. Worked off in order, the long row
//! comes first and forces a literal for each of its clauses. So where a literal above the base has a long row, the
//! short rows are looked at first: those of the first literals, and of what is forced meanwhile.
//!
//! Sound since it does what propagation does: a clause beside the slot left out forces the one literal that is
//! left, or is falsified. Nothing is watched otherwise, and no literal counts as worked off, so propagation
//! goes on from the base, and loses nothing.
//!
//! Cost: a comparison where more than `FEW` literals stand above the base, else one count for each. Where some row is long,
//! as many rows of at most `SHORT` entries as a fourth of it has, so no more than a few times what the long row
//! costs. With a fixed number of rows (16) a ring of 1,333 takes 2.8 times the visits, since merges lie behind each
//! other on paths of any length. With a count for any number of literals the check of an adder takes 2 % more.
ghost use Rattle.std.specs.Prelude.{IfOk, IsTrue};
ghost use Rattle.q_prop.specs.Chains.{HasFalsified};
ghost use Rattle.q_prop.specs.Slots.{filled, without};
ghost use Rattle.q_prop.specs.Working.{IsGrown, IsReached};

use crate::chain::{Left, left_of};
use crate::clauses::{Clauses, clause_at};
use crate::rows::Entry;
use crate::trail::Trail;
use crate::watched::Watched;
use q_logic::{Lit, NoMemory};

/// A glance is worth its while where a row is longer.
const LONG: usize = 64;

/// And where no more literals stand above the base: the clauses of a merge have two.
const FEW: usize = 2;

/// It passes by rows that are longer.
const SHORT: usize = 16;

/// It looks at one literal of the trail for so many entries of the longest row.
const SHARE: usize = 4;

/// Looks at the short rows of the first literals from a base on, where one has a long row, and answers whether a clause
/// is falsified.
pub fn glance(
    watched: &Watched,
    skip: Option<usize>,
    trail: &mut Trail,
    base: usize,
) -> Result<bool, NoMemory>
    ensures reached { IsReached (filled (without watched.now.clauses.slots skip)) trail.old
        trail.new }
    ensures falsified { IfOk result (λ conflict. IsTrue conflict
        → HasFalsified (filled (without watched.now.clauses.slots skip)) trail.new) }
{
    if trail.len() > base.saturating_add(FEW) {
        return Ok(false);
    }
    let longest = longest_row(watched, trail, base);
    if longest <= LONG {
        return Ok(false);
    }
    let end = base.saturating_add(longest / SHARE);
    let mut head = base;
    while head < trail.len() && head < end {
        let lit = trail.at(head);
        if look_along(watched, skip, lit.negated(), trail)? {
            return Ok(true);
        }
        head += 1;
    }
    Ok(false)
}

// The length of the longest row among those of the negations of the literals from a base on.
fn longest_row(watched: &Watched, trail: &Trail, base: usize) -> usize {
    let mut longest = 0;
    for place in base..trail.len() {
        let lit = trail.at(place).negated();
        let count = watched.rows.count(lit, watched.rows.spot(lit));
        if count > longest {
            longest = count;
        }
    }
    longest
}

// Looks at the clauses of the row of a literal if it is short, and answers whether one is falsified.
fn look_along(
    watched: &Watched,
    skip: Option<usize>,
    lit: Lit,
    trail: &mut Trail,
) -> Result<bool, NoMemory>
    ensures reached { IsReached (filled (without watched.now.clauses.slots skip)) trail.old
        trail.new }
    ensures falsified { IfOk result (λ conflict. IsTrue conflict
        → HasFalsified (filled (without watched.now.clauses.slots skip)) trail.new) }
{
    let spot = watched.rows.spot(lit);
    let count = watched.rows.count(lit, spot);
    if count > SHORT {
        return Ok(false);
    }
    for i in 0..count {
        if look(&watched.clauses, skip, watched.rows.at(lit, spot, i), trail)? {
            return Ok(true);
        }
    }
    Ok(false)
}

// Forces the literal of an entry's clause that alone is not false, and answers whether all are.
fn look(
    clauses: &Clauses,
    skip: Option<usize>,
    entry: Entry,
    trail: &mut Trail,
) -> Result<bool, NoMemory>
    ensures grown { IsGrown (filled (without clauses.now.slots skip)) trail.old trail.new }
    ensures falsified { IfOk result (λ conflict. IsTrue conflict
        → HasFalsified (filled (without clauses.now.slots skip)) trail.new) }
{
    if trail.has(entry.blocker) {
        return Ok(false);
    }
    let at = entry.slot as usize;
    let Some(clause) = clause_at(clauses, skip, at) else {
        return Ok(false);
    };
    match left_of(clause, trail) {
        Left::Nothing => {
            trail.note_conflict(at);
            return Ok(true);
        }
        Left::One(lit) => {
            if !trail.has(lit) {
                trail.force(lit, at)?;
            }
        }
        Left::More => {}
    }
    Ok(false)
}
