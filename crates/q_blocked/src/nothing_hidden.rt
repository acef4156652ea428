//! Long clauses that give a set no hidden literal, as few of their literals show.
ghost use Rattle.std.specs.Prelude.{◌≡◌, ◌≢◌, ◌↔◌, true, IfOk, IsTrue};
ghost use Rattle.q_logic.specs.Prelude.{Literal, Clause, IsIn, IsTautology};
ghost use Rattle.q_kernel.specs.Prelude.{slots};
ghost use Rattle.q_blocked.specs.Walks.{IsBeside, GivesNone};

use q_kernel::{ClauseId, Kernel};
use q_logic::{Lit, NoMemory};
use q_rule::{Queue, clause_of};
use std::alloc::Global;

// A shorter clause is looked at as a whole.
const LONG: usize = 6;

/// Two places in a clause.
#[derive(Clone, Copy)]
struct Places {
    first: usize,
    second: usize,
}

const START: Places = Places {
    first: 0,
    second: 0,
};

/// For each long clause the places of two literals that were not in a set. They may be out of date: they are tested where they are
/// used.
#[derive(Drop)]
pub struct Hints {
    places: Vec<Places>,
}

impl Hints {
    pub(crate) fn new(alloc: Global) -> Hints {
        Hints {
            places: Vec::new(alloc),
        }
    }

    fn of(&self, d: ClauseId) -> Places {
        self.places.get(d as usize).copied().unwrap_or(START)
    }

    fn note(&mut self, d: ClauseId, places: Places) -> Result<(), NoMemory> {
        let at = d as usize;
        if self.places.len() <= at {
            self.places.resize(at + 1, START)?;
        }
        self.places[at] = places;
        Ok(())
    }
}

// Whether two literals of a clause are two, and none of them in the set.
#[inline(always)]
fn are_two_outside(set: &Queue, first: Lit, second: Lit) -> bool
    ensures { IsTrue result ↔ ((IsIn first set.now → ⊥) × (IsIn second set.now → ⊥)
        × (second ≢ first)) }
{
    !set.has(first) && !set.has(second) && !second.is(first)
}

/// Whether two literals of a clause show that it gives the set nothing: both because they are outside, which is mostly so and asked
/// first, or one whose negation is in the set.
#[inline(always)]
pub(crate) fn are_quiet(set: &Queue, first: Lit, second: Lit) -> bool
    requires { IsTautology set.now → ⊥ }
    ensures { result ≡ true → (D : Clause) → IsIn first D → IsIn second D → GivesNone set.now D }
{
    if are_two_outside(set, first, second) {
        return true;
    }
    if set.has(first.negated()) {
        return true;
    }
    set.has(second.negated())
}

// The place of the first literal from a place on that is not in the set.
fn outside_from(clause: &[Lit], set: &Queue, from: usize) -> Option<usize> {
    for place in from..clause.len() {
        if !set.has(clause[place]) {
            return Some(place);
        }
    }
    None
}

// The places of the first two literals that are not in the set, or of the only one.
fn outside(clause: &[Lit], set: &Queue) -> Option<Places> {
    let first = outside_from(clause, set, 0)?;
    let second = outside_from(clause, set, first.saturating_add(1)).unwrap_or(first);
    Some(Places { first, second })
}

// Whether the literals at two places show that the clause gives nothing.
#[inline]
fn shows_none(clause: &[Lit], set: &Queue, places: Places) -> bool
    requires { IsTautology set.now → ⊥ }
    ensures { result ≡ true → GivesNone set.now clause.now }
{
    if places.first >= clause.len() || places.second >= clause.len() {
        return false;
    }
    are_quiet(set, clause[places.first], clause[places.second])
}

// Whether a long clause shows that it gives nothing, by the literals of last time or by those that are found now.
fn long_gives_none(
    clause: &[Lit],
    set: &Queue,
    hints: &mut Hints,
    d: ClauseId,
) -> Result<bool, NoMemory>
    requires { IsTautology set.now → ⊥ }
    ensures { IfOk result (λ yes. yes ≡ true → GivesNone set.now clause.now) }
{
    if shows_none(clause, set, hints.of(d)) {
        return Ok(true);
    }
    let Some(places) = outside(clause, set) else {
        return Ok(false);
    };
    hints.note(d, places)?;
    Ok(shows_none(clause, set, places))
}

/// Whether the clause of an id is long, and a look at few of its literals shows that it gives the set no hidden literal; or is c, or
/// not live.
#[inline(always)]
pub fn gives_none(
    kernel: &Kernel,
    set: &Queue,
    hints: &mut Hints,
    c: ClauseId,
    d: ClauseId,
) -> Result<bool, NoMemory>
    requires { IsTautology set.now → ⊥ }
    ensures { IfOk result (λ yes.
        yes ≡ true → (D : Clause) → IsBeside (slots kernel.now) c d D → GivesNone set.now D) }
{
    if d == c {
        return Ok(true);
    }
    if !kernel.live(d) {
        return Ok(true);
    }
    let clause = clause_of(kernel, d);
    if clause.len() < LONG {
        return Ok(false);
    }
    let yes = long_gives_none(clause, set, hints, d)?;
    Ok(yes)
}
