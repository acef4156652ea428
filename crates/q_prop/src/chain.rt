//! Propagation by hints. The hints name the clauses in the order in which they are taken; each is looked at
//! once, and nothing is watched. Each hint but the last leaves one literal, which is then known.
ghost use Rattle.std.specs.Prelude.{◌≡◌, ◌↔◌, ◌<◌, [], length, IfOk, OnOk, IsTrue, MatchBool};
ghost use Rattle.q_logic.specs.Prelude.{Follows, Chained};
ghost use Rattle.q_prop.specs.Hinting.{IsLeft, IsLearned, left_in, IsOther, IsNoOther};
ghost use Rattle.q_prop.specs.Slots.{without};

use crate::clauses::{Clauses, clause_at};
use crate::propagation::assume;
use crate::trail::Trail;
use q_logic::{Lit, NoMemory};

/// The literals of a clause whose negations are not known.
#[derive(Clone, Copy)]
pub enum Left {
    Nothing,
    One(Lit),
    More,
}

pub fn left_of(clause: &[Lit], trail: &Trail) -> Left
    ensures { IsLeft trail.now clause.now result }
{
    let mut left: Option<Lit> = None;
    for lit in clause {
        if trail.has(lit.negated()) {
            continue;
        }
        if is_other(left, *lit) {
            return Left::More;
        }
        left = Some(*lit);
    }
    as_left(left)
}

// Whether there is a literal, and it is not this one.
fn is_other(left: Option<Lit>, lit: Lit) -> bool
    ensures { MatchBool result (IsOther left lit) (IsNoOther left lit) }
{
    match left {
        Some(first) => !first.is(lit),
        None => false,
    }
}

fn as_left(left: Option<Lit>) -> Left
    ensures { result ≡ left_in left }
{
    match left {
        Some(lit) => Left::One(lit),
        None => Left::Nothing,
    }
}

fn learn(trail: &mut Trail, lit: Lit) -> Result<(), NoMemory>
    ensures { OnOk result (IsLearned lit trail.old trail.new) }
{
    if trail.has(lit) {
        return Ok(());
    }
    trail.push(lit)
}

// Whether the hints lead from the literals of the trail to a clause that is refuted.
fn follow(
    clauses: &Clauses,
    skip: Option<usize>,
    hints: &[usize],
    trail: &mut Trail,
) -> Result<bool, NoMemory>
    ensures { IfOk result (λ yes. IsTrue yes ↔ Follows (without clauses.now.slots skip) trail.old
        hints.now) }
{
    for i in 0..hints.len() {
        let Some(clause) = clause_at(clauses, skip, hints[i]) else {
            return Ok(false);
        };
        match left_of(clause, trail) {
            Left::Nothing => return Ok(i + 1 == hints.len()),
            Left::One(lit) => learn(trail, lit)?,
            Left::More => return Ok(false),
        }
    }
    Ok(false)
}

/// Whether the hints show that the literals are implied, over the slots but one. The trail is used up.
pub fn chained(
    clauses: &Clauses,
    skip: Option<usize>,
    lits: &[Lit],
    hints: &[usize],
    trail: &mut Trail,
) -> Result<bool, NoMemory>
    ensures { IfOk result (λ yes. IsTrue yes ↔ Chained (without clauses.now.slots skip) lits.now
        hints.now) }
{
    trail.truncate(0);
    if assume(trail, lits)? {
        return Ok(hints.is_empty());
    }
    follow(clauses, skip, hints, trail)
}
