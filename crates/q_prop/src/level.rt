//! A level above the root: the negations of a clause are propagated once, and those of each clause that is joined with it
//! above them.
ghost use Rattle.std.specs.Prelude.{◌≡◌, ◌↔◌, ◌++◌, IsTrue, IfOk, length, MatchBool};
ghost use Rattle.q_logic.specs.Prelude.{Implied};
ghost use Rattle.q_prop.specs.Levels.{IsLevel};
ghost use Rattle.q_prop.specs.Slots.{filled, without};
ghost use Rattle.q_prop.specs.Tails.{AreImplied};
ghost use Rattle.q_prop.specs.Watched.{IsCovered, IsRootOf, IsMoved};
ghost use Rattle.q_prop.specs.Working.{IsLonger};

use crate::propagation::{assume, propagate};
use crate::tails::Tails;
use crate::trail::Trail;
use crate::watched::Watched;
use q_logic::{Lit, NoMemory};

/// The clause whose negations are known, the slot that is left out, and the slots with clauses of at most one literal.
#[derive(Clone, Copy)]
pub struct Level<'a> {
    pub lits: &'a [Lit],
    pub skip: Option<usize>,
    pub singles: &'a [u32],
}

/// Whether the literals are implied with each of the tails.
pub fn query_each(
    watched: &mut Watched,
    level: &Level,
    trail: &mut Trail,
    tails: &Tails,
) -> Result<bool, NoMemory>
    requires rooted { IsRootOf watched.old level.now.skip level.now.singles.now trail.old }
    requires covered { IsCovered watched.old }
    ensures same { trail.new ≡ trail.old }
    ensures moved { IsMoved trail.old watched.old watched.new }
    ensures exact { IfOk result (λ yes. IsTrue yes
        ↔ AreImplied (filled (without watched.old.clauses.slots level.now.skip)) level.now.lits.now
        tails.now) }
{
    let root = trail.len();
    let result = search_each(watched, level, trail, tails);
    trail.truncate(root);
    result
}

// The same, with the negations of the literals left on the trail.
fn search_each(
    watched: &mut Watched,
    level: &Level,
    trail: &mut Trail,
    tails: &Tails,
) -> Result<bool, NoMemory>
    requires rooted { IsRootOf watched.old level.now.skip level.now.singles.now trail.old }
    requires covered { IsCovered watched.old }
    ensures longer { IsLonger trail.old trail.new }
    ensures moved { IsMoved trail.old watched.old watched.new }
    ensures exact { IfOk result (λ yes. IsTrue yes
        ↔ AreImplied (filled (without watched.old.clauses.slots level.now.skip)) level.now.lits.now
        tails.now) }
{
    let root = trail.len();
    if assume(trail, level.lits)? {
        return Ok(true);
    }
    if propagate(watched, level.skip, trail, root)? {
        return Ok(true);
    }
    each_above(watched, level, trail, tails)
}

// Whether each of the tails leads into a conflict above the level.
fn each_above(
    watched: &mut Watched,
    level: &Level,
    trail: &mut Trail,
    tails: &Tails,
) -> Result<bool, NoMemory>
    requires level { IsLevel watched.old level.now trail.old }
    requires covered { IsCovered watched.old }
    ensures same { trail.new ≡ trail.old }
    ensures moved { IsMoved trail.old watched.old watched.new }
    ensures exact { IfOk result (λ yes. IsTrue yes
        ↔ AreImplied (filled (without watched.old.clauses.slots level.now.skip)) level.now.lits.now
        tails.now) }
{
    for i in 0..tails.len() {
        if !is_above(watched, level, trail, tails.tail(i))? {
            return Ok(false);
        }
    }
    Ok(true)
}

// Whether the literals lead into a conflict above the level.
fn is_above(
    watched: &mut Watched,
    level: &Level,
    trail: &mut Trail,
    tail: &[Lit],
) -> Result<bool, NoMemory>
    requires level { IsLevel watched.old level.now trail.old }
    requires covered { IsCovered watched.old }
    ensures same { trail.new ≡ trail.old }
    ensures moved { IsMoved trail.old watched.old watched.new }
    ensures exact { IfOk result (λ yes. IsTrue yes
        ↔ Implied (filled (without watched.old.clauses.slots level.now.skip)) (level.now.lits.now
        ++ tail.now)) }
{
    let base = trail.len();
    let result = search_above(watched, level, trail, tail);
    trail.truncate(base);
    result
}

// The same, with the negations of the literals left on the trail.
fn search_above(
    watched: &mut Watched,
    level: &Level,
    trail: &mut Trail,
    tail: &[Lit],
) -> Result<bool, NoMemory>
    requires level { IsLevel watched.old level.now trail.old }
    requires covered { IsCovered watched.old }
    ensures longer { IsLonger trail.old trail.new }
    ensures moved { IsMoved trail.old watched.old watched.new }
    ensures exact { IfOk result (λ yes. IsTrue yes
        ↔ Implied (filled (without watched.old.clauses.slots level.now.skip)) (level.now.lits.now
        ++ tail.now)) }
{
    let base = trail.len();
    if assume(trail, tail)? {
        return Ok(true);
    }
    propagate(watched, level.skip, trail, base)
}
