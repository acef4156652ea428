//! Hints found by looking at all clauses again and again, until one is refuted or nothing is new. Slow and plain:
//! for where the hints that were gathered along the trail do not show the conflict. A clause is noted where it
//! gives a literal that is new, so the notes are hints.
ghost use Rattle.std.specs.Prelude.{◌≡◌, ◌↔◌, [], IfOk, MatchBool, IsTrue};
ghost use Rattle.q_logic.specs.Prelude.{Implied, Chained};
ghost use Rattle.q_prop.specs.Chains.{HasOpposites};
ghost use Rattle.q_prop.specs.Plain.{IsFind, IsPass, IsExplained, answer_of};
ghost use Rattle.q_prop.specs.Slots.{without, filled};

use crate::chain::{Left, left_of};
use crate::clauses::{Clauses, clause_at};
use crate::propagation::assume;
use crate::trail::Trail;
use q_logic::{Lit, NoMemory};

/// What a look at clauses finds.
#[derive(Clone, Copy)]
pub enum Find {
    /// A clause is refuted.
    Conflict,
    /// A literal is new.
    New,
    Quiet,
}

// Looks at the clause in a slot, and notes the slot if it gives something.
fn look(
    clauses: &Clauses,
    skip: Option<usize>,
    at: usize,
    trail: &mut Trail,
    hints: &mut Vec<usize>,
) -> Result<Find, NoMemory>
    ensures { IfOk result (IsFind (without clauses.now.slots skip) at trail.old hints.old.items
        trail.new hints.new.items) }
{
    let Some(clause) = clause_at(clauses, skip, at) else {
        return Ok(Find::Quiet);
    };
    match left_of(clause, trail) {
        Left::Nothing => {
            hints.push(at)?;
            Ok(Find::Conflict)
        }
        Left::One(lit) => {
            if trail.has(lit) {
                return Ok(Find::Quiet);
            }
            hints.push(at)?;
            trail.push(lit)?;
            Ok(Find::New)
        }
        Left::More => Ok(Find::Quiet),
    }
}

// Looks at each clause once.
fn pass(
    clauses: &Clauses,
    skip: Option<usize>,
    trail: &mut Trail,
    hints: &mut Vec<usize>,
) -> Result<Find, NoMemory>
    requires { HasOpposites trail.old → ⊥ }
    ensures { IfOk result (IsPass (without clauses.now.slots skip) trail.old hints.old.items
        trail.new hints.new.items) }
{
    let mut grown = false;
    for at in 0..clauses.len() {
        match look(clauses, skip, at, trail, hints)? {
            Find::Conflict => return Ok(Find::Conflict),
            Find::New => grown = true,
            Find::Quiet => {}
        }
    }
    Ok(answer(grown))
}

fn answer(grown: bool) -> Find
    ensures { result ≡ answer_of grown }
{
    if grown { Find::New } else { Find::Quiet }
}

// Goes on until a clause is refuted, or nothing is new.
fn search(
    clauses: &Clauses,
    skip: Option<usize>,
    trail: &mut Trail,
    hints: &mut Vec<usize>,
) -> Result<bool, NoMemory>
    requires consistent { HasOpposites trail.old → ⊥ }
    requires empty { hints.old.items ≡ [] }
    ensures { IfOk result (IsExplained (without clauses.now.slots skip) trail.old trail.new
        hints.new.items) }
{
    let mut grown = true;
    while grown {
        match pass(clauses, skip, trail, hints)? {
            Find::Conflict => return Ok(true),
            Find::New => {}
            Find::Quiet => grown = false,
        }
    }
    Ok(false)
}

/// Whether the literals are implied, over the slots but one; and hints that show it. The trail is used up.
pub fn explain_plainly(
    clauses: &Clauses,
    skip: Option<usize>,
    lits: &[Lit],
    trail: &mut Trail,
    hints: &mut Vec<usize>,
) -> Result<bool, NoMemory>
    ensures exact { IfOk result (λ yes. IsTrue yes
        ↔ Implied (filled (without clauses.now.slots skip)) lits.now) }
    ensures shown { IfOk result (λ yes.
        MatchBool yes (Chained (without clauses.now.slots skip) lits.now hints.new.items)
        (hints.new.items ≡ [])) }
{
    hints.clear();
    trail.truncate(0);
    if assume(trail, lits)? {
        return Ok(true);
    }
    if search(clauses, skip, trail, hints)? {
        return Ok(true);
    }
    hints.clear();
    Ok(false)
}
