//! Walks along the clauses of two literals.
//!
//! A clause of two literals, not x and y, leads from x to y. So the clauses that lead on from x are those of two literals in
//! the occurrence list of its negation. A walk keeps the literals that it has met as marks and a list, and works the list
//! off. It may stay on the level of its first literal (`levels.rt`): literals that lead to each other have one level, so it
//! misses none of those.
//!
//! What is joined: `Joined` and `Binary` in `q_logic/specs/Merging.antt`; that a list which is closed under such clauses has
//! all that is joined: `joined-in` in `q_logic/proofs/ClosureSearch.antt`. A walk costs the occurrence lists of the negations
//! of the literals that it meets.
ghost use Rattle.std.specs.Prelude.{◌≡◌, ◌↔◌, ◌∷◌, [], Some, OnOk, IfOk, IsTrue};
ghost use Rattle.q_logic.specs.Prelude.{Literal, IsBelow, negation, Clause, IsIn, ArePairs, slot, live, Binary, Joined};
ghost use Rattle.q_kernel.specs.Prelude.{slots, HoldsLiteral};
ghost use Rattle.q_equiv.specs.Walks.{IsSpread, IsGathered};

use crate::level_row::Levels;
use q_kernel::{ClauseId, Kernel};
use q_logic::{Lit, NoMemory};
use q_rule::{Queue, clause_of};

/// Whether clauses of two literals lead from a literal to another one. The walk expands each literal once, and stops where
/// it meets the other one.
pub fn is_joined(kernel: &Kernel, queue: &mut Queue, from: Lit, to: Lit) -> Result<bool, NoMemory>
    ensures { IfOk result (λ yes. IsTrue yes ↔ Joined (live (slots kernel.now)) to from) }
{
    queue.clear();
    queue.push(from)?;
    for head in 0..usize::MAX {
        if queue.has(to) {
            return Ok(true);
        }
        if head >= queue.len() {
            return Ok(false);
        }
        spread_all(kernel, queue, queue.at(head))?;
    }
    // a queue that long has no place in memory
    Err(NoMemory)
}

/// Gathers the literals to which clauses of two literals lead from a literal on its level; how many clauses were looked at.
#[inline]
pub fn gather(
    kernel: &Kernel,
    queue: &mut Queue,
    levels: &Levels,
    from: Lit,
) -> Result<usize, NoMemory>
    ensures { OnOk result (IsGathered levels.now (live (slots kernel.now)) from queue.new) }
{
    queue.clear();
    queue.push(from)?;
    let mut looks = 0usize;
    for head in 0..usize::MAX {
        if head >= queue.len() {
            return Ok(looks);
        }
        let next = queue.at(head);
        looks = looks.saturating_add(kernel.count(next.negated()) as usize);
        spread(kernel, queue, levels, next)?;
    }
    // a queue that long has no place in memory
    Err(NoMemory)
}

// Puts all literals into the queue to which a clause of two literals leads from the literal.
fn spread_all(kernel: &Kernel, queue: &mut Queue, lit: Lit) -> Result<(), NoMemory>
    ensures { OnOk result (IsSpread [] (live (slots kernel.now)) lit queue.old queue.new) }
{
    for id in kernel.holders(lit.negated()) {
        go_on(kernel, queue, id, lit)?;
    }
    Ok(())
}

// Puts the literal into the queue to which one clause leads from the literal, if there is one.
fn go_on(kernel: &Kernel, queue: &mut Queue, id: ClauseId, lit: Lit) -> Result<(), NoMemory>
    requires { HoldsLiteral kernel.now id (negation lit) }
    ensures { OnOk result ((D : Clause) → slot (slots kernel.now) id ≡ Some D
        → IsSpread [] (D ∷ []) lit queue.old queue.new) }
{
    if let Some(next) = partner(clause_of(kernel, id), lit) {
        if !queue.has(next) {
            queue.push(next)?;
        }
    }
    Ok(())
}

// Puts all literals of its level into the queue to which a clause of two literals leads from the literal.
fn spread(kernel: &Kernel, queue: &mut Queue, levels: &Levels, lit: Lit) -> Result<(), NoMemory>
    ensures { OnOk result (IsSpread levels.now (live (slots kernel.now)) lit queue.old queue.new) }
{
    for id in kernel.holders(lit.negated()) {
        follow(kernel, queue, levels, id, lit)?;
    }
    Ok(())
}

// Puts the literal into the queue to which one clause leads from the literal, if there is one on its level.
fn follow(
    kernel: &Kernel,
    queue: &mut Queue,
    levels: &Levels,
    id: ClauseId,
    lit: Lit,
) -> Result<(), NoMemory>
    requires { HoldsLiteral kernel.now id (negation lit) }
    ensures { OnOk result ((D : Clause) → slot (slots kernel.now) id ≡ Some D
        → IsSpread levels.now (D ∷ []) lit queue.old queue.new) }
{
    if let Some(next) = partner(clause_of(kernel, id), lit) {
        if levels.of(next) == levels.of(lit) && !queue.has(next) {
            queue.push(next)?;
        }
    }
    Ok(())
}

/// The literal to which a clause leads from a literal whose negation it holds: the other one of two.
pub fn partner(clause: &[Lit], lit: Lit) -> Option<Lit>
    requires ordered { ArePairs IsBelow clause.now }
    requires held { IsIn (negation lit) clause.now }
    ensures { (y : Literal) → (result ≡ Some y) ↔ Binary (clause.now ∷ []) lit y }
{
    if clause.len() != 2 {
        return None;
    }
    if clause[0].is(lit.negated()) {
        Some(clause[1])
    } else {
        Some(clause[0])
    }
}
