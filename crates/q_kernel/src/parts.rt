// What a kernel is made of when it begins: numbers of the formula that its tables need before the first clause is put in, and the
// counts that are kept with each change.
ghost use Rattle.std.specs.Prelude.{◌≡◌, ◌≤◌, ◌<◌, ◌+◌, ◌-◌, ℕ, [], IfOk, length, true, false};
ghost use Rattle.q_logic.specs.Prelude.{Clause, is_bound, Distinct, first_of, greatest, literals_in};
ghost use Rattle.q_kernel.specs.Uses.{AreUses};
ghost use Rattle.q_kernel.specs.Invariant.{empty_ones};
ghost use Rattle.q_kernel.specs.Singles.{unit_ones};

use crate::uses::Uses;
use q_arena::Arena;
use q_logic::{Bound, Formula, Lit, NoMemory};
use q_prefix::Prefix;
use q_sparse::filling_of;
use std::alloc::Global;

/// The bounds of a prefix in their order.
pub(crate) fn bounds_of(alloc: Global, prefix: &Prefix) -> Result<Vec<Bound>, NoMemory>
    requires { Distinct prefix.now.bounds }
    ensures { IfOk result (λ v. v.items ≡ prefix.now.bounds) }
{
    let mut bounds = Vec::with_capacity(alloc, prefix.len())?;
    let mut at = prefix.first();
    while let Some(bound) = at {
        bounds.push(bound)?;
        at = prefix.after(bound.var);
    }
    Ok(bounds)
}

/// The number of literals of a formula.
pub(crate) fn words_of(formula: &Formula) -> Result<usize, NoMemory>
    ensures { IfOk result (λ n. n ≡ literals_in formula.now.matrix) }
{
    let mut words: usize = 0;
    for at in 0..formula.clauses() {
        words = words.checked_add(formula.clause(at).len()).ok_or(NoMemory)?;
    }
    Ok(words)
}

/// The room of an arena that has so many spare words.
pub(crate) fn room_for(arena: &Arena, words: usize) -> Result<usize, NoMemory>
    ensures { IfOk result (λ n. n ≡ arena.now.room + (words - arena.now.spare_words)) }
{
    let spare = arena.spare_words();
    if words <= spare {
        return Ok(arena.room());
    }
    arena.room().checked_add(words - spare).ok_or(NoMemory)
}

/// All variables as idle ones.
pub(crate) fn idle_uses(alloc: Global, bounds: &[Bound], most: u32) -> Result<Uses, NoMemory>
    requires distinct { Distinct bounds.now }
    requires within { (v : ℕ) → is_bound bounds.now v ≡ true → v ≤ most }
    ensures uses { IfOk result (λ u. AreUses u bounds.now (λ v. false)) }
    ensures room { IfOk result (λ u. most < u.room) }
{
    let mut uses = Uses::new(alloc, filling_of(bounds.len(), most as usize))?;
    uses.reserve(most)?;
    for bound in bounds {
        uses.insert(bound.var);
    }
    uses.distinct();
    Ok(uses)
}

/// The greatest variable of a prefix, from a number on downwards.
pub(crate) fn top_of(prefix: &Prefix, from: u32) -> u32
    requires { greatest prefix.now.bounds ≤ from }
    ensures { result ≡ greatest prefix.now.bounds }
{
    let mut top = from;
    while top > 0 && !prefix.contains(top) {
        top -= 1;
    }
    top
}

/// The first literal, if there is one.
pub(crate) fn first_of(lits: &[Lit]) -> Option<Lit>
    ensures { result ≡ first_of lits.now }
{
    if lits.is_empty() {
        return None;
    }
    Some(lits[0])
}

/// 1 for an empty clause.
pub(crate) fn empty_ones(lits: &[Lit]) -> usize
    ensures value { result ≡ empty_ones lits.now }
    ensures small { result ≤ 1 }
{
    if lits.is_empty() { 1 } else { 0 }
}

/// 1 for a clause of exactly one literal.
pub(crate) fn unit_ones(lits: &[Lit]) -> usize
    ensures value { result ≡ unit_ones lits.now }
    ensures small { result ≤ 1 }
{
    match lits {
        [_] => 1,
        _ => 0,
    }
}
