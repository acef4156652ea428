//! The search for targets, clause by clause.
//!
//! Each clause c is taken as the one that lies within others. Where c lies within d as it is, or with one literal turned, d
//! holds any one literal of c or its negation. So the search walks the lists of one literal of c and of its negation, those
//! that are the shortest together, and looks at each clause d there once. A pass over the formula costs the sum of these
//! lists, and for each look at a clause that is no shorter than c one walk along both, which ends at the first literal of c
//! that d lacks.
//!
//! A lent search begins at the clause by which the last target was found, and goes once round all clauses. So targets that
//! are taken one after the other are found in one pass, and one more pass tells that none is left.
ghost use Rattle.std.specs.Prelude.{◌≡◌, ◌≤◌, [], None, Some};
ghost use Rattle.q_logic.specs.Prelude.{Literal, Clause, IsIn, slot, Fits, place, IsSwept};
ghost use Rattle.q_logic.specs.declared.rule_bounds.Bounds.{Bounds};
ghost use Rattle.q_kernel.specs.Prelude.{slots, formula_in};
ghost use Rattle.q_subsume.specs.declared.target.Target.{Target as TargetValue};
ghost use Rattle.q_subsume.specs.Targets.{target_of};
ghost use Rattle.q_subsume.specs.Looks.{AreTwo};
ghost use Rattle.q_subsume.specs.Searches.{IsBetween, IsBy, IsBehind, IsBefore, IsAmong};
ghost use Rattle.q_rule.specs.Searching.{IsFound};

use crate::search::Search;
use crate::strengthen::is_turned_within;
use crate::target::Target;
use q_kernel::{ClauseId, Kernel};
use q_logic::Lit;
use q_rule::{clause_of, first_missing};

/// A target that fits and whose place is at least a number. The search goes once round all clauses.
pub fn find_from(kernel: &Kernel, search: &mut Search, from: u32) -> Option<Target>
    requires { IsSwept (formula_in kernel.now) }
    ensures { IsFound target_of kernel.now (λ t. from ≤ place (target_of t)) result }
{
    let start = search.start();
    if let Some(target) = find_behind(kernel, start, from) {
        search.note(&target);
        return Some(target);
    }
    let Some(target) = find_before(kernel, start, from) else {
        return None;
    };
    search.note(&target);
    Some(target)
}

// A target by which a clause from a number on changes another one.
fn find_behind(kernel: &Kernel, start: ClauseId, from: u32) -> Option<Target>
    requires { IsSwept (formula_in kernel.now) }
    ensures { IsFound target_of kernel.now (IsBehind start from) result }
{
    for c in kernel.ids_from(start) {
        let found = find_by(kernel, c, from);
        if found.is_some() {
            return found;
        }
    }
    None
}

// A target by which a clause before a number changes another one.
fn find_before(kernel: &Kernel, end: ClauseId, from: u32) -> Option<Target>
    requires { IsSwept (formula_in kernel.now) }
    ensures { IsFound target_of kernel.now (IsBefore end from) result }
{
    for c in 0..end {
        let found = find_if_live(kernel, c, from);
        if found.is_some() {
            return found;
        }
    }
    None
}

// A target by which the clause of an id, if there is one, changes another one.
fn find_if_live(kernel: &Kernel, c: ClauseId, from: u32) -> Option<Target>
    requires { IsSwept (formula_in kernel.now) }
    ensures { IsFound target_of kernel.now (IsBy c from) result }
{
    if !kernel.live(c) {
        return None;
    }
    find_by(kernel, c, from)
}

/// A target by which the clause c changes another one.
#[inline]
pub fn find_by(kernel: &Kernel, c: ClauseId, from: u32) -> Option<Target>
    requires live { (C : Clause) × (slot (slots kernel.now) c ≡ Some C) }
    requires swept { IsSwept (formula_in kernel.now) }
    ensures { IsFound target_of kernel.now (IsBy c from) result }
{
    let Some(k) = rarest(kernel, clause_of(kernel, c)) else {
        return None;
    };
    let found = find_among(kernel, c, k, from);
    if found.is_some() {
        return found;
    }
    find_among(kernel, c, k.negated(), from)
}

// The literal of a clause whose lists, its negation's with it, are the shortest.
fn rarest(kernel: &Kernel, clause: &[Lit]) -> Option<Lit>
    ensures some { (k : Literal) → result ≡ Some k → IsIn k clause.now }
    ensures none { result ≡ None → clause.now ≡ [] }
{
    if clause.is_empty() {
        return None;
    }
    let mut best = clause[0];
    let mut least = places_of(kernel, best);
    for k in clause {
        let places = places_of(kernel, *k);
        if places < least {
            best = *k;
            least = places;
        }
    }
    Some(best)
}

// How many places a literal and its negation have.
fn places_of(kernel: &Kernel, lit: Lit) -> u64 {
    u64::from(kernel.count(lit)) + u64::from(kernel.count(lit.negated()))
}

// A target by which the clause c changes one that holds a literal.
fn find_among(kernel: &Kernel, c: ClauseId, lit: Lit, from: u32) -> Option<Target>
    requires { (C : Clause) × (slot (slots kernel.now) c ≡ Some C) }
    ensures { IsFound target_of kernel.now (IsAmong kernel.now c from lit) result }
{
    for d in kernel.holders(lit) {
        let found = look(kernel, c, d, from);
        if found.is_some() {
            return found;
        }
    }
    None
}

// The same for one other clause.
fn look(kernel: &Kernel, c: ClauseId, d: ClauseId, from: u32) -> Option<Target>
    requires live { (C : Clause) × (slot (slots kernel.now) c ≡ Some C) }
    requires other { (D : Clause) × (slot (slots kernel.now) d ≡ Some D) }
    ensures some { (t : TargetValue) → result ≡ Some t
        → IsBetween c d t × (from ≤ d)
        × ((B : Bounds) → Fits B kernel.now.prefix (slots kernel.now) (target_of t)) }
    ensures none { result ≡ None → from ≤ d → (t : TargetValue) → IsBetween c d t → (B : Bounds)
        → Fits B kernel.now.prefix (slots kernel.now) (target_of t) → ⊥ }
{
    if d < from {
        return None;
    }
    if d == c {
        return None;
    }
    between(kernel, c, d)
}

// Whether the clause c lies within the clause d, as it is or with one literal turned.
fn between(kernel: &Kernel, c: ClauseId, d: ClauseId) -> Option<Target>
    requires { AreTwo (slots kernel.now) c d }
    ensures { IsFound target_of kernel.now (IsBetween c d) result }
{
    let clause = clause_of(kernel, c);
    let other = clause_of(kernel, d);
    if other.len() < clause.len() {
        return None;
    }
    let Some(k) = first_missing(clause, other, &None) else {
        return Some(Target::Subsumed { c, d });
    };
    let l = k.negated();
    if is_turned_within(clause, other, l) {
        return Some(Target::Strengthen { c, d, l });
    }
    None
}
