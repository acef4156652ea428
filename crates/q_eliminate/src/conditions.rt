//! The conditions on the clauses of a variable.
ghost use Rattle.std.specs.Prelude.{◌≡◌, ◌↔◌, ◌⊎◌, true, None, Some, IsTrue};
ghost use Rattle.std.specs.List.{AllByRecursion};
ghost use Rattle.q_logic.specs.Prelude.{Literal, negation, is_bound, live, clauses_at, AllOuter, Within};
ghost use Rattle.q_kernel.specs.Prelude.{slots};
ghost use Rattle.q_eliminate.specs.Sides.{AreLive, AreIdsOf};
ghost use Rattle.q_eliminate.specs.Plans.{IsOuter, IsPlain, IsSplit, IsOuterSign};

use q_kernel::{ClauseId, Kernel};
use q_logic::Lit;
use q_rule::{clause_of, is_tautology};

/// The sign whose clauses hold only outer or same literals, where the variable occurs and none of its clauses is a
/// tautology. The ids are those of the clauses of the literal and of its negation.
pub fn split_sign(kernel: &Kernel, lit: Lit, ids: &[ClauseId], others: &[ClauseId]) -> Option<Lit>
    requires ids { AreIdsOf kernel.now lit ids.now }
    requires others { AreIdsOf kernel.now (negation lit) others.now }
    requires bound { is_bound kernel.now.prefix lit.var ≡ true }
    ensures split { (l : Literal) → result ≡ Some l
        → IsSplit kernel.now.prefix (live (slots kernel.now)) lit }
    ensures sign { (l : Literal) → result ≡ Some l
        → ((l ≡ lit) ⊎ (l ≡ negation lit))
        × AllOuter kernel.now.prefix l (live (slots kernel.now)) }
    ensures none { result ≡ None → IsSplit kernel.now.prefix (live (slots kernel.now)) lit → ⊥ }
{
    if ids.is_empty() && others.is_empty() {
        return None;
    }
    let outer = outer_sign(kernel, lit, ids, others)?;
    if are_plain(kernel, ids) && are_plain(kernel, others) {
        Some(outer)
    } else {
        None
    }
}

// The sign whose clauses hold only outer or same literals. The side with fewer clauses is tried first.
fn outer_sign(kernel: &Kernel, lit: Lit, ids: &[ClauseId], others: &[ClauseId]) -> Option<Lit>
    requires ids { AreIdsOf kernel.now lit ids.now }
    requires others { AreIdsOf kernel.now (negation lit) others.now }
    requires bound { is_bound kernel.now.prefix lit.var ≡ true }
    ensures { IsOuterSign kernel.now.prefix (live (slots kernel.now)) lit result }
{
    if ids.len() <= others.len() {
        outer_side(kernel, lit, ids, others)
    } else {
        outer_side(kernel, lit.negated(), others, ids)
    }
}

// The same, for the literal first.
#[inline]
fn outer_side(kernel: &Kernel, lit: Lit, ids: &[ClauseId], others: &[ClauseId]) -> Option<Lit>
    requires ids { AreIdsOf kernel.now lit ids.now }
    requires others { AreIdsOf kernel.now (negation lit) others.now }
    requires bound { is_bound kernel.now.prefix lit.var ≡ true }
    ensures { IsOuterSign kernel.now.prefix (live (slots kernel.now)) lit result }
{
    if are_outer(kernel, ids, lit.var()) {
        Some(lit)
    } else if are_outer(kernel, others, lit.var()) {
        Some(lit.negated())
    } else {
        None
    }
}

// Whether the clauses hold only variables outer or same to one.
#[inline]
fn are_outer(kernel: &Kernel, ids: &[ClauseId], x: u32) -> bool
    requires live { AreLive (slots kernel.now) ids.now }
    requires bound { is_bound kernel.now.prefix x ≡ true }
    ensures { IsTrue result ↔ AllByRecursion (IsOuter kernel.now.prefix x)
        (clauses_at (slots kernel.now) ids.now) }
{
    for id in ids {
        if !is_outer(kernel, clause_of(kernel, *id), x) {
            return false;
        }
    }
    true
}

fn is_outer(kernel: &Kernel, clause: &[Lit], x: u32) -> bool
    requires within { Within kernel.now.prefix clause.now }
    requires bound { is_bound kernel.now.prefix x ≡ true }
    ensures { IsTrue result ↔ IsOuter kernel.now.prefix x clause.now }
{
    for k in clause {
        if !kernel.prefix().outer_or_same(k.var(), x) {
            return false;
        }
    }
    true
}

// Whether no clause is a tautology.
fn are_plain(kernel: &Kernel, ids: &[ClauseId]) -> bool
    requires { AreLive (slots kernel.now) ids.now }
    ensures { IsTrue result ↔ AllByRecursion IsPlain (clauses_at (slots kernel.now) ids.now) }
{
    for id in ids {
        if is_tautology(clause_of(kernel, *id)) {
            return false;
        }
    }
    true
}
