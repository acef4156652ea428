//! Whether a line stands by itself: a term that hits all clauses, or a clause of the formula. Its literals are marked.
ghost use Rattle.std.specs.Prelude.{◌≡◌, ◌||◌};
ghost use Rattle.q_logic.specs.Prelude.{Literal, has, IsBelow, ArePairs, is_tautology as is_tautology_spec};
ghost use Rattle.q_derive.specs.Testing.{every, some, is_hitting as is_hitting_spec};
ghost use Rattle.q_resolve.specs.Leaves.{is_same as is_same_spec, is_one_of as is_one_of_spec, may_stand as may_stand_spec};

use crate::marked::Marked;
use q_logic::{Formula, Lit, holds, is_tautology};

/// Whose variables the circuits are: the existentials of a true formula, the universals of a false one.
#[derive(Clone, Copy, Debug, PartialEq, Eq)]
pub enum Owner {
    Exists,
    Forall,
}

// Whether the clause holds a marked literal.
fn is_met(marked: &Marked, clause: &[Lit]) -> bool
    ensures { result ≡ some (λ (k : Literal). has k marked.now) clause.now }
{
    for k in clause {
        if marked.has(*k) {
            return true;
        }
    }
    false
}

// Whether each literal of the clause is marked.
fn is_within(marked: &Marked, clause: &[Lit]) -> bool
    ensures { result ≡ every (λ (k : Literal). has k marked.now) clause.now }
{
    for k in clause {
        if !marked.has(*k) {
            return false;
        }
    }
    true
}

// Whether each literal is one of the clause.
fn are_of(clause: &[Lit], term: &[Lit]) -> bool
    ensures { result ≡ every (λ (k : Literal). has k clause.now) term.now }
{
    for k in term {
        if !holds(clause, *k) {
            return false;
        }
    }
    true
}

// Whether a clause is a tautology, or holds a marked literal.
fn is_hit(marked: &Marked, clause: &[Lit]) -> bool
    requires { ArePairs IsBelow clause.now }
    ensures { result ≡ is_tautology_spec clause.now || some (λ (k : Literal). has k marked.now) clause.now }
{
    if is_met(marked, clause) {
        return true;
    }
    is_tautology(clause)
}

// Whether each clause is.
fn is_hitting(formula: &Formula, marked: &Marked) -> bool
    ensures { result ≡ is_hitting_spec formula.now.matrix marked.now }
{
    for i in 0..formula.clauses() {
        if !is_hit(marked, formula.clause(i)) {
            return false;
        }
    }
    true
}

// Whether the marked literals are those of the clause.
fn is_same(marked: &Marked, clause: &[Lit], term: &[Lit]) -> bool
    requires { marked.now ≡ term.now }
    ensures { result ≡ is_same_spec clause.now term.now }
{
    if !is_within(marked, clause) {
        return false;
    }
    are_of(clause, term)
}

// Whether they are those of some clause.
fn is_one_of(formula: &Formula, marked: &Marked, term: &[Lit]) -> bool
    requires { marked.now ≡ term.now }
    ensures { result ≡ is_one_of_spec formula.now.matrix term.now }
{
    for i in 0..formula.clauses() {
        if is_same(marked, formula.clause(i), term) {
            return true;
        }
    }
    false
}

/// Whether a line may stand by itself, but for literals of the owner in both signs.
pub fn may_stand(formula: &Formula, owner: Owner, marked: &Marked, term: &[Lit]) -> bool
    requires { marked.now ≡ term.now }
    ensures { result ≡ may_stand_spec owner formula.now.matrix term.now }
{
    match owner {
        Owner::Exists => is_hitting(formula, marked),
        Owner::Forall => is_one_of(formula, marked, term),
    }
}
