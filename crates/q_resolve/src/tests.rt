//! Tests of a line, literal by literal, over the marks of its literals.
ghost use Rattle.std.specs.Prelude.{◌≡◌, ◌&&◌, ◌||◌, ℕ, not, nat_lt};
ghost use Rattle.q_logic.specs.Prelude.{Literal, negation, has, is_bound, is_existential};
ghost use Rattle.q_logic.specs.Prefixes.{place};
ghost use Rattle.q_derive.specs.Testing.{every, some};
ghost use Rattle.q_resolve.specs.Seats.{AreSeats};
ghost use Rattle.q_resolve.specs.Tests.{is_gone, is_away, is_front, is_other, is_turning, outermost, is_after as is_after_spec, is_anew as is_anew_spec, is_both as is_both_spec};

use crate::marked::Marked;
use crate::seats::{is_known, is_owned, seat};
use q_certificate::Table;
use q_logic::{Bound, Lit};

/// Whether each variable is in the prefix.
pub fn are_bound(prefix: &[Bound], seats: &Table, lits: &[Lit]) -> bool
    requires { AreSeats prefix.now seats.now.items }
    ensures { result ≡ every (λ (k : Literal). is_bound prefix.now k.var) lits.now }
{
    for k in lits {
        if !is_known(prefix, seats, *k) {
            return false;
        }
    }
    true
}

// Whether a literal of the owner meets its negation among the marked ones.
fn meets(prefix: &[Bound], seats: &Table, marked: &Marked, lit: Lit) -> bool
    requires { AreSeats prefix.now seats.now.items }
    ensures { result ≡ is_other prefix.now marked.now lit }
{
    if !marked.has(lit.negated()) {
        return false;
    }
    is_owned(prefix, seats, lit)
}

/// Whether some literal of the owner does.
pub fn some_meets(prefix: &[Bound], seats: &Table, marked: &Marked, lits: &[Lit]) -> bool
    requires { AreSeats prefix.now seats.now.items }
    ensures { result ≡ some (λ (k : Literal). is_other prefix.now marked.now k) lits.now }
{
    for k in lits {
        if meets(prefix, seats, marked, *k) {
            return true;
        }
    }
    false
}

/// Whether a literal of the opponent meets its negation among the marked ones: whether it is a pivot.
pub fn is_pivot(prefix: &[Bound], seats: &Table, marked: &Marked, lit: Lit) -> bool
    requires { AreSeats prefix.now seats.now.items }
    ensures { result ≡ is_turning prefix.now marked.now lit }
{
    if !marked.has(lit.negated()) {
        return false;
    }
    !is_owned(prefix, seats, lit)
}

// Whether a literal, if it is one of the owner that meets its negation among the marked ones, stands behind the pivot.
fn is_after(prefix: &[Bound], seats: &Table, marked: &Marked, at: u64, lit: Lit) -> bool
    requires { AreSeats prefix.now seats.now.items }
    ensures { result ≡ is_after_spec prefix.now marked.now at lit }
{
    if !meets(prefix, seats, marked, lit) {
        return true;
    }
    at < seat(prefix, seats, lit)
}

/// Whether each one does: whether the pivot may merge.
pub fn may_merge(
    prefix: &[Bound],
    seats: &Table,
    marked: &Marked,
    first: &[Lit],
    pivot: Lit,
) -> bool
    requires { AreSeats prefix.now seats.now.items }
    ensures { result ≡ every (λ (g : Literal). is_after_spec prefix.now marked.now
        (place prefix.now pivot.var) g) first.now }
{
    let at = seat(prefix, seats, pivot);
    for k in first {
        if !is_after(prefix, seats, marked, at, *k) {
            return false;
        }
    }
    true
}

// Whether a literal of the owner meets its negation in the line, but is not in the parent.
fn is_anew(prefix: &[Bound], seats: &Table, own: &Marked, parent: &Marked, lit: Lit) -> bool
    requires { AreSeats prefix.now seats.now.items }
    ensures { result ≡ is_anew_spec prefix.now own.now parent.now lit }
{
    if !meets(prefix, seats, own, lit) {
        return false;
    }
    !parent.has(lit)
}

/// Whether some literal of the line is such a one.
pub fn merges_anew(
    prefix: &[Bound],
    seats: &Table,
    own: &Marked,
    parent: &Marked,
    term: &[Lit],
) -> bool
    requires { AreSeats prefix.now seats.now.items }
    ensures { result ≡ some (λ (k : Literal). is_anew_spec prefix.now own.now parent.now k) term.now }
{
    for k in term {
        if is_anew(prefix, seats, own, parent, *k) {
            return true;
        }
    }
    false
}

/// Whether a literal is the positive one of two that the line holds of a variable of the owner.
pub fn is_both(prefix: &[Bound], seats: &Table, marked: &Marked, lit: Lit) -> bool
    requires { AreSeats prefix.now seats.now.items }
    ensures { result ≡ is_both_spec prefix.now marked.now lit }
{
    if lit.negative() {
        return false;
    }
    meets(prefix, seats, marked, lit)
}

// Whether a literal of the opponent is not among the marked ones.
fn is_lost(prefix: &[Bound], seats: &Table, marked: &Marked, lit: Lit) -> bool
    requires { AreSeats prefix.now seats.now.items }
    ensures { result ≡ is_gone prefix.now marked.now lit }
{
    if marked.has(lit) {
        return false;
    }
    !is_owned(prefix, seats, lit)
}

/// Whether some literal of the opponent is not.
pub fn loses(prefix: &[Bound], seats: &Table, marked: &Marked, parent: &[Lit]) -> bool
    requires { AreSeats prefix.now seats.now.items }
    ensures { result ≡ some (λ (k : Literal). is_gone prefix.now marked.now k) parent.now }
{
    for k in parent {
        if is_lost(prefix, seats, marked, *k) {
            return true;
        }
    }
    false
}

// Whether a literal of the owner is not among the marked ones.
fn is_taken(prefix: &[Bound], seats: &Table, marked: &Marked, lit: Lit) -> bool
    requires { AreSeats prefix.now seats.now.items }
    ensures { result ≡ is_away prefix.now marked.now lit }
{
    if marked.has(lit) {
        return false;
    }
    is_owned(prefix, seats, lit)
}

/// The place of the outermost literal of the owner that is not among the marked ones, or the length of the prefix.
pub fn outermost_taken(prefix: &[Bound], seats: &Table, marked: &Marked, parent: &[Lit]) -> u64
    requires { AreSeats prefix.now seats.now.items }
    ensures { result ≡ outermost prefix.now marked.now parent.now }
{
    let mut least = prefix.len() as u64;
    for k in parent {
        if is_taken(prefix, seats, marked, *k) {
            let at = seat(prefix, seats, *k);
            if at < least {
                least = at;
            }
        }
    }
    least
}

// Whether a literal is one of the owner, or stands before a place.
fn is_clear(prefix: &[Bound], seats: &Table, at: u64, lit: Lit) -> bool
    requires { AreSeats prefix.now seats.now.items }
    ensures { result ≡ is_front prefix.now at lit }
{
    if is_owned(prefix, seats, lit) {
        return true;
    }
    seat(prefix, seats, lit) < at
}

/// Whether each literal of the opponent stands before a place.
pub fn is_clear_before(prefix: &[Bound], seats: &Table, at: u64, parent: &[Lit]) -> bool
    requires { AreSeats prefix.now seats.now.items }
    ensures { result ≡ every (λ (k : Literal). is_front prefix.now at k) parent.now }
{
    for k in parent {
        if !is_clear(prefix, seats, at, *k) {
            return false;
        }
    }
    true
}
