//! Pairs of clauses of two literals that show that nothing is covered on a literal.
//!
//! Beside `not l` one of them has a, and the other one b. Where a and b are two, the clauses have nothing else in common; and they are
//! open where the set has the negation of neither. So two marks tell it, whatever the prefix is.
//! Most pairs that are noted are of such clauses.
ghost use Rattle.std.specs.Prelude.{◌≡◌, true, Some};
ghost use Rattle.q_logic.specs.Prelude.{Literal, others};
ghost use Rattle.q_kernel.specs.Prelude.{slots};
ghost use Rattle.q_blocked.specs.Walks.{IsCouple, IsCoupleAt, CoversNothing};

use crate::pairs::Pair;
use q_kernel::{ClauseId, Kernel};
use q_logic::Lit;
use q_rule::Queue;

// The other literal of a clause of two literals that holds m.
#[inline(always)]
fn partner(clause: &[Lit], m: Lit) -> Option<Lit>
    ensures { (a : Literal) → result ≡ Some a → IsCouple m a clause.now }
{
    if clause.len() != 2 {
        return None;
    }
    if clause[0].is(m) {
        return Some(clause[1]);
    }
    if clause[1].is(m) {
        return Some(clause[0]);
    }
    None
}

// The same for the clause of an id. Of the clause c itself nothing is asked.
#[inline(always)]
fn partner_at(kernel: &Kernel, c: ClauseId, d: ClauseId, m: Lit) -> Option<Lit>
    ensures { (a : Literal) → result ≡ Some a → IsCoupleAt (slots kernel.now) c d m a }
{
    if d == c {
        return None;
    }
    if !kernel.live(d) {
        return None;
    }
    partner(kernel.lits(d), m)
}

/// Whether two clauses are of two literals, and show that the set has all that is covered on l.
pub(crate) fn couples_cover_nothing(
    kernel: &Kernel,
    set: &Queue,
    c: ClauseId,
    pair: Pair,
    l: Lit,
) -> bool
    ensures { result ≡ true → CoversNothing kernel.now.prefix (others c (slots kernel.now)) l
        set.now }
{
    let m = l.negated();
    let Some(a) = partner_at(kernel, c, pair.first, m) else {
        return false;
    };
    let Some(b) = partner_at(kernel, c, pair.second, m) else {
        return false;
    };
    if b.is(a) || set.has(a.negated()) {
        return false;
    }
    !set.has(b.negated())
}
