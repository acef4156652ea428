//! How large a miter may get, by sums that are known before any clause is made.
ghost use Rattle.std.specs.Prelude.{◌≡◌, ◌↔◌, ◌≤◌, ◌<◌, IsTrue, length, MatchOption};
ghost use Rattle.q_logic.specs.Prelude.{greatest as greatest_of, literals_in, standard};
ghost use Rattle.q_encode.specs.Sums.{AreIn, sums_from, sums_of};

use crate::side::Side;
use q_logic::{Bound, Formula, Limits};

/// At most so many variables, clauses and literals.
#[derive(Clone, Copy, Debug, PartialEq, Eq)]
pub struct Sums {
    pub vars: usize,
    pub clauses: usize,
    pub lits: usize,
}

/// The greatest variable of a prefix, or 0.
pub fn greatest(prefix: &[Bound]) -> u32
    ensures { result ≡ greatest_of prefix.now }
{
    let mut greatest = 0;
    let mut at = prefix.len();
    while at > 0 {
        at -= 1;
        greatest = prefix[at].var.max(greatest);
    }
    greatest
}

// The literals of a formula, unless there are more than so many.
fn literals(formula: &Formula, most: usize) -> Option<usize>
    ensures { MatchOption result (most < literals_in formula.now.matrix)
        (λ n. (n ≡ literals_in formula.now.matrix) × (n ≤ most)) }
{
    let mut total = 0;
    for at in 0..formula.clauses() {
        let len = formula.clause(at).len();
        if len > most - total {
            return None;
        }
        total += len;
    }
    Some(total)
}

// The sums of a formula with so many clauses and literals, and its greatest variable.
fn add_up(side: Side, top: u32, gates: usize, clauses: usize, lits: usize) -> Sums
    requires gates { gates ≤ 16777215 }
    requires clauses { clauses ≤ 33554432 }
    requires lits { lits ≤ 134217728 }
    ensures { result ≡ sums_from side top gates clauses lits }
{
    let top = top as usize;
    match side {
        Side::Skolem => Sums {
            vars: top + gates + clauses + 1,
            clauses: 3 * gates + lits + 2,
            lits: 7 * gates + 2 * lits + clauses + 1,
        },
        Side::Herbrand => Sums {
            vars: top + gates + 1,
            clauses: 3 * gates + clauses + 1,
            lits: 7 * gates + lits + 1,
        },
    }
}

fn are_in(sums: Sums, limits: Limits) -> bool
    ensures { IsTrue result ↔ AreIn limits sums }
{
    if sums.vars > limits.vars as usize {
        return false;
    }
    if sums.clauses as u64 > limits.clauses {
        return false;
    }
    sums.lits as u64 <= limits.lits
}

/// Whether a miter with so many gates keeps the limits of the program.
pub fn is_small(side: Side, formula: &Formula, gates: usize) -> bool
    ensures { IsTrue result ↔ AreIn standard (sums_of side formula.now gates) }
{
    let limits = Limits::standard();
    let Some(lits) = literals(formula, limits.lits as usize) else {
        return false;
    };
    let clauses = formula.clauses();
    if gates > limits.vars as usize || clauses as u64 > limits.clauses {
        return false;
    }
    let top = greatest(formula.prefix());
    are_in(add_up(side, top, gates, clauses, lits), limits)
}
