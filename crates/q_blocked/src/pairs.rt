//! Pairs of clauses that show that nothing is covered on a literal.
ghost use Rattle.std.specs.Prelude.{◌≡◌, true, Some};
ghost use Rattle.q_logic.specs.Prelude.{IsBelow, negation, Clause, IsIn, is_bound, ArePairs, Within, slot, others};
ghost use Rattle.q_kernel.specs.Prelude.{slots};
ghost use Rattle.q_blocked.specs.Walks.{IsOpenAt, CoversNothing, HasShared};
ghost use Rattle.q_blocked.specs.Notes.{AreApart};

use crate::apart::Apart;
use crate::clashing::{clashes, is_kept};
use crate::couples::couples_cover_nothing;
use q_kernel::{ClauseId, Kernel};
use q_logic::{Lit, NoMemory, holds};
use q_rule::{Queue, clause_of, is_at, skip_to};
use std::alloc::Global;

/// Two clauses.
#[derive(Clone, Copy, Debug)]
pub struct Pair {
    pub first: ClauseId,
    pub second: ClauseId,
}

/// No clauses.
pub const NO_PAIR: Pair = Pair {
    first: u32::MAX,
    second: u32::MAX,
};

// So many literals share a page.
const PAGE: usize = 1_024;

/// For each literal two clauses with its negation that had nothing in common beyond a set. They may be out of date: they
/// are tested where they are used. A page is made where a literal of it is noted, so that numbers that no clause has take no
/// memory.
#[derive(Drop)]
pub struct Pairs {
    alloc: Global,
    pages: Vec<Vec<Pair>>,
}

impl Pairs {
    pub(crate) fn new(alloc: Global) -> Pairs {
        Pairs {
            alloc,
            pages: Vec::new(alloc),
        }
    }

    fn of(&self, l: Lit) -> Pair {
        match self.pages.get(l.index() / PAGE) {
            Some(page) => page.get(l.index() % PAGE).copied().unwrap_or(NO_PAIR),
            None => NO_PAIR,
        }
    }

    pub(crate) fn note(&mut self, l: Lit, pair: Pair) -> Result<(), NoMemory> {
        let at = l.index() / PAGE;
        for _ in self.pages.len()..at + 1 {
            self.pages.push(Vec::new(self.alloc))?;
        }
        match self.pages.get_mut(at) {
            Some(page) => put(page, l.index() % PAGE, pair),
            None => Ok(()),
        }
    }
}

// Puts the clauses at a place of a page, which is made if it was not yet.
fn put(page: &mut Vec<Pair>, place: usize, pair: Pair) -> Result<(), NoMemory> {
    if page.is_empty() {
        page.resize(PAGE, NO_PAIR)?;
    }
    if place < page.len() {
        page[place] = pair;
    }
    Ok(())
}

// Whether the clause of an id is not c, holds the negation of l, and does not clash with the set.
#[inline]
fn is_open(kernel: &Kernel, set: &Queue, c: ClauseId, d: ClauseId, l: Lit) -> bool
    ensures { result ≡ true → IsOpenAt kernel.now.prefix (slots kernel.now) c d l set.now }
{
    if d == c {
        return false;
    }
    if !kernel.live(d) {
        return false;
    }
    let clause = clause_of(kernel, d);
    if !holds(clause, l.negated()) {
        return false;
    }
    !clashes(kernel, set, clause, l)
}

/// What a clause has in its outer part in common with a second one.
#[derive(Clone, Copy, Debug)]
pub enum Shared {
    /// A literal that is not in the set.
    Fresh,
    /// Literals of the set alone.
    OfSet,
    /// No literal.
    Nothing,
}

// What a clause has in its outer clause on m in common with a second one, which is walked along as far as the literals of the first
// one lead.
fn share(kernel: &Kernel, set: &Queue, m: Lit, first: &[Lit], second: &[Lit]) -> Shared
    requires within { Within kernel.now.prefix first.now }
    requires bound { is_bound kernel.now.prefix m.var ≡ true }
    requires ordered { ArePairs IsBelow first.now }
    requires other { ArePairs IsBelow second.now }
    ensures { HasShared kernel.now.prefix m set.now first.now second.now result }
{
    let mut at = 0;
    let mut nothing = true;
    for k in first {
        if !is_kept(kernel, m, *k) {
            continue;
        }
        at = skip_to(second, at, *k);
        if !is_at(second, at, *k) {
            continue;
        }
        if !set.has(*k) {
            return Shared::Fresh;
        }
        nothing = false;
    }
    if nothing {
        return Shared::Nothing;
    }
    Shared::OfSet
}

// The same of the clauses of two ids with the negation of l.
fn share_on(kernel: &Kernel, set: &Queue, pair: Pair, l: Lit) -> Shared
    requires first { (C : Clause) × (slot (slots kernel.now) pair.first ≡ Some C)
        × IsIn (negation l) C }
    requires second { (C : Clause) × (slot (slots kernel.now) pair.second ≡ Some C) }
    ensures { (C D : Clause) → slot (slots kernel.now) pair.first ≡ Some C
        → slot (slots kernel.now) pair.second ≡ Some D
        → HasShared kernel.now.prefix (negation l) set.now C D result }
{
    let first = clause_of(kernel, pair.first);
    let second = clause_of(kernel, pair.second);
    share(kernel, set, l.negated(), first, second)
}

/// Whether the clauses that were noted for a literal show that the set has all that is covered on it. Where they have nothing in
/// common, that is noted, unless memory is wanting.
pub fn covers_nothing(
    kernel: &Kernel,
    set: &Queue,
    pairs: &Pairs,
    apart: &mut Apart,
    c: ClauseId,
    l: Lit,
) -> bool
    requires { AreApart kernel.now apart.old }
    ensures nothing { result ≡ true → CoversNothing kernel.now.prefix
        (others c (slots kernel.now)) l set.now }
    ensures apart { AreApart kernel.now apart.new }
{
    if apart.cover_nothing(kernel, set, c, l) {
        return true;
    }
    let pair = pairs.of(l);
    if couples_cover_nothing(kernel, set, c, pair, l) {
        return true;
    }
    if !is_open(kernel, set, c, pair.first, l) {
        return false;
    }
    if !is_open(kernel, set, c, pair.second, l) {
        return false;
    }
    match share_on(kernel, set, pair, l) {
        Shared::Fresh => false,
        Shared::OfSet => true,
        Shared::Nothing => {
            let _had_room = apart.note(l, pair);
            true
        }
    }
}
