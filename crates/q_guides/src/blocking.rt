//! Blocked clauses, and universal literals on which a clause is blocked.
//!
//! A clause can become blocked on a literal where a clause with the negation goes. So the literals wait whose negation
//! stands in one clause less, and the clauses of one of them are tested one by one.
ghost use Rattle.q_kernel.specs.Prelude.{IsReady};

use crate::lists::{gather, lits_of};
use crate::lits::Lits;
use crate::watch::{Pass, Watch};
use q_blocked::{Search, Target};
use q_kernel::{ClauseId, Kernel};
use q_logic::{Bounds, Lit, NoMemory, holds};
use q_rule::{Rules, is_existential};
use std::alloc::Global;

// A clause of so many literals is short.
const SHORT: usize = 8;

#[derive(Drop)]
pub(crate) struct Blocking {
    waiting: Lits,
    // the literal that is looked at, and its clauses that are still to be tested
    on: Option<Lit>,
    ids: Vec<ClauseId>,
    search: Search,
}

impl Blocking {
    /// It takes no memory.
    pub(crate) fn new(alloc: Global) -> Blocking {
        Blocking {
            waiting: Lits::new(alloc),
            on: None,
            ids: Vec::new(alloc),
            search: Search::new(alloc),
        }
    }

    /// Some clause with the negation of the literal went.
    pub(crate) fn touch(&mut self, index: u32) -> Result<(), NoMemory> {
        self.waiting.push(index)
    }

    /// Literals with long lists wait with the others again.
    pub(crate) fn release(&mut self) -> Result<(), NoMemory> {
        self.waiting.release()
    }

    /// A target that applies, of a literal that stands in at most so many clauses.
    pub(crate) fn next<W: Watch>(
        &mut self,
        kernel: &Kernel,
        bounds: &Bounds,
        limit: u32,
        watch: &W,
    ) -> Result<Option<Target>, NoMemory>
        requires ready { IsReady kernel.now }
    {
        for _ in 0..u64::MAX {
            let found = self.next_in_list(kernel, bounds, watch)?;
            if found.is_some() {
                return Ok(found);
            }
            if !watch.look(Pass::Block, kernel) || !self.take_list(kernel, limit)? {
                return Ok(None);
            }
        }
        Ok(None)
    }

    // Goes on to the next literal, if there is one.
    fn take_list(&mut self, kernel: &Kernel, limit: u32) -> Result<bool, NoMemory> {
        let Some(lit) = self.waiting.next(kernel, limit)? else {
            return Ok(false);
        };
        self.on = Some(lit);
        self.ids.clear();
        gather(kernel, lit, &mut self.ids)?;
        Ok(true)
    }

    fn next_in_list<W: Watch>(
        &mut self,
        kernel: &Kernel,
        bounds: &Bounds,
        watch: &W,
    ) -> Result<Option<Target>, NoMemory>
        requires ready { IsReady kernel.now }
    {
        let Some(lit) = self.on else {
            return Ok(None);
        };
        for _ in 0..self.ids.len() {
            if !watch.look(Pass::Block, kernel) {
                return Ok(None);
            }
            let Some(c) = self.ids.pop() else {
                return Ok(None);
            };
            if is_open(kernel, c, lit) {
                continue;
            }
            let target = target_on(kernel, c, lit);
            if self.search.applies(kernel, &target, bounds)? {
                return Ok(Some(target));
            }
        }
        Ok(None)
    }
}

// Whether it is seen at a glance that a clause is not blocked on its literal: another clause with the negation has nothing else that
// is opposed in it. The first such clause alone is asked, and only where both are short.
fn is_open(kernel: &Kernel, c: ClauseId, l: Lit) -> bool {
    for d in kernel.holders(l.negated()) {
        if d != c {
            return is_beside(lits_of(kernel, c), lits_of(kernel, d), l);
        }
    }
    false
}

// Whether two short clauses have no literal opposed but the one and its negation.
fn is_beside(clause: &[Lit], other: &[Lit], l: Lit) -> bool {
    if clause.len() > SHORT || other.len() > SHORT {
        return false;
    }
    for k in other {
        if !k.is(l.negated()) && holds(clause, k.negated()) {
            return false;
        }
    }
    true
}

fn target_on(kernel: &Kernel, c: ClauseId, l: Lit) -> Target {
    if is_existential(kernel, l.var()) {
        Target::Blocked { c, l }
    } else {
        Target::BlockedForall { c, l }
    }
}
