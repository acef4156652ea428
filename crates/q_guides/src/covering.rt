//! Covered clauses.
//!
//! Such a test costs more than any other, so it comes after the other rules, and only clauses near a change are tested:
//! those with a literal whose negation stands in one clause less, or that stands in a clause that came or became shorter.
//! They are gathered at once and tested one by one, short ones first. One that was tested since its literals were touched last is
//! passed by (`looks.rt`). Many are tested at one kernel before the first of those that are covered goes (`span.rt`).
use crate::lists::{gather, lits_of};
use crate::lits::Lits;
use crate::looks::Looks;
use crate::marked::Marked;
use crate::span::Span;
use crate::watch::{Pass, Watch};
use q_blocked::{Search, Step, Target};
use q_kernel::{ClauseId, Kernel};
use q_logic::NoMemory;
use q_rule::Rules;
use std::alloc::Global;

#[derive(Drop)]
pub(crate) struct Covering {
    waiting: Lits,
    // the clauses that are to be tested, by length and id, the first one last
    batch: Vec<(u32, ClauseId)>,
    gathered: Marked,
    ids: Vec<ClauseId>,
    looks: Looks,
    search: Search,
    span: Span,
}

impl Covering {
    /// It takes no memory.
    pub(crate) fn new(alloc: Global) -> Covering {
        Covering {
            waiting: Lits::new(alloc),
            batch: Vec::new(alloc),
            gathered: Marked::new(alloc),
            ids: Vec::new(alloc),
            looks: Looks::new(alloc),
            search: Search::new(alloc),
            span: Span::new(alloc),
        }
    }

    /// The literal stands near a change.
    pub(crate) fn touch(&mut self, index: u32) -> Result<(), NoMemory> {
        self.looks.touch(index)?;
        self.waiting.push(index)
    }

    /// Literals with long lists wait with the others again.
    pub(crate) fn release(&mut self) -> Result<(), NoMemory> {
        self.waiting.release()
    }

    /// Gathers the clauses of all literals that wait and stand in at most so many clauses.
    pub(crate) fn collect<W: Watch>(
        &mut self,
        kernel: &Kernel,
        limit: u32,
        watch: &W,
    ) -> Result<(), NoMemory> {
        self.batch.clear();
        self.gather_ids(kernel, limit, watch)?;
        for _ in 0..self.gathered.len() {
            let Some(c) = self.gathered.pop() else {
                return Ok(());
            };
            let len = u32::try_from(lits_of(kernel, c).len()).unwrap_or(u32::MAX);
            self.batch.push((len, c))?;
        }
        self.batch.sort_unstable();
        self.batch.reverse();
        Ok(())
    }

    fn gather_ids<W: Watch>(
        &mut self,
        kernel: &Kernel,
        limit: u32,
        watch: &W,
    ) -> Result<(), NoMemory> {
        for _ in 0..u64::MAX {
            if !watch.look(Pass::Cover, kernel) {
                return Ok(());
            }
            let Some(lit) = self.waiting.next(kernel, limit)? else {
                return Ok(());
            };
            self.ids.clear();
            gather(kernel, lit, &mut self.ids)?;
            self.mark_ids()?;
        }
        Ok(())
    }

    fn mark_ids(&mut self) -> Result<(), NoMemory> {
        for _ in 0..self.ids.len() {
            let Some(c) = self.ids.pop() else {
                return Ok(());
            };
            self.gathered.push(c)?;
        }
        Ok(())
    }

    /// A target that applies, among the clauses that were gathered.
    pub(crate) fn next<W: Watch>(
        &mut self,
        kernel: &Kernel,
        watch: &W,
    ) -> Result<Option<Target>, NoMemory> {
        let found = self.hand_out(kernel, watch)?;
        if found.is_some() {
            return Ok(found);
        }
        for _ in 0..self.batch.len() {
            if !watch.look(Pass::Cover, kernel) {
                return Ok(None);
            }
            self.fill(kernel, watch)?;
            let found = self.hand_out(kernel, watch)?;
            if found.is_some() {
                return Ok(found);
            }
        }
        Ok(None)
    }

    // The next clause of the span that is covered still, by its steps or by others.
    fn hand_out<W: Watch>(
        &mut self,
        kernel: &Kernel,
        watch: &W,
    ) -> Result<Option<Target>, NoMemory> {
        for _ in 0..self.span.left() {
            if !watch.look(Pass::Cover, kernel) {
                return Ok(None);
            }
            let Some(c) = self.span.hand_out() else {
                return Ok(None);
            };
            self.search.forget();
            self.search.suggest(c, self.span.steps());
            if self.search.covers(kernel, c)? {
                return Ok(Some(Target::Cover { c }));
            }
        }
        Ok(None)
    }

    // Fills a span with clauses that were gathered. The kernel is the same for all of them, so what one test has learned of it
    // serves for the next one.
    fn fill<W: Watch>(&mut self, kernel: &Kernel, watch: &W) -> Result<(), NoMemory> {
        self.span.begin();
        self.search.forget();
        self.looks.begin();
        for _turn in 0..self.batch.len() {
            if self.span.is_full() {
                return Ok(());
            }
            let Some((_, c)) = self.batch.pop() else {
                return Ok(());
            };
            if self.looks.is_done_with(kernel, c) {
                continue;
            }
            if !watch.look(Pass::Cover, kernel) {
                return Ok(());
            }
            self.looks.look(c)?;
            if self.search.covers(kernel, c)? {
                self.span.put(c, self.search.steps())?;
            }
        }
        Ok(())
    }

    /// The steps by which the target was covered that `next` gave last.
    pub(crate) fn steps(&self) -> &[Step] {
        self.search.steps()
    }
}
