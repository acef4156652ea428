//! Subsumed and strengthened clauses.
//!
//! At the start each clause is asked once whether another one lies within it. From then on this is asked of clauses that
//! came or lost a literal; where it is not so, what such a clause does to others is gathered, and handed out one by one.

ghost use Rattle.q_kernel.specs.Prelude.{IsReady};

use crate::clause_index::{ClauseIndex, Entry, NONE, signature_of};
use crate::lists::{gather, index_of, lit_at, lits_of, places_of};
use crate::marked::Marked;
use crate::watch::{Pass, Watch};
use q_kernel::{ClauseId, Kernel};
use q_logic::{Bounds, Lit, NoMemory};
use q_rule::{Queue, Rules};
use q_subsume::{Search, Target};
use std::alloc::Global;

#[derive(Drop)]
pub(crate) struct Subsuming {
    index: ClauseIndex,
    waiting: Marked,
    // clauses from this one on were not asked yet
    start: ClauseId,
    // targets by one clause, which are handed out one by one
    batch: Vec<Target>,
    set: Queue,
    ids: Vec<ClauseId>,
    search: Search,
}

// How one clause lies in another.
#[derive(Clone, Copy)]
enum Lying {
    Outside,
    Within,
    // within once this literal of the other is turned
    Turned(Lit),
}

impl Subsuming {
    /// It takes no memory.
    pub(crate) fn new(alloc: Global) -> Subsuming {
        Subsuming {
            index: ClauseIndex::new(alloc),
            waiting: Marked::new(alloc),
            start: u32::MAX,
            batch: Vec::new(alloc),
            set: Queue::new(alloc),
            ids: Vec::new(alloc),
            search: Search::new(alloc),
        }
    }

    /// The clause came, or lost a literal.
    pub(crate) fn touch(&mut self, kernel: &Kernel, c: ClauseId) -> Result<(), NoMemory> {
        self.index.hang(kernel, c)?;
        self.waiting.push(c)
    }

    /// All clauses are asked anew.
    pub(crate) fn restart(&mut self) {
        self.start = 0;
    }

    /// Hangs a clause that is asked with all others.
    pub(crate) fn hang(&mut self, kernel: &Kernel, c: ClauseId) -> Result<(), NoMemory> {
        self.index.hang(kernel, c)
    }

    /// The next of the targets by one clause.
    pub(crate) fn hand_out(
        &mut self,
        kernel: &Kernel,
        bounds: &Bounds,
    ) -> Result<Option<Target>, NoMemory>
        requires ready { IsReady kernel.now }
    {
        for _ in 0..self.batch.len() {
            let Some(target) = self.batch.pop() else {
                return Ok(None);
            };
            if self.search.applies(kernel, &target, bounds)? {
                return Ok(Some(target));
            }
        }
        Ok(None)
    }

    /// A target that applies.
    pub(crate) fn next<W: Watch>(
        &mut self,
        kernel: &Kernel,
        bounds: &Bounds,
        watch: &W,
    ) -> Result<Option<Target>, NoMemory>
        requires ready { IsReady kernel.now }
    {
        let first = self.begin(kernel, bounds, watch)?;
        if first.is_some() {
            return Ok(first);
        }
        for _ in 0..self.waiting.len() {
            if !watch.look(Pass::Subsume, kernel) {
                return Ok(None);
            }
            let Some(c) = self.waiting.pop() else {
                return Ok(None);
            };
            let found = self.look(kernel, bounds, c)?;
            if found.is_some() {
                return Ok(found);
            }
        }
        Ok(None)
    }

    // Asks each clause once.
    fn begin<W: Watch>(
        &mut self,
        kernel: &Kernel,
        bounds: &Bounds,
        watch: &W,
    ) -> Result<Option<Target>, NoMemory>
        requires ready { IsReady kernel.now }
    {
        for _ in 0..u64::MAX {
            let Some(d) = kernel.next_live(self.start) else {
                self.start = u32::MAX;
                return Ok(None);
            };
            if !watch.look(Pass::Subsume, kernel) {
                return Ok(None);
            }
            self.start = d.saturating_add(1);
            let found = self.ask(kernel, bounds, d)?;
            if found.is_some() {
                self.start = d;
                return Ok(found);
            }
            if self.start == u32::MAX {
                return Ok(None);
            }
        }
        Ok(None)
    }

    // Whether a clause is subsumed or strengthened; otherwise what it does to others.
    fn look(
        &mut self,
        kernel: &Kernel,
        bounds: &Bounds,
        c: ClauseId,
    ) -> Result<Option<Target>, NoMemory>
        requires ready { IsReady kernel.now }
    {
        let found = self.ask(kernel, bounds, c)?;
        if found.is_some() {
            return Ok(found);
        }
        self.gather_by(kernel, c)?;
        self.hand_out(kernel, bounds)
    }

    // A target by which another clause changes the clause d.
    fn ask(
        &mut self,
        kernel: &Kernel,
        bounds: &Bounds,
        d: ClauseId,
    ) -> Result<Option<Target>, NoMemory>
        requires ready { IsReady kernel.now }
    {
        let Some(target) = self.find(kernel, d)? else {
            return Ok(None);
        };
        if self.search.applies(kernel, &target, bounds)? {
            return Ok(Some(target));
        }
        Ok(None)
    }

    fn find(&mut self, kernel: &Kernel, d: ClauseId) -> Result<Option<Target>, NoMemory> {
        if !kernel.live(d) {
            self.index.take_out(d);
            return Ok(None);
        }
        let clause = lits_of(kernel, d);
        fill(&mut self.set, clause)?;
        let shape = Entry {
            signature: signature_of(clause),
            len: clause.len(),
            ..self.index.entry(d)
        };
        // copies of a clause hang where it hangs
        let beside = self.scan(kernel, d, &shape, shape.home);
        if matches!(beside, Some(Target::Subsumed { .. })) {
            return Ok(beside);
        }
        let mut best = None;
        for l in clause {
            best = better(best, self.scan(kernel, d, &shape, index_of(*l)));
            best = better(best, self.scan(kernel, d, &shape, index_of(l.negated())));
            if matches!(best, Some(Target::Subsumed { .. })) {
                return Ok(best);
            }
        }
        Ok(best)
    }

    // A target by a clause that hangs at one literal. One that subsumes is better. Behind so many clauses as hold the literal some
    // of those that hang there are gone: these are taken out, so that none is met twice.
    fn scan(&mut self, kernel: &Kernel, d: ClauseId, shape: &Entry, home: u32) -> Option<Target> {
        let mut best = None;
        let mut c = self.index.first(home);
        if c == NONE {
            return best;
        }
        let live = places_at(kernel, home);
        for met in 0..self.index.len() {
            let entry = self.index.entry(c);
            if home == 0 || entry.home != home {
                return best;
            }
            let fits = c != d && entry.may_lie_in(shape);
            if (fits || met >= live) && !kernel.live(c) {
                self.index.take_out(c);
            } else if fits {
                match self.lie(kernel, c) {
                    Lying::Outside => {}
                    Lying::Within => return Some(Target::Subsumed { c, d }),
                    Lying::Turned(l) => best = Some(Target::Strengthen { c, d, l }),
                }
            }
            c = entry.next;
        }
        best
    }

    // How a clause lies in the set.
    fn lie(&self, kernel: &Kernel, c: ClauseId) -> Lying {
        let clause = lits_of(kernel, c);
        if clause.is_empty() {
            return Lying::Outside;
        }
        let mut lying = Lying::Within;
        for l in clause {
            if !self.set.has(*l) {
                if matches!(lying, Lying::Turned(_)) || !self.set.has(l.negated()) {
                    return Lying::Outside;
                }
                lying = Lying::Turned(l.negated());
            }
        }
        lying
    }

    // The targets by which the clause c changes others: they hold its rarest literal, or the negation.
    fn gather_by(&mut self, kernel: &Kernel, c: ClauseId) -> Result<(), NoMemory> {
        let clause = lits_of(kernel, c);
        let Some(k) = rarest_pair(kernel, clause) else {
            return Ok(());
        };
        fill(&mut self.set, clause)?;
        let signature = signature_of(clause);
        self.ids.clear();
        gather(kernel, k, &mut self.ids)?;
        gather(kernel, k.negated(), &mut self.ids)?;
        for _ in 0..self.ids.len() {
            let Some(d) = self.ids.pop() else {
                return Ok(());
            };
            let entry = self.index.entry(d);
            if d != c && clause.len() <= entry.len && signature & !entry.signature == 0 {
                self.note(kernel, c, clause.len(), d)?;
            }
        }
        Ok(())
    }

    // Notes what the clause c, whose literals are the set, does to the clause d.
    fn note(
        &mut self,
        kernel: &Kernel,
        c: ClauseId,
        len: usize,
        d: ClauseId,
    ) -> Result<(), NoMemory> {
        match hold(&self.set, len, lits_of(kernel, d)) {
            Lying::Outside => {}
            Lying::Within => self.batch.push(Target::Subsumed { c, d })?,
            Lying::Turned(l) => self.batch.push(Target::Strengthen { c, d, l })?,
        }
        Ok(())
    }
}

// How many clauses hold the literal of an index.
fn places_at(kernel: &Kernel, index: u32) -> usize {
    match lit_at(index) {
        Some(lit) => kernel.count(lit) as usize,
        None => 0,
    }
}

// Of two targets one that subsumes, or else the first.
fn better(first: Option<Target>, second: Option<Target>) -> Option<Target> {
    match second {
        Some(Target::Subsumed { .. }) => second,
        Some(Target::Strengthen { .. }) if first.is_none() => second,
        _ => first,
    }
}

// How the set, which has so many literals, lies in a clause.
fn hold(set: &Queue, len: usize, clause: &[Lit]) -> Lying {
    let mut same: usize = 0;
    let mut turned = None;
    for l in clause {
        if set.has(*l) {
            same = same.saturating_add(1);
        } else if set.has(l.negated()) {
            turned = Some(*l);
        }
    }
    if same == len {
        return Lying::Within;
    }
    match turned {
        Some(l) if same.saturating_add(1) == len => Lying::Turned(l),
        _ => Lying::Outside,
    }
}

// Makes the set that of a clause's literals.
#[inline]
fn fill(set: &mut Queue, clause: &[Lit]) -> Result<(), NoMemory> {
    set.clear();
    for l in clause {
        set.push(*l)?;
    }
    Ok(())
}

// The literal of a clause that stands in the fewest clauses, its negation with it.
fn rarest_pair(kernel: &Kernel, clause: &[Lit]) -> Option<Lit> {
    let mut best = None;
    let mut least = u32::MAX;
    for l in clause {
        let places = places_of(kernel, *l);
        if places < least {
            best = Some(*l);
            least = places;
        }
    }
    best
}
