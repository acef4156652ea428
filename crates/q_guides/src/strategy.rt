//! The strategy: cheap rules first, and each rule only where something changed.
//!
//! 1. Unit clauses, pure literals and cheap cuts, then subsumption, each to its end. This comes before each step of
//!    the phases below.
//! 2. Merges, where a clause of two literals came.
//! 3. Elimination, the variable with the fewest places first; after each one blocked clauses over short lists.
//! 4. Blocked clauses over all lists.
//! 5. Expansion. Where something was taken since 2, that comes again.
//! 6. Covered clauses over short lists; where one was taken, again from 2.
//! 7. Universal reduction over all places; where something was taken, again from 2.
//! 8. Covered clauses over long lists; where one was taken, again from 2.
//!
//! Before all of 2 to 8 comes universal reduction over the places in their order, as long as about half of the literals that
//! it looks at may go: what goes then makes no clause long that elimination builds.
//!
//! Then nothing is proposed any more. Each call goes on where the last one stopped. (Queues of what was touched: N. Eén and
//! A. Biere, "Effective preprocessing in SAT through variable and clause elimination", SAT 2005.)
ghost use Rattle.q_kernel.specs.Prelude.{IsReady};

use crate::parts::Parts;
use crate::watch::Watch;
use q_blocked::Step;
use q_kernel::Kernel;
use q_logic::{Bounds, NoMemory};
use q_sched::Move;
use std::alloc::Global;

/// Between eliminations blocked clauses are looked for over lists of at most this length.
const SHORT_BLOCKED: u32 = 16;

/// Covered clauses are looked for over lists of at most this length first.
const SHORT_COVERED: u32 = 32;

/// The first universal reduction ends where so many more literals stay than may go.
const EARLY_PATIENCE: usize = 64;

// Which rule comes next, once nothing that was touched is left.
#[derive(Clone, Copy, PartialEq, Eq)]
enum Phase {
    CutEarly,
    Merge,
    Eliminate,
    Block,
    Expand,
    CoverShort,
    Cut,
    CoverLong,
    Over,
}

#[derive(Drop)]
pub(crate) struct Strategy<W: Watch> {
    bounds: Bounds,
    watch: W,
    parts: Parts,
    phase: Phase,
    // nothing was looked at in this phase yet
    is_fresh: bool,
    // something was taken since the last time that merges came up
    has_moved: bool,
    // a variable was eliminated since blocked clauses over short lists were looked for
    has_eliminated: bool,
    // touches before this number were read; none at all before the first call
    read: Option<u64>,
}

impl<W: Watch> Strategy<W> {
    /// It takes no memory.
    pub(crate) fn new(alloc: Global, bounds: Bounds, watch: W) -> Strategy<W> {
        Strategy {
            bounds,
            watch,
            parts: Parts::new(alloc),
            phase: Phase::CutEarly,
            is_fresh: true,
            has_moved: false,
            has_eliminated: false,
            read: None,
        }
    }

    /// A target was taken.
    pub(crate) fn moved(&mut self) {
        self.has_moved = true;
    }

    /// The steps by which the clause is covered that was proposed last.
    pub(crate) fn hint(&self) -> &[Step] {
        self.parts.covering.steps()
    }

    /// What to try next.
    pub(crate) fn next(&mut self, kernel: &Kernel) -> Result<Option<Move>, NoMemory>
        requires { IsReady kernel.now }
    {
        self.read_on(kernel)?;
        for _ in 0..u64::MAX {
            let found = self.look(kernel)?;
            if found.is_some() || self.phase == Phase::Over {
                return Ok(found);
            }
            self.go_on();
        }
        Ok(None)
    }

    // Reads what was touched since the last call.
    fn read_on(&mut self, kernel: &Kernel) -> Result<(), NoMemory> {
        let end = kernel.touches();
        let Some(start) = self.read else {
            self.read = Some(end);
            return self.parts.note_all(kernel, &self.watch);
        };
        self.read = Some(end);
        for number in start..end {
            let Some(touch) = kernel.touch(number) else {
                return self.parts.note_all(kernel, &self.watch);
            };
            self.parts.note(kernel, touch)?;
        }
        Ok(())
    }

    // A target of this phase, or one that comes before it.
    fn look(&mut self, kernel: &Kernel) -> Result<Option<Move>, NoMemory>
        requires { IsReady kernel.now }
    {
        let batched = self.hand_out(kernel)?;
        if batched.is_some() {
            return Ok(batched);
        }
        let touched = self.look_at_touched(kernel)?;
        if touched.is_some() {
            return Ok(touched);
        }
        self.look_in_phase(kernel)
    }

    // The next target of a batch. Nothing else is done between the targets of one.
    fn hand_out(&mut self, kernel: &Kernel) -> Result<Option<Move>, NoMemory>
        requires { IsReady kernel.now }
    {
        if let Some(target) = self.parts.merging.hand_out(kernel) {
            return Ok(Some(Move::Merge(target)));
        }
        if let Some(target) = self.parts.cutting.hand_out(kernel) {
            return Ok(Some(Move::Reduce(target)));
        }
        match self.parts.subsuming.hand_out(kernel, &self.bounds)? {
            Some(target) => Ok(Some(Move::Subsume(target))),
            None => Ok(None),
        }
    }

    fn look_at_touched(&mut self, kernel: &Kernel) -> Result<Option<Move>, NoMemory>
        requires { IsReady kernel.now }
    {
        if let Some(target) = self.parts.plain.next(kernel) {
            return Ok(Some(Move::Reduce(target)));
        }
        match self
            .parts
            .subsuming
            .next(kernel, &self.bounds, &self.watch)?
        {
            Some(target) => Ok(Some(Move::Subsume(target))),
            None => Ok(None),
        }
    }

    fn look_in_phase(&mut self, kernel: &Kernel) -> Result<Option<Move>, NoMemory>
        requires { IsReady kernel.now }
    {
        let is_fresh = self.is_fresh;
        self.is_fresh = false;
        match self.phase {
            Phase::CutEarly => self.cut(kernel, is_fresh, EARLY_PATIENCE),
            Phase::Merge => self.merge(kernel),
            Phase::Eliminate => self.eliminate(kernel),
            Phase::Block => self.block(kernel, is_fresh),
            Phase::Expand => self.expand(kernel),
            Phase::CoverShort => self.cover(kernel, is_fresh, SHORT_COVERED),
            Phase::Cut => self.cut(kernel, is_fresh, usize::MAX),
            Phase::CoverLong => self.cover(kernel, is_fresh, u32::MAX),
            Phase::Over => Ok(None),
        }
    }

    fn merge(&mut self, kernel: &Kernel) -> Result<Option<Move>, NoMemory> {
        self.parts.merging.collect(kernel, &self.watch)?;
        match self.parts.merging.hand_out(kernel) {
            Some(target) => Ok(Some(Move::Merge(target))),
            None => Ok(None),
        }
    }

    fn eliminate(&mut self, kernel: &Kernel) -> Result<Option<Move>, NoMemory>
        requires { IsReady kernel.now }
    {
        if self.has_eliminated {
            let found = self.block_up_to(kernel, SHORT_BLOCKED)?;
            if found.is_some() {
                return Ok(found);
            }
            self.has_eliminated = false;
        }
        match self
            .parts
            .eliminating
            .next(kernel, &self.bounds, &self.watch)?
        {
            Some(target) => {
                self.has_eliminated = true;
                Ok(Some(Move::Eliminate(target)))
            }
            None => Ok(None),
        }
    }

    fn block(&mut self, kernel: &Kernel, is_fresh: bool) -> Result<Option<Move>, NoMemory>
        requires { IsReady kernel.now }
    {
        if is_fresh {
            self.parts.blocking.release()?;
        }
        self.block_up_to(kernel, u32::MAX)
    }

    fn block_up_to(&mut self, kernel: &Kernel, limit: u32) -> Result<Option<Move>, NoMemory>
        requires { IsReady kernel.now }
    {
        match self
            .parts
            .blocking
            .next(kernel, &self.bounds, limit, &self.watch)?
        {
            Some(target) => Ok(Some(Move::Block(target))),
            None => Ok(None),
        }
    }

    fn expand(&mut self, kernel: &Kernel) -> Result<Option<Move>, NoMemory>
        requires { IsReady kernel.now }
    {
        match self
            .parts
            .expanding
            .next(kernel, &self.bounds, &self.watch)?
        {
            Some(target) => Ok(Some(Move::Expand(target))),
            None => Ok(None),
        }
    }

    fn cover(
        &mut self,
        kernel: &Kernel,
        is_fresh: bool,
        limit: u32,
    ) -> Result<Option<Move>, NoMemory>
        requires { IsReady kernel.now }
    {
        if is_fresh {
            if limit == u32::MAX {
                self.parts.covering.release()?;
            }
            self.parts.covering.collect(kernel, limit, &self.watch)?;
        }
        match self.parts.covering.next(kernel, &self.watch)? {
            Some(target) => Ok(Some(Move::Block(target))),
            None => Ok(None),
        }
    }

    fn cut(
        &mut self,
        kernel: &Kernel,
        is_fresh: bool,
        patience: usize,
    ) -> Result<Option<Move>, NoMemory>
        requires { IsReady kernel.now }
    {
        if is_fresh {
            self.parts
                .cutting
                .collect(kernel, &self.bounds, patience, &self.watch)?;
        }
        match self.parts.cutting.hand_out(kernel) {
            Some(target) => Ok(Some(Move::Reduce(target))),
            None => Ok(None),
        }
    }

    // This phase has nothing more.
    fn go_on(&mut self) {
        let next = match self.phase {
            Phase::CutEarly => Phase::Merge,
            Phase::Merge => Phase::Eliminate,
            Phase::Eliminate => Phase::Block,
            Phase::Block => Phase::Expand,
            Phase::Expand => self.after(Phase::CoverShort),
            Phase::CoverShort => self.after(Phase::Cut),
            Phase::Cut => self.after(Phase::CoverLong),
            Phase::CoverLong => self.after(Phase::Over),
            Phase::Over => Phase::Over,
        };
        if next == Phase::Merge {
            self.has_moved = false;
        }
        self.phase = next;
        self.is_fresh = true;
    }

    // The next phase, but where something was taken since merges came up, these again.
    fn after(&self, phase: Phase) -> Phase {
        if self.has_moved { Phase::Merge } else { phase }
    }
}
