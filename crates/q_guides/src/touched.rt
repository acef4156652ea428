//! The guide.
ghost use Rattle.std.specs.Prelude.{◌≡◌};
ghost use Rattle.q_logic.specs.Prelude.{Rose};
ghost use Rattle.q_sched.specs.declared.guide.Proposal.TheVariants.{Done};

use crate::strategy::Strategy;
use crate::watch::Watch;
use q_blocked::Step;
use q_kernel::Kernel;
use q_logic::{Bounds, NoMemory};
use q_sched::{Guide, Move, Proposal};
use std::alloc::Global;

/// Proposes what may apply by the last changes, and answers `Done` where nothing is left. All that it keeps is its own.
#[derive(Drop)]
pub struct Touched<W: Watch> {
    strategy: Strategy<W>,
    asked: u64,
    last: Proposal,
    heard: bool,
}

impl<W: Watch> Touched<W> {
    /// It takes no memory. The bounds should be those of the drive: by others it would propose targets that are refused, or
    /// pass over some.
    pub fn new(alloc: Global, bounds: Bounds, watch: W) -> Touched<W>
        ensures asked { ⟦<Touched<W> as Guide>⟧.asked result ≡ 0 }
        ensures last { ⟦<Touched<W> as Guide>⟧.last result ≡ Done }
    {
        Touched {
            strategy: Strategy::new(alloc, bounds, watch),
            asked: 0,
            last: Proposal::Done,
            heard: false,
        }
    }
}

fn answer_of(found: Result<Option<Move>, NoMemory>) -> Proposal {
    match found {
        Ok(Some(target)) => Proposal::Take(target),
        Ok(None) => Proposal::Done,
        Err(NoMemory) => Proposal::NoMemory,
    }
}

impl<W: Watch> Guide for Touched<W> {
    ghost asked = { λ g. g.asked };

    ghost last = { λ g. g.last };

    ghost heard = { λ g. g.heard };

    fn propose(&mut self, kernel: &Kernel) -> Proposal {
        self.asked = self.asked.saturating_add(1);
        self.last = answer_of(self.strategy.next(kernel));
        self.last
    }

    fn told(&mut self, taken: bool) {
        self.heard = taken;
        if taken {
            self.strategy.moved();
        }
    }

    fn hint(&self) -> &[Step] {
        self.strategy.hint()
    }
}
