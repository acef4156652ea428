//! A guide that gives up soon.
//!
//! Behind a guide that looks where something changed mostly nothing is left to take, and each refusal costs the test of its
//! target. So a guide that comes later has nothing more to propose once so many of its proposals in a row were refused. What it
//! would have found is found by the search behind all guides.
ghost use Rattle.std.specs.Prelude.{◌≡◌};
ghost use Rattle.q_logic.specs.Prelude.{Rose};
ghost use Rattle.q_sched.specs.declared.guide.Proposal.TheVariants.{Done};

use q_blocked::Step;
use q_kernel::Kernel;
use q_sched::{Guide, Proposal};

/// It gives up after so many refusals in a row.
const PATIENCE: u32 = 16;

/// Proposes what another guide does, until it gives up.
#[derive(Drop)]
pub struct Impatient<G: Guide> {
    guide: G,
    refused: u32,
    asked: u64,
    last: Proposal,
    heard: bool,
}

impl<G: Guide> Impatient<G> {
    pub fn new(guide: G) -> Impatient<G>
        ensures asked { ⟦<Impatient<G> as Guide>⟧.asked result ≡ 0 }
        ensures last { ⟦<Impatient<G> as Guide>⟧.last result ≡ Done }
    {
        Impatient {
            guide,
            refused: 0,
            asked: 0,
            last: Proposal::Done,
            heard: false,
        }
    }
}

impl<G: Guide> Guide for Impatient<G> {
    ghost asked = { λ g. g.asked };

    ghost last = { λ g. g.last };

    ghost heard = { λ g. g.heard };

    fn propose(&mut self, kernel: &Kernel) -> Proposal {
        self.asked = self.asked.saturating_add(1);
        self.last = if self.refused < PATIENCE {
            self.guide.propose(kernel)
        } else {
            Proposal::Done
        };
        self.last
    }

    fn told(&mut self, taken: bool) {
        self.heard = taken;
        self.refused = if taken {
            0
        } else {
            self.refused.saturating_add(1)
        };
        self.guide.told(taken);
    }

    fn hint(&self) -> &[Step] {
        self.guide.hint()
    }
}
