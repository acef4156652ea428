//! What a guide is asked.
//!
//! A guide says which target is tried next. A drive tests each proposal before it takes it, so nothing rests on what a guide
//! says: it may propose what it likes, and how fast the formula shrinks is all that depends on it.
ghost use Rattle.std.specs.Prelude.{◌≡◌, ℕ, Bool};
ghost use Rattle.q_kernel.specs.Prelude.{IsReady};
ghost use Rattle.q_logic.specs.Prelude.{Rose};
ghost use Rattle.q_sched.specs.declared.guide.Proposal.{Proposal};

use crate::moves::Move;
use q_blocked::Step;
use q_kernel::Kernel;

/// What a guide proposes to do next.
#[derive(Clone, Copy, Debug, PartialEq, Eq)]
pub enum Proposal {
    /// To take this target.
    Take(Move),
    /// Nothing more.
    Done,
    /// Memory was wanting for an answer. The turn that asked says so.
    NoMemory,
}

/// Says which target is tried next.
pub trait Guide: Drop {
    /// How often it was asked.
    ghost asked: { Self → ℕ };

    /// Its last answer.
    ghost last: { Self → Proposal };

    /// Whether the proposal was taken of which it was told last.
    ghost heard: { Self → Bool };

    /// What to try next.
    fn propose(&mut self, kernel: &Kernel) -> Proposal
        requires ready { IsReady kernel.now }
        ensures answer { last self.new ≡ result }
        ensures rises { Rose (asked self.old) (asked self.new) };

    /// Whether its last proposal was taken.
    fn told(&mut self, taken: bool)
        ensures asked { asked self.new ≡ asked self.old }
        ensures last { last self.new ≡ last self.old }
        ensures heard { heard self.new ≡ taken };

    /// The steps by which the clause of its last proposal is covered, where it proposed a covered clause and knows them. They are
    /// tested as the proposal is, and spare the drive the search for them.
    fn hint(&self) -> &[Step] {
        &[]
    }
}
