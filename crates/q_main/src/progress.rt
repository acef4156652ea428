//! A guide whose moves are counted on a board.
ghost use Rattle.std.specs.Prelude.{◌≡◌};

use crate::board::Board;
use q_blocked::Step;
use q_kernel::Kernel;
use q_sched::{Guide, Move, Proposal};
use std::rc::Rc;

// The drive asks a guide no more once so many of its proposals were refused, one after the other or not.
const MOST_REFUSALS: u32 = 1_024;

/// This guide, with what it proposed noted where it was taken.
#[derive(Drop)]
pub(crate) struct Progress<G: Guide> {
    guide: G,
    board: Rc<Board>,
    // the last proposal
    target: Option<Move>,
    // behind it all rules are searched
    is_last: bool,
    refusals: u32,
    // of the formula that it was asked for last
    clauses: usize,
}

fn target_of(proposal: &Proposal) -> Option<Move> {
    match proposal {
        Proposal::Take(target) => Some(*target),
        Proposal::Done => None,
        Proposal::NoMemory => None,
    }
}

impl<G: Guide> Progress<G> {
    pub(crate) fn new(guide: G, board: Rc<Board>, is_last: bool) -> Progress<G>
        ensures { result.guide ≡ guide }
    {
        Progress {
            guide,
            board,
            target: None,
            is_last,
            refusals: 0,
            clauses: 0,
        }
    }

    // Its proposal was refused. With the last refusal it is asked no more.
    fn refused(&mut self)
        ensures { self.new.guide ≡ self.old.guide }
    {
        self.refusals = self.refusals.saturating_add(1);
        if self.is_last && self.refusals == MOST_REFUSALS {
            self.board.note_search(self.clauses);
        }
    }

    fn note(&mut self, kernel: &Kernel, proposal: &Proposal)
        ensures { self.new.guide ≡ self.old.guide }
    {
        if self.board.is_on() {
            self.target = target_of(proposal);
            self.clauses = kernel.clauses();
            if self.target.is_some() {
                self.board.note_look(None, kernel);
            } else if self.is_last {
                self.board.note_search(self.clauses);
            }
        }
    }
}

impl<G: Guide> Guide for Progress<G> {
    ghost asked = { λ p. G.asked p.guide };

    ghost last = { λ p. G.last p.guide };

    ghost heard = { λ p. G.heard p.guide };

    fn propose(&mut self, kernel: &Kernel) -> Proposal {
        self.board.note_before(kernel);
        let proposal = self.guide.propose(kernel);
        self.note(kernel, &proposal);
        proposal
    }

    fn told(&mut self, taken: bool) {
        self.guide.told(taken);
        if let (true, Some(target)) = (taken, self.target.take()) {
            self.board.note_taken(&target);
        }
        if !taken {
            self.refused();
        }
    }

    fn hint(&self) -> &[Step] {
        self.guide.hint()
    }
}
