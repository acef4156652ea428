//! A guide that takes covered clauses, the shortest first.
//!
//! **The idea.** A short clause has few literals to begin with, so whether it is covered is decided soon, and it goes before it
//! is looked at in the tests of longer ones. Once one has gone, it starts again.
//!
//! **Source.** Marijn Heule, Matti Järvisalo and Armin Biere, "Covered Clause Elimination" (LPAR 2010); the order is that of
//! Armin Biere, Florian Lonsing and Martina Seidl, "Blocked clause elimination for QBF" (CADE 2011, Bloqqer).
//!
//! **How it is found.** By a heap of pairs of length and id (`rounds.rt`).
ghost use Rattle.std.specs.Prelude.{◌≡◌};
ghost use Rattle.q_kernel.specs.Prelude.{IsReady};
ghost use Rattle.q_sched.specs.Kinds.{IsCovering};
ghost use Rattle.q_sched.specs.declared.guide.Proposal.TheVariants.{Done};
ghost use Rattle.q_logic.specs.Prelude.{Rose};

use crate::ascending::{Ascending, Key};
use crate::guide::{Guide, Proposal};
use crate::moves::Move;
use crate::rounds::{Keyed, Rounds};
use q_kernel::{ClauseId, Kernel, Touch};
use q_logic::NoMemory;

// The clauses by length.
#[derive(Drop)]
struct Clauses;

impl Keyed for Clauses {
    fn key_of(kernel: &Kernel, id: ClauseId) -> Option<Key> {
        if !kernel.live(id) {
            return None;
        }
        match u32::try_from(kernel.lits(id).len()) {
            Ok(length) => Some((length, id)),
            Err(_) => None,
        }
    }

    fn next_item(kernel: &Kernel, from: ClauseId) -> Option<ClauseId> {
        kernel.next_live(from)
    }

    fn put_touched(keys: &mut Ascending, kernel: &Kernel, touch: Touch) -> Result<(), NoMemory> {
        match touch {
            Touch::Clause(id) => keys.put(Self::key_of(kernel, id)),
            Touch::Literal(_) => Ok(()),
            Touch::Variable(_) => Ok(()),
        }
    }
}

/// Proposes to cover the clause with the least pair of length and id above a cursor, and starts again once a proposal was
/// taken.
#[derive(Drop)]
pub struct ShortestFirst {
    rounds: Rounds<Clauses>,
    asked: u64,
    last: Proposal,
    heard: bool,
}

impl ShortestFirst {
    pub fn new() -> ShortestFirst
        ensures asked { ⟦<ShortestFirst as Guide>⟧.asked result ≡ 0 }
        ensures last { ⟦<ShortestFirst as Guide>⟧.last result ≡ Done }
    {
        ShortestFirst {
            rounds: Rounds::new(),
            asked: 0,
            last: Proposal::Done,
            heard: false,
        }
    }
}

impl Guide for ShortestFirst {
    ghost asked = { λ g. g.asked };

    ghost last = { λ g. g.last };

    ghost heard = { λ g. g.heard };

    fn propose(&mut self, kernel: &Kernel) -> Proposal
        requires ready { IsReady kernel.now }
        ensures answer { self.new.last ≡ result }
        ensures rises { Rose self.old.asked self.new.asked }
        ensures kind { IsCovering result }
    {
        self.asked = self.asked.saturating_add(1);
        self.last = match self.rounds.next(kernel) {
            Ok(Some(c)) => Proposal::Take(Move::Block(q_blocked::Target::Cover { c })),
            Ok(None) => Proposal::Done,
            Err(NoMemory) => Proposal::NoMemory,
        };
        self.last
    }

    fn told(&mut self, taken: bool) {
        self.heard = taken;
        self.rounds.told(taken);
    }
}
