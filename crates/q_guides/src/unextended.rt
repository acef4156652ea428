//! A guide that leaves extended universal reduction out.
//!
//! By plain reduction a universal literal leaves a clause where no existential literal of the clause is inner to it; by extended
//! reduction where no path of clauses leads from an inner one to the literal's negation. Herbrand functions are not carried back
//! over the latter. So a formula that may be false is simplified without it where its certificate is wanted. (Plain: H. Kleine
//! Büning, M. Karpinski and A. Flögel, "Resolution for quantified Boolean formulas", Information and Computation 1995; extended: F.
//! Slivovsky and S. Szeider, "Variable dependencies and Q-resolution", SAT 2014.)
ghost use Rattle.std.specs.Prelude.{◌≡◌};
ghost use Rattle.q_kernel.specs.Prelude.{IsReady};
ghost use Rattle.q_logic.specs.Prelude.{Rose};
ghost use Rattle.q_sched.specs.declared.guide.Proposal.TheVariants.{Done};

use crate::lists::lits_of;
use crate::plain::has_inner;
use q_blocked::Step;
use q_kernel::Kernel;
use q_reduce::Target;
use q_sched::{Guide, Move, Proposal};

/// Proposes what another guide does, but for extended reductions: that guide is told that they were refused, and asked on.
#[derive(Drop)]
pub struct Unextended<G: Guide> {
    guide: G,
    asked: u64,
    last: Proposal,
    heard: bool,
}

impl<G: Guide> Unextended<G> {
    /// The guide should not propose the same again and again while it is refused.
    pub fn new(guide: G) -> Unextended<G>
        ensures asked { ⟦<Unextended<G> as Guide>⟧.asked result ≡ 0 }
        ensures last { ⟦<Unextended<G> as Guide>⟧.last result ≡ Done }
    {
        Unextended {
            guide,
            asked: 0,
            last: Proposal::Done,
            heard: false,
        }
    }
}

// The first of a guide's proposals that is no extended reduction.
fn next_plain<G: Guide>(guide: &mut G, kernel: &Kernel) -> Proposal
    requires { IsReady kernel.now }
{
    for _ in 0..u64::MAX {
        let proposal = guide.propose(kernel);
        if !is_extended(kernel, &proposal) {
            return proposal;
        }
        guide.told(false);
    }
    Proposal::Done
}

fn is_extended(kernel: &Kernel, proposal: &Proposal) -> bool {
    match proposal {
        Proposal::Take(Move::Reduce(Target::Cut { c, l })) => {
            has_inner(kernel, lits_of(kernel, *c), *l)
        }
        _ => false,
    }
}

impl<G: Guide> Guide for Unextended<G> {
    ghost asked = { λ g. g.asked };

    ghost last = { λ g. g.last };

    ghost heard = { λ g. g.heard };

    fn propose(&mut self, kernel: &Kernel) -> Proposal {
        self.asked = self.asked.saturating_add(1);
        self.last = next_plain(&mut self.guide, kernel);
        self.last
    }

    fn told(&mut self, taken: bool) {
        self.heard = taken;
        self.guide.told(taken);
    }

    fn hint(&self) -> &[Step] {
        self.guide.hint()
    }
}
