//! A guide that eliminates variables, those with the fewest occurrences first.
//!
//! **The idea.** The fewer clauses hold a variable, the fewer resolvents come in their place. So the existential with the
//! fewest occurrences is tried first, then the one with the next fewest; once one has gone, it starts again.
//!
//! **Source.** Sathiamoorthy Subbarayan and Dhiraj Pradhan, "NiVER" (SAT 2004); Niklas Eén and Armin Biere, "Effective
//! preprocessing in SAT through variable and clause elimination" (SAT 2005); for prefixes Armin Biere, Florian Lonsing and
//! Martina Seidl, "Blocked clause elimination for QBF" (CADE 2011, Bloqqer).
//!
//! **How it is found.** By a heap of pairs of number of occurrences and variable (`rounds.rt`).
ghost use Rattle.std.specs.Prelude.{◌≡◌};
ghost use Rattle.q_kernel.specs.Prelude.{IsReady};
ghost use Rattle.q_sched.specs.Kinds.{IsElimination};
ghost use Rattle.q_sched.specs.declared.guide.Proposal.TheVariants.{Done};
ghost use Rattle.q_logic.specs.Prelude.{Rose};

use crate::ascending::{Ascending, Key};
use crate::guide::{Guide, Proposal};
use crate::moves::Move;
use crate::rounds::{Keyed, Rounds};
use q_kernel::{ClauseId, Kernel, Touch};
use q_logic::{Lit, NoMemory};
use q_rule::is_existential;

// The existential variables by number of occurrences.
#[derive(Drop)]
struct Variables;

fn put_clause(keys: &mut Ascending, kernel: &Kernel, id: ClauseId) -> Result<(), NoMemory> {
    if !kernel.live(id) {
        return Ok(());
    }
    for lit in kernel.lits(id) {
        keys.put(Variables::key_of(kernel, lit.var()))?;
    }
    Ok(())
}

impl Keyed for Variables {
    fn key_of(kernel: &Kernel, var: u32) -> Option<Key> {
        if var == 0 || var >= 2_147_483_648 || !is_existential(kernel, var) {
            return None;
        }
        let negative = kernel.count(Lit::new(var, true));
        let positive = kernel.count(Lit::new(var, false));
        Some((negative.saturating_add(positive), var))
    }

    fn next_item(kernel: &Kernel, from: u32) -> Option<u32> {
        (from <= kernel.greatest_var()).then_some(from)
    }

    fn put_touched(keys: &mut Ascending, kernel: &Kernel, touch: Touch) -> Result<(), NoMemory> {
        match touch {
            Touch::Clause(id) => put_clause(keys, kernel, id),
            Touch::Literal(lit) => keys.put(Self::key_of(kernel, lit.var())),
            Touch::Variable(var) => keys.put(Self::key_of(kernel, var)),
        }
    }
}

/// Proposes to eliminate the existential with the least pair of number of occurrences and variable above a cursor, and
/// starts again once a proposal was taken.
#[derive(Drop)]
pub struct FewestFirst {
    rounds: Rounds<Variables>,
    asked: u64,
    last: Proposal,
    heard: bool,
}

impl FewestFirst {
    pub fn new() -> FewestFirst
        ensures asked { ⟦<FewestFirst as Guide>⟧.asked result ≡ 0 }
        ensures last { ⟦<FewestFirst as Guide>⟧.last result ≡ Done }
    {
        FewestFirst {
            rounds: Rounds::new(),
            asked: 0,
            last: Proposal::Done,
            heard: false,
        }
    }
}

impl Guide for FewestFirst {
    ghost asked = { λ g. g.asked };

    ghost last = { λ g. g.last };

    ghost heard = { λ g. g.heard };

    fn propose(&mut self, kernel: &Kernel) -> Proposal
        requires ready { IsReady kernel.now }
        ensures answer { self.new.last ≡ result }
        ensures rises { Rose self.old.asked self.new.asked }
        ensures kind { IsElimination result }
    {
        self.asked = self.asked.saturating_add(1);
        self.last = match self.rounds.next(kernel) {
            Ok(Some(x)) => Proposal::Take(Move::Eliminate(q_eliminate::Target::Eliminate { x })),
            Ok(None) => Proposal::Done,
            Err(NoMemory) => Proposal::NoMemory,
        };
        self.last
    }

    fn told(&mut self, taken: bool) {
        self.heard = taken;
        self.rounds.told(taken);
    }
}
