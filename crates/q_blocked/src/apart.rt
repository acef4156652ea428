//! Pairs of clauses that are known to have nothing in common.
//!
//! **The idea.** Two clauses with `not l` show that nothing is covered on l where none of them clashes with the set, and they have nothing
//! in common beyond it. Mostly they have nothing in common whatever the set is. Where a walk along them has shown that, it is
//! noted, and from then on only a clash is looked for.
//!
//! **When a note is right.** It speaks of a kernel, its prefix and two of its clauses, and of no set. So it stays right while the sets of
//! other clauses grow, and is forgotten before the kernel changes.
ghost use Rattle.std.specs.Prelude.{◌≡◌, [], true};
ghost use Rattle.q_logic.specs.Prelude.{others};
ghost use Rattle.q_kernel.specs.Prelude.{Seen, slots};
ghost use Rattle.q_blocked.specs.Walks.{CoversNothing};
ghost use Rattle.q_blocked.specs.Notes.{IsApart, AreApart};

use crate::clashing::clashes;
use crate::pairs::{NO_PAIR, Pair};
use q_kernel::{ClauseId, Kernel};
use q_logic::{Lit, NoMemory};
use q_pages::Pages;
use q_rule::{Queue, clause_of};
use std::alloc::Global;

/// The literals for which two clauses are noted, and these clauses.
#[derive(Drop)]
pub struct Apart {
    pub noted: Queue,
    pub pairs: Pages<Pair>,
}

impl Apart {
    pub fn new(alloc: Global) -> Apart
        ensures { result.noted ≡ [] }
    {
        Apart {
            noted: Queue::new(alloc),
            pairs: Pages::new(alloc, NO_PAIR),
        }
    }

    /// Makes the notes right for any kernel.
    pub fn forget(&mut self)
        ensures { self.new.noted ≡ [] }
    {
        self.noted.clear();
    }

    /// Notes two clauses for a literal.
    pub fn note(&mut self, l: Lit, pair: Pair) -> Result<(), NoMemory>
        ensures { (k : Seen) → AreApart k self.old
            → IsApart k.prefix (slots k) l pair.first pair.second → AreApart k self.new }
    {
        self.pairs.grow(l.index() + 1)?;
        self.pairs.make(l.index())?;
        self.pairs.set(l.index(), pair);
        if self.noted.has(l) {
            return Ok(());
        }
        self.noted.push(l)
    }

    /// Whether the clauses that are noted for a literal show that the set has all that is covered on it.
    // Hot where sets are large: each literal that is asked costs a walk along two clauses.
    pub fn cover_nothing(&self, kernel: &Kernel, set: &Queue, c: ClauseId, l: Lit) -> bool
        requires { AreApart kernel.now self.now }
        ensures { result ≡ true → CoversNothing kernel.now.prefix (others c (slots kernel.now)) l
            set.now }
    {
        if !self.noted.has(l) {
            return false;
        }
        let pair = self.pairs.get(l.index());
        if pair.first == c || pair.second == c {
            return false;
        }
        if clashes(kernel, set, clause_of(kernel, pair.first), l) {
            return false;
        }
        !clashes(kernel, set, clause_of(kernel, pair.second), l)
    }
}
