//! The clauses that hold a literal.
ghost use Rattle.std.specs.Prelude.{◌≡◌, ℕ, All, Contains};
ghost use Rattle.std.specs.Iterator.{YieldsFirst, item_count};
ghost use Rattle.q_kernel.specs.Kernels.{HoldsLiteral};
ghost use Rattle.q_kernel.specs.Visits.{holders_of, AreOnce, IsHolder};

use crate::kernel::Kernel;
use q_arena::ClauseId;
use q_logic::Lit;
use std::marker::Model;

/// The clauses that hold a literal, seen as the list of the ids that are left. The kernel can't change before it is done.
#[derive(Drop)]
pub struct Holders<'k> {
    kernel: &'k Kernel,
    // of no use at run time: the proof names the list by it
    lit: Lit,
    at: Option<usize>,
}

impl<'k> Model for Holders<'k> {
    ghost use Rattle.std.specs.Prelude.{List, ℕ};
    ghost use Rattle.q_kernel.specs.Visits.{holders_since, IsWalk};

    ghost Value = { List ℕ };

    ghost view = { λ h. holders_since h.kernel.now h.lit h.at };

    ghost invariant = { λ h. IsWalk h.kernel.now h.lit h.at };
}

impl<'k> Iterator for Holders<'k> {
    type Item = ClauseId;

    ghost next_gives = { YieldsFirst (λ rest. rest) };

    ghost remaining = { item_count (λ rest. rest) };

    fn next(&mut self) -> Option<ClauseId> {
        let place = self.at?;
        let id = self.kernel.owner(place);
        self.at = self.kernel.next(place);
        Some(id)
    }
}

impl Kernel {
    /// The clauses that hold a literal, each once, in the order of its list.
    pub fn holders(&self, lit: Lit) -> Holders<'_>
        ensures value { result ≡ holders_of self.now lit }
        ensures hold { All (λ c. IsHolder self.now lit c) result }
        ensures all { (c : ℕ) → HoldsLiteral self.now c lit → Contains result c }
        ensures once { AreOnce result }
    {
        self.sound();
        let at = self.first(lit);
        Holders {
            kernel: self,
            lit,
            at,
        }
    }
}
