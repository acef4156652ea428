//! The ids of the live clauses.
ghost use Rattle.std.specs.Prelude.{◌≡◌, ◌≤◌, ℕ, All, Contains};
ghost use Rattle.std.specs.Iterator.{YieldsFirst, item_count};
ghost use Rattle.q_kernel.specs.Kernels.{slots};
ghost use Rattle.q_kernel.specs.Visits.{ids_of, ids_since, IsLive, AreOnce};

use crate::kernel::Kernel;
use q_arena::ClauseId;
use std::marker::Model;

/// The ids of the live clauses, ascending, seen as the list of those that are left.
#[derive(Drop)]
pub struct Ids<'k> {
    kernel: &'k Kernel,
    from: u32,
}

impl<'k> Model for Ids<'k> {
    ghost use Rattle.std.specs.Prelude.{◌≤◌, List, ℕ, length};
    ghost use Rattle.q_kernel.specs.Kernels.{slots};
    ghost use Rattle.q_kernel.specs.Visits.{ids_since};

    ghost Value = { List ℕ };

    ghost view = { λ i. ids_since i.kernel.now i.from };

    ghost invariant = { λ i. length (slots i.kernel.now) ≤ 4294967295 };
}

impl<'k> Iterator for Ids<'k> {
    type Item = ClauseId;

    ghost next_gives = { YieldsFirst (λ rest. rest) };

    ghost remaining = { item_count (λ rest. rest) };

    fn next(&mut self) -> Option<ClauseId> {
        let Some(id) = self.kernel.next_live(self.from) else {
            return None;
        };
        self.from = id + 1;
        Some(id)
    }
}

impl Kernel {
    /// The ids of the live clauses, each once, ascending.
    pub fn ids(&self) -> Ids<'_>
        ensures value { result ≡ ids_of self.now }
        ensures live { All (λ c. IsLive (slots self.now) c) result }
        ensures all { (c : ℕ) → IsLive (slots self.now) c → Contains result c }
        ensures once { AreOnce result }
    {
        self.ids_from(0)
    }

    /// Those at or above a number.
    pub fn ids_from(&self, from: u32) -> Ids<'_>
        ensures value { result ≡ ids_since self.now from }
        ensures live { All (λ c. IsLive (slots self.now) c) result }
        ensures above { All (λ c. from ≤ c) result }
        ensures all { (c : ℕ) → from ≤ c → IsLive (slots self.now) c → Contains result c }
        ensures once { AreOnce result }
    {
        self.known_ids();
        Ids { kernel: self, from }
    }
}
