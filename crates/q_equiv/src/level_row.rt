//! A level for each literal.
ghost use Rattle.std.specs.Prelude.{◌≡◌, []};
ghost use Rattle.q_equiv.specs.Walks.{level_of};

use q_logic::{Lit, NoMemory};
use q_sparse::Sparse;
use std::alloc::Global;
use std::marker::Model;

/// A level for each literal: 0 where none was put.
#[derive(Drop)]
pub struct Levels {
    row: Sparse<u32>,
}

impl Model for Levels {
    ghost use Rattle.std.specs.Prelude.{◌≡◌, List, ℕ};

    ghost Value = { List ℕ };

    ghost view = { λ l. l.row.items };

    ghost invariant = { λ l. l.row.none ≡ 0 };
}

impl Levels {
    pub(crate) fn new(alloc: Global) -> Levels
        ensures { result ≡ [] }
    {
        Levels {
            row: Sparse::new(alloc, 0),
        }
    }

    pub(crate) fn is_empty(&self) -> bool {
        self.row.len() == 0
    }

    #[inline(always)]
    pub(crate) fn of(&self, lit: Lit) -> u32
        ensures { result ≡ level_of self.now lit }
    {
        self.row.get(lit.index())
    }

    /// Room for the levels of literals by their places.
    pub(crate) fn grow(&mut self, end: usize) -> Result<(), NoMemory> {
        self.row.grow(end)
    }

    /// Puts a level at a place, if there is room.
    pub(crate) fn put(&mut self, place: usize, level: u32) {
        if place < self.row.len() {
            self.row.set(place, level);
        }
    }
}
