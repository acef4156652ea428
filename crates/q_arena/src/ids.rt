// The numbers of clauses in two linked lists: those in use, in the order of the row, and the free ones.
ghost use Rattle.std.specs.Prelude.{◌≡◌, ◌≤◌, ◌<◌, ◌+◌, ◌++◌, ◌∷◌, [], ℕ, length, slice_get, OnOk, OnErr, None, Some};
ghost use Rattle.q_arena.specs.Rings.{Has, AreApart, without};
ghost use Rattle.q_arena.specs.Chains.{following, preceding};
ghost use Rattle.q_arena.specs.Layout.{Order};

use crate::rings::Rings;
use q_logic::NoMemory;
use q_sparse::Filling;
use std::alloc::Global;
use std::marker::Model;

// The two lists of ids: the live ones from the end of the row back, and the free ones.
const LIVE: usize = 0;

const FREE: usize = 1;

/// The ids: those in use, the last clause of the row first, and the free ones.
#[derive(Drop)]
pub struct Ids {
    lists: Rings,
}

impl Model for Ids {
    ghost use Rattle.std.specs.Prelude.{length};
    ghost use Rattle.q_arena.specs.Layout.{Order, AreIds};
    ghost use Rattle.q_arena.specs.Chains.{list_at};

    ghost Value = { Order };

    ghost view = { λ a. record {
      used = list_at a.lists 0;
      free = list_at a.lists 1;
      size = length a.lists.owners;
    } };

    ghost invariant = { λ a. AreIds a.lists };
}

impl Ids {
    pub fn new(alloc: Global) -> Ids
        ensures { result ≡ record { used = []; free = []; size = 0 } }
    {
        Ids {
            lists: Rings::new(alloc, Filling::Most, Filling::Most),
        }
    }

    /// Room for so many ids.
    pub fn reserve(&mut self, size: usize) -> Result<(), NoMemory>
        ensures used { self.new.used ≡ self.old.used }
        ensures free { self.new.free ≡ self.old.free }
        ensures size { self.old.size ≤ self.new.size }
    {
        self.lists.reserve(size, 2)
    }

    /// One more free id.
    pub fn add(&mut self, id: usize) -> Result<(), NoMemory>
        requires used { Has self.old.used id → ⊥ }
        requires free { Has self.old.free id → ⊥ }
        ensures used { self.new.used ≡ self.old.used }
        ensures free { OnOk result (self.new.free ≡ id ∷ self.old.free) }
        ensures same { OnErr result (self.new.free ≡ self.old.free) }
        ensures size { self.old.size ≤ self.new.size }
        ensures within { OnOk result (id < self.new.size) }
    {
        if id == usize::MAX {
            return Err(NoMemory);
        }
        self.lists.reserve(id + 1, 2)?;
        self.lists.push_front(FREE, id, 0);
        Ok(())
    }

    /// How many ids are free.
    pub fn spare(&self) -> usize
        ensures { result ≡ length self.now.free }
    {
        if self.lists.heads() <= FREE {
            return 0;
        }
        self.lists.count(FREE) as usize
    }

    /// No id is twice in the lists, and each is below the size.
    pub fn distinct(&self)
        ensures used { AreApart self.now.used }
        ensures free { AreApart self.now.free }
        ensures one { (i : ℕ) → Has self.now.used i → Has self.now.free i → ⊥ }
        ensures below { (i : ℕ) → Has self.now.used i → i < self.now.size }
        ensures below_free { (i : ℕ) → Has self.now.free i → i < self.now.size }
    {
        self.lists.distinct();
    }

    /// The id of the last clause of the row.
    pub fn last(&self) -> Option<usize>
        ensures { result ≡ slice_get self.now.used 0 }
    {
        if self.lists.heads() == 0 {
            return None;
        }
        self.lists.first(LIVE)
    }

    /// The id of the clause before one in the row.
    pub fn before(&self, id: usize) -> Option<usize>
        requires { Has self.now.used id }
        ensures { result ≡ following id self.now.used }
    {
        self.lists.next(id)
    }

    /// The id of the clause after one in the row.
    pub fn after(&self, id: usize) -> Option<usize>
        requires { Has self.now.used id }
        ensures { result ≡ preceding id self.now.used }
    {
        self.lists.prev(id)
    }

    /// A free id.
    pub fn free(&self) -> usize
        requires { 1 ≤ length self.now.free }
        ensures { Has self.now.free result }
    {
        match self.lists.first(FREE) {
            Some(id) => id,
            None => 0,
        }
    }

    /// Takes a free id into use.
    pub fn take(&mut self, id: usize)
        requires { Has self.old.free id }
        ensures used { self.new.used ≡ id ∷ self.old.used }
        ensures free { self.new.free ≡ without id self.old.free }
        ensures size { self.new.size ≡ self.old.size }
    {
        self.lists.distinct();
        self.lists.remove(FREE, id);
        self.lists.push_front(LIVE, id, 1);
    }

    /// Frees an id.
    pub fn give(&mut self, id: usize)
        requires { Has self.old.used id }
        ensures used { self.new.used ≡ without id self.old.used }
        ensures free { self.new.free ≡ id ∷ self.old.free }
        ensures size { self.new.size ≡ self.old.size }
    {
        self.lists.distinct();
        self.lists.remove(LIVE, id);
        self.lists.push_front(FREE, id, 0);
    }
}
