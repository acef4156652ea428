// The lists of occurrences: for each literal the places where clauses hold it, as rings of `q_arena`. A place knows its clause.
ghost use Rattle.std.specs.Prelude.{◌≡◌, ◌≤◌, ◌<◌, ◌+◌, ◌*◌, ◌⊎◌, ℕ, Bool, true, false, length, slice_get, slice_index_or, OnOk, IfOk, None, Some};
ghost use Rattle.q_logic.specs.Prelude.{Literal};
ghost use Rattle.q_arena.specs.Prelude.{Has, AreApart, list_at, following, HasSameLists, HasSameOwners, IsLive};
ghost use Rattle.q_occ.specs.Places.{places_of, AreExact, with_linked, IsLinked, IsUnlinked, IsReserved, IsLinking, IsUnlinking, KeepsRoom};

use crate::linking::{link_all, unlink_all};
use q_arena::{Arena, ClauseId, Rings};
use q_logic::{Lit, NoMemory};
use q_sparse::Filling;
use std::alloc::Global;
use std::marker::Model;

/// For each literal a doubly linked list of its places in the clauses that are linked, in any order.
#[derive(Drop)]
pub struct Occ {
    rings: Rings,
}

impl Model for Occ {
    ghost use Rattle.q_arena.specs.Prelude.{Chains};

    ghost Value = { Chains };

    ghost view = { λ o. o.rings };
}

impl Occ {
    /// Lists for variables up to `vars`, of which most are literals' or few.
    pub fn new(alloc: Global, vars: u32, filling: Filling) -> Result<Occ, NoMemory>
        ensures empty { IfOk result (λ o. (h p : ℕ) → Has (list_at o h) p → ⊥) }
        ensures vars { IfOk result (λ o. 2 * vars + 2 ≤ length o.lists) }
    {
        let mut rings = Rings::new(alloc, Filling::Most, filling);
        rings.reserve(0, 2 * vars as usize + 2)?;
        Ok(Occ { rings })
    }

    /// Room for places below `words` and for variables up to `vars`.
    pub fn reserve(&mut self, words: usize, vars: u32) -> Result<(), NoMemory>
        ensures words { OnOk result (words ≤ length self.new.owners) }
        ensures vars { OnOk result (2 * vars + 2 ≤ length self.new.lists) }
        ensures kept { KeepsRoom self.old self.new }
        ensures lists { HasSameLists self.old self.new }
        ensures owners { HasSameOwners self.old self.new }
    {
        self.rings.reserve(words, 2 * vars as usize + 2)
    }

    /// Each place is in one list at most, and once, and places are small numbers.
    pub fn distinct(&self)
        ensures apart { (l : Literal) → AreApart (places_of self.now l) }
        ensures one { (l m : Literal) (p : ℕ) → Has (places_of self.now l) p
            → Has (places_of self.now m) p → l ≡ m }
        ensures few { length self.now.owners < 4294967296 }
    {
        self.rings.distinct();
    }

    /// Puts the places of a clause into the lists.
    pub fn link(&mut self, arena: &Arena, id: ClauseId)
        requires live { IsLive arena.now id }
        requires unlinked { IsUnlinked self.old arena.now id }
        requires reserved { IsReserved self.old arena.now id }
        ensures linked { IsLinking self.old self.new arena.now id }
        ensures kept { KeepsRoom self.old self.new }
        ensures exact { (linked : ℕ → Bool) → AreExact self.old arena.now linked
            → AreExact self.new arena.now (with_linked id true linked) }
    {
        arena.apart();
        link_all(&mut self.rings, arena.start(id), arena.lits(id), id);
    }

    /// Takes the places of a clause out of the lists.
    pub fn unlink(&mut self, arena: &Arena, id: ClauseId)
        requires live { IsLive arena.now id }
        requires linked { IsLinked self.old arena.now id }
        ensures unlinked { IsUnlinking self.old self.new arena.now id }
        ensures kept { KeepsRoom self.old self.new }
        ensures exact { (linked : ℕ → Bool) → AreExact self.old arena.now linked
            → AreExact self.new arena.now (with_linked id false linked) }
    {
        arena.apart();
        unlink_all(&mut self.rings, arena.start(id), arena.lits(id));
    }

    /// A place of the literal.
    pub fn first(&self, lit: Lit) -> Option<usize>
        ensures first { result ≡ slice_get (places_of self.now lit) 0 }
        ensures there { (p : ℕ) → result ≡ Some p → Has (places_of self.now lit) p }
    {
        if lit.index() >= self.rings.heads() {
            return None;
        }
        self.rings.first(lit.index())
    }

    /// The place after one of a list.
    pub fn next(&self, place: usize) -> Option<usize>
        requires { (l : Literal) × Has (places_of self.now l) place }
        ensures next { (l : Literal) → Has (places_of self.now l) place
            → result ≡ following place (places_of self.now l) }
        ensures there { (l : Literal) (p : ℕ) → Has (places_of self.now l) place → result ≡ Some p
            → Has (places_of self.now l) p }
    {
        self.rings.next(place)
    }

    /// The clause that has a place.
    pub fn owner(&self, place: usize) -> ClauseId
        requires { (l : Literal) × Has (places_of self.now l) place }
        ensures { result ≡ slice_index_or self.now.owners place 0 }
    {
        self.rings.distinct();
        self.rings.owner(place)
    }

    /// How many places of the literal there are.
    pub fn count(&self, lit: Lit) -> u32
        ensures { result ≡ length (places_of self.now lit) }
    {
        if lit.index() >= self.rings.heads() {
            return 0;
        }
        self.rings.count(lit.index())
    }
}
