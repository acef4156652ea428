// Clauses in one row of words, as MiniSat keeps them. A deleted or shortened clause leaves dead words behind; sliding moves the
// clauses down over them, one at a time and in the order of the row, so that a place changes only where its clause is slid.
ghost use Rattle.std.specs.Prelude.{◌≡◌, ◌≢◌, ◌⊎◌, ◌↔◌, ◌≤◌, ◌<◌, ◌+◌, ◌-◌, ◌^◌, ◌∷◌, [], ℕ, length, slice_set, slice_index_or, OnOk, OnErr, List, None, Some, Option, IsTrue};
ghost use Rattle.q_logic.specs.Prelude.{Literal, IsBelow, IsIn, ArePairs, without};
ghost use Rattle.q_arena.specs.Seen.{Clauses, clause_at, start_at, without_at, IsLive, IsFree, IsEnd, IsFilled, IsFirstPastDead, live_in, words_in, AreSameClauses};

use crate::ids::Ids;
use crate::slots::{
    Slot, end_below, end_of, gap_after_delete, gap_after_drop, grow_ids, grow_words, move_down,
    part, slot_of, write,
};
use q_logic::{Lit, NoMemory};
use std::alloc::Global;
use std::marker::Model;

/// The number of a clause. It may be given again once its clause is deleted.
pub type ClauseId = u32;

/// Clauses in one row of words. A clause is shortened in place, which leaves dead words behind it;
/// sliding moves the clauses down over them.
#[derive(Drop)]
pub struct Arena {
    words: Vec<Lit>,
    slots: Vec<Slot>,
    ids: Ids,
    // the end of the last clause
    end: usize,
    // the words that the clauses have
    total: usize,
    // the first clause with dead words before it
    gap: Option<usize>,
}

impl Model for Arena {
    ghost use Rattle.std.specs.Prelude.{◌≡◌, ◌-◌, ◌<◌, length, map};
    ghost use Rattle.q_arena.specs.Seen.{Clauses, clause_in};
    ghost use Rattle.q_arena.specs.Gaps.{IsSound};

    ghost Value = { Clauses };

    ghost view = { λ a. record {
      clauses = map (clause_in a.words.items) a.slots.items;
      starts = map (λ s. s.start) a.slots.items;
      room = length a.words.items;
      spare_words = length a.words.items - a.end;
      spare_ids = length a.ids.free;
      dead = a.end - a.total;
      next = a.gap;
    } };

    ghost invariant = { λ a. IsSound a.words.items a.slots.items a.ids a.end a.total a.gap };
}

impl Arena {
    pub fn new(alloc: Global) -> Arena
        ensures { result ≡ record {
          clauses = [];
          starts = [];
          room = 0;
          spare_words = 0;
          spare_ids = 0;
          dead = 0;
          next = None;
        } }
    {
        Arena {
            words: Vec::new(alloc),
            slots: Vec::new(alloc),
            ids: Ids::new(alloc),
            end: 0,
            total: 0,
            gap: None,
        }
    }

    /// Makes the spare words and the spare ids at least so many.
    pub fn reserve(&mut self, words: usize, ids: usize) -> Result<(), NoMemory>
        requires { live_in self.old.clauses + ids ≤ 4294967294 }
        ensures words { OnOk result (words ≤ self.new.spare_words) }
        ensures ids { OnOk result (ids ≤ self.new.spare_ids) }
        ensures same { AreSameClauses self.old self.new }
        ensures room { self.old.room ≤ self.new.room }
        ensures grown { self.new.room ≤ self.old.room + (words - self.old.spare_words) }
        ensures kept_words { self.old.spare_words ≤ self.new.spare_words }
        ensures kept_ids { self.old.spare_ids ≤ self.new.spare_ids }
        ensures dead { self.new.dead ≡ self.old.dead }
        ensures next { self.new.next ≡ self.old.next }
    {
        grow_words(&mut self.words, self.end, words)?;
        let spare = self.ids.spare();
        if ids <= spare {
            return Ok(());
        }
        let size = self.slots.len() + (ids - spare);
        grow_ids(&mut self.slots, &mut self.ids, size)
    }

    /// Places in the row are below this number.
    pub fn room(&self) -> usize
        ensures { result ≡ self.now.room }
    {
        self.words.len()
    }

    /// How many more words clauses may take.
    pub fn spare_words(&self) -> usize
        ensures { result ≡ self.now.spare_words }
    {
        self.words.len() - self.end
    }

    /// Live clauses stand within the room, apart from one another.
    pub fn apart(&self)
        ensures within { (i : ℕ) (c : List Literal) → clause_at self.now i ≡ Some c
            → start_at self.now i + length c ≤ self.now.room }
        ensures apart { (i j : ℕ) (c d : List Literal) → clause_at self.now i ≡ Some c
            → clause_at self.now j ≡ Some d → i ≢ j
            → (start_at self.now i + length c ≤ start_at self.now j)
            ⊎ (start_at self.now j + length d ≤ start_at self.now i) }
        ensures few { self.now.room < 18446744073709551616 }
        ensures ids { length self.now.clauses ≡ live_in self.now.clauses + self.now.spare_ids }
        ensures few_ids { length self.now.clauses ≤ 4294967295 }
    {
        let _ = &self.words;
    }

    /// The first clause with dead words before it.
    pub fn next_to_slide(&self) -> Option<ClauseId>
        ensures next { result ≡ self.now.next }
        ensures none { result ≡ None → self.now.dead ≡ 0 }
        ensures some { (id : ℕ) → result ≡ Some id → (0 < self.now.dead)
            × IsFirstPastDead self.now id }
    {
        let id = self.gap?;
        Some(id as ClauseId)
    }

    /// How many words before the end of the last clause no clause has.
    pub fn dead(&self) -> usize
        ensures value { result ≡ self.now.dead }
        ensures meaning { (last : ℕ) × IsEnd self.now last × (result + words_in self.now.clauses
            ≡ last) }
    {
        self.end - self.total
    }

    /// The place of the clause's first word.
    pub fn start(&self, id: ClauseId) -> usize
        requires { IsLive self.now id }
        ensures { result ≡ start_at self.now id }
    {
        self.slots[id as usize].start as usize
    }

    pub fn live(&self, id: ClauseId) -> bool
        ensures { IsTrue result ↔ IsLive self.now id }
    {
        slot_of(&self.slots, id as usize).live
    }

    pub fn lits(&self, id: ClauseId) -> &[Lit]
        requires { IsLive self.now id }
        ensures clause { clause_at self.now id ≡ Some result.now }
        ensures ordered { ArePairs IsBelow result.now }
    {
        let slot = self.slots[id as usize];
        part(&self.words, slot.start as usize, slot.len as usize)
    }

    /// The least live id at or above one.
    pub fn next_live(&self, from: u32) -> Option<ClauseId>
        ensures some { (id : ℕ) → result ≡ Some id → (from ≤ id) × IsLive self.now id }
        ensures least { (id k : ℕ) → result ≡ Some id → from ≤ k → k < id → IsLive self.now k → ⊥ }
        ensures none { result ≡ None → (k : ℕ) → from ≤ k → IsLive self.now k → ⊥ }
    {
        for id in from..self.slots.len() as ClauseId {
            if self.live(id) {
                return Some(id);
            }
        }
        None
    }

    pub fn delete(&mut self, id: ClauseId)
        requires { IsLive self.old id }
        ensures clauses { self.new.clauses ≡ slice_set self.old.clauses id None }
        ensures starts { self.new.starts ≡ self.old.starts }
        ensures room { self.new.room ≡ self.old.room }
        ensures words { self.old.spare_words ≤ self.new.spare_words }
        ensures ids { self.new.spare_ids ≡ self.old.spare_ids + 1 }
    {
        let at = id as usize;
        let slot = self.slots[at];
        let up = self.ids.after(at);
        let gap = gap_after_delete(&self.slots, self.gap, at, up);
        self.ids.give(at);
        self.slots[at].live = false;
        self.total -= slot.len as usize;
        self.end = end_of(&self.slots, &self.ids);
        self.gap = gap;
    }

    /// Shortens a clause by one of its literals, in place.
    pub fn drop_lit(&mut self, id: ClauseId, lit: Lit)
        requires { (c : List Literal) × (clause_at self.old id ≡ Some c) × IsIn lit c }
        ensures clauses { (c : List Literal) → clause_at self.old id ≡ Some c
            → self.new.clauses ≡ slice_set self.old.clauses id (Some (without lit c)) }
        ensures starts { self.new.starts ≡ self.old.starts }
        ensures room { self.new.room ≡ self.old.room }
        ensures words { self.old.spare_words ≤ self.new.spare_words }
        ensures ids { self.new.spare_ids ≡ self.old.spare_ids }
    {
        let at = place_of(self.lits(id), lit);
        self.drop_at(id, at);
    }

    // Leaves out the literal at a place of a clause.
    fn drop_at(&mut self, id: ClauseId, k: usize)
        requires { (c : List Literal) × (clause_at self.old id ≡ Some c) × (k < length c) }
        ensures clauses { (c : List Literal) → clause_at self.old id ≡ Some c
            → self.new.clauses ≡ slice_set self.old.clauses id (Some (without_at k c)) }
        ensures starts { self.new.starts ≡ self.old.starts }
        ensures room { self.new.room ≡ self.old.room }
        ensures words { self.old.spare_words ≤ self.new.spare_words }
        ensures ids { self.new.spare_ids ≡ self.old.spare_ids }
    {
        let at = id as usize;
        let slot = slot_of(&self.slots, at);
        let up = self.ids.after(at);
        let gap = gap_after_drop(&self.slots, self.gap, at, up);
        let from = slot.start as usize + k;
        move_down(&mut self.words, from + 1, from, slot.len as usize - k - 1);
        self.slots[at] = Slot {
            start: slot.start,
            len: slot.len - 1,
            live: true,
        };
        self.total -= 1;
        self.end = end_of(&self.slots, &self.ids);
        self.gap = gap;
    }

    /// Moves the clause that `next_to_slide` names down to the end of the one before it in the row.
    pub fn slide(&mut self, id: ClauseId)
        requires next { self.old.next ≡ Some id }
        ensures clauses { self.new.clauses ≡ self.old.clauses }
        ensures starts { (i : ℕ) (c : List Literal) → clause_at self.old i ≡ Some c → i ≢ id
            → start_at self.new i ≡ start_at self.old i }
        ensures moved { self.new.starts ≡ slice_set self.old.starts id (start_at self.new id) }
        ensures lower { start_at self.new id < start_at self.old id }
        ensures filled { IsFilled self.new (start_at self.new id) }
        ensures room { self.new.room ≡ self.old.room }
        ensures words { self.old.spare_words ≤ self.new.spare_words }
        ensures ids { self.new.spare_ids ≡ self.old.spare_ids }
    {
        let at = id as usize;
        let slot = slot_of(&self.slots, at);
        self.ids.distinct();
        let to = end_below(&self.slots, &self.ids, at);
        move_down(&mut self.words, slot.start as usize, to, slot.len as usize);
        let up = self.ids.after(at);
        self.slots[at] = Slot {
            start: to as u32,
            len: slot.len,
            live: true,
        };
        self.end = end_of(&self.slots, &self.ids);
        self.gap = up;
    }

    /// Adds a clause at the end of the row, under an id that is not live.
    pub fn add(&mut self, lits: &[Lit]) -> ClauseId
        requires ordered { ArePairs IsBelow lits.now }
        requires words { length lits.now ≤ self.old.spare_words }
        requires ids { 1 ≤ self.old.spare_ids }
        ensures fresh { clause_at self.old result ≡ None }
        ensures below { result < 4294967295 }
        ensures there { clause_at self.new result ≡ Some lits.now }
        ensures clauses { self.new.clauses ≡ slice_set self.old.clauses result (Some lits.now) }
        ensures starts { (i : ℕ) (c : List Literal) → clause_at self.old i ≡ Some c
            → start_at self.new i ≡ start_at self.old i }
        ensures room { self.new.room ≡ self.old.room }
        ensures words { self.old.spare_words ≡ self.new.spare_words + length lits.now }
        ensures ids { self.old.spare_ids ≡ self.new.spare_ids + 1 }
        ensures dead { self.new.dead ≡ self.old.dead }
    {
        let id = self.free_id();
        self.add_at(id, lits);
        id
    }

    /// An id that is not live.
    pub fn free_id(&self) -> ClauseId
        requires { 1 ≤ self.now.spare_ids }
        ensures free { IsFree self.now result }
        ensures below { result < 4294967295 }
    {
        self.ids.free() as ClauseId
    }

    /// Adds a clause at the end of the row, under this id.
    pub fn add_at(&mut self, id: ClauseId, lits: &[Lit])
        requires free { IsFree self.old id }
        requires ordered { ArePairs IsBelow lits.now }
        requires words { length lits.now ≤ self.old.spare_words }
        ensures there { clause_at self.new id ≡ Some lits.now }
        ensures clauses { self.new.clauses ≡ slice_set self.old.clauses id (Some lits.now) }
        ensures starts { (i : ℕ) (c : List Literal) → clause_at self.old i ≡ Some c
            → start_at self.new i ≡ start_at self.old i }
        ensures room { self.new.room ≡ self.old.room }
        ensures words { self.old.spare_words ≡ self.new.spare_words + length lits.now }
        ensures ids { self.old.spare_ids ≡ self.new.spare_ids + 1 }
        ensures dead { self.new.dead ≡ self.old.dead }
    {
        self.ids.distinct();
        let at = id as usize;
        self.ids.take(at);
        write(&mut self.words, self.end, lits);
        self.slots[at] = Slot {
            start: self.end as u32,
            len: lits.len() as u32,
            live: true,
        };
        self.end += lits.len();
        self.total += lits.len();
    }
}

// The place of a literal in a clause.
fn place_of(lits: &[Lit], lit: Lit) -> usize
    requires { IsIn lit lits.now }
    ensures below { result < length lits.now }
    ensures there { (d : Literal) → slice_index_or lits.now result d ≡ lit }
{
    for at in 0..lits.len() {
        if lits[at].is(lit) {
            return at;
        }
    }
    0
}
