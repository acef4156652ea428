// The formula while it is simplified, and the log of what was done to it. Each change is one valid step of the proof: clauses
// stand in the arena, their places in the lists of literals, the variables in the prefix, and the text of the step goes to the
// pending bytes, all by one call. A rule reserves what it may need before its first step, so that from then on no step can fail
// and nothing is left half done.
// Hot: `holders`, `lits` and `count`, which every search asks; `compact` slides clauses down only where half of the words are dead.
ghost use Rattle.std.specs.Prelude.{◌≡◌, ◌≢◌, ◌↔◌, ◌≤◌, ◌<◌, ◌+◌, ◌*◌, [], ◌∷◌, ◌++◌, if◌then◌else◌, ℕ, true, false, length, slice_get, slice_index_or, OnOk, OnErr, IfOk, None, Some, IsTrue};
ghost use Rattle.q_logic.specs.Prelude.{Clause, IsIn, Literal, IsBelow, ArePairs, IsProper, first_of, slot, live, numbered, formula_of, greatest, size_of, measure_of, swept, has_empty, occurs, occurring, is_bound, remove_variable, Within};
ghost use Rattle.q_arena.specs.Prelude.{live_in, words_in, IsFree, IsEnd, Has, following};
ghost use Rattle.q_occ.specs.Places.{places_of};
ghost use Rattle.q_kernel.specs.Kernels.{slots, formula_in, SameView, KeepsRoom, KeepsSpare, IsSound, IsListed, HoldsLiteral, HasSweepBytes};
ghost use Rattle.q_kernel.specs.Visits.{holders_of};
ghost use Rattle.q_kernel.specs.Changes.{IsLed, MayAdd, IsAdded, MayDelete, IsDeleted, MayDrop, IsDropped, MayShrink, IsShrunk, MayFresh, IsFreshened, MayStep, IsRemoved};
ghost use Rattle.q_kernel.specs.Singles.{units_in};
ghost use Rattle.q_kernel.specs.Invariant.{IsPut, IsTakenOut, IsShortened, IsSweeping};

use crate::joining::note_joining;
use crate::journal::{Journal, Touch};
use crate::links;
use crate::need::Need;
use crate::parts::{
    bounds_of, empty_ones, first_of, idle_uses, room_for, top_of, unit_ones, words_of,
};
use crate::pending::Pending;
use crate::uses::Uses;
use crate::variables::{occur_all, vanish, vanish_all};
use q_arena::{Arena, ClauseId};
use q_logic::{Bound, Bounds, Clauses, Formula, Kind, Lit, NoMemory};
use q_occ::Occ;
use q_prefix::{Prefix, greatest_of};
use q_sparse::filling_of;
use std::alloc::Global;
use std::marker::Model;

/// A formula with numbered clauses, and the text of the steps that are not yet written. Rules change it by
/// valid steps alone: they reserve what they may need, and then no step can fail.
#[derive(Drop)]
pub struct Kernel {
    prefix: Prefix,
    arena: Arena,
    occ: Occ,
    uses: Uses,
    pending: Pending,
    journal: Journal,
    // the live clauses, the empty ones and the unit ones of them, and the number of literals and clauses
    count: usize,
    empties: usize,
    units: usize,
    size: usize,
    // the greatest variable of the prefix
    top: u32,
    // the greatest variable that may come
    greatest: u32,
}

impl Model for Kernel {
    ghost use Rattle.q_kernel.specs.Kernels.{Seen};
    ghost use Rattle.q_kernel.specs.Invariant.{IsKernel};

    ghost Value = { Seen };

    ghost view = { λ k. record {
      prefix = k.prefix.bounds;
      arena = k.arena;
      lists = k.occ;
      text = k.pending.text;
      spare_vars = k.prefix.spare;
      greatest = k.greatest;
      spare_bytes = k.pending.spare;
    } };

    ghost invariant = { λ k. IsKernel k.prefix k.arena k.occ k.uses k.count k.size k.empties k.units
        k.top k.greatest };
}

impl Kernel {
    /// The formula, its clauses under the ids 0, 1, 2 and so on in their order; no step is pending.
    pub fn start(alloc: Global, formula: &Formula) -> Result<Kernel, NoMemory>
        requires { length formula.now.matrix ≤ 4294967294 }
        ensures prefix { IfOk result (λ k. k.prefix ≡ formula.now.prefix) }
        ensures ids { IfOk result (λ k. (c : ℕ)
            → slot (slots k) c ≡ slot (numbered formula.now.matrix) c) }
        ensures matrix { IfOk result (λ k. live (slots k) ≡ formula.now.matrix) }
        ensures text { IfOk result (λ k. k.text ≡ []) }
    {
        let mut kernel = Kernel::bare(alloc, formula.prefix())?;
        let words = words_of(formula)?;
        kernel.reserve(Need {
            words,
            ids: formula.clauses(),
            vars: 0,
            greatest: 0,
            log_bytes: 0,
        })?;
        kernel.known_ids();
        for at in 0..formula.clauses() {
            kernel.put_at(at as u32, formula.clause(at));
        }
        Ok(kernel)
    }

    // How many ids there are, for proofs.
    pub(crate) fn known_ids(&self)
        ensures ids { length (slots self.now)
            ≡ live_in (slots self.now) + self.now.arena.spare_ids }
        ensures few { length (slots self.now) ≤ 4294967295 }
    {
        self.arena.apart();
    }

    // A prefix without clauses.
    fn bare(alloc: Global, bounds: &[Bound]) -> Result<Kernel, NoMemory>
        requires { IsProper (formula_of bounds.now []) }
        ensures prefix { IfOk result (λ k. k.prefix ≡ bounds.now) }
        ensures clauses { IfOk result (λ k. slots k ≡ []) }
        ensures text { IfOk result (λ k. k.text ≡ []) }
    {
        let greatest = greatest_of(bounds);
        let mut prefix = Prefix::new(alloc, bounds)?;
        prefix.reserve(0, greatest)?;
        let occ = Occ::new(alloc, greatest, filling_of(bounds.len(), greatest as usize))?;
        let uses = idle_uses(alloc, bounds, greatest)?;
        Ok(Kernel {
            prefix,
            arena: Arena::new(alloc),
            occ,
            uses,
            pending: Pending::new(alloc),
            journal: Journal::new(alloc),
            count: 0,
            empties: 0,
            units: 0,
            size: 0,
            top: greatest,
            greatest,
        })
    }

    // Puts a clause under a free id, without a step.
    fn put_at(&mut self, id: ClauseId, lits: &[Lit])
        requires free { IsFree self.old.arena id }
        requires ordered { ArePairs IsBelow lits.now }
        requires within { Within self.old.prefix lits.now }
        requires words { length lits.now ≤ self.old.arena.spare_words }
        ensures { IsPut self.old self.new lits.now id }
    {
        self.sound();
        links::add_at(&mut self.arena, &mut self.occ, id, lits);
        self.arena.apart();
        self.occ.distinct();
        occur_all(&mut self.uses, &self.prefix, lits);
        self.count += 1;
        self.size += lits.len() + 1;
        self.empties += empty_ones(lits);
        self.units += unit_ones(lits);
    }

    // Takes a clause out, without a step.
    fn take_out(&mut self, id: ClauseId)
        requires { (C : Clause) × (slot (slots self.old) id ≡ Some C) }
        ensures { IsTakenOut self.old self.new id }
    {
        links::unlink(&self.arena, &mut self.occ, id);
        let lits = self.arena.lits(id);
        vanish_all(&mut self.uses, &self.prefix, &self.occ, lits);
        self.journal.note_gone(lits);
        self.count -= 1;
        self.size -= lits.len() + 1;
        self.empties -= empty_ones(lits);
        self.units -= unit_ones(lits);
        links::delete(&mut self.arena, &self.occ, id);
    }

    // Shortens a clause, without a step.
    fn shorten(&mut self, id: ClauseId, lit: Lit)
        requires { (C : Clause) × (slot (slots self.old) id ≡ Some C) × IsIn lit C }
        ensures { IsShortened self.old self.new id lit }
    {
        links::shorten(&mut self.arena, &mut self.occ, id, lit);
        vanish(&mut self.uses, &self.prefix, &self.occ, lit);
        self.journal.note(Touch::Literal(lit));
        self.journal.note(Touch::Clause(id));
        let lits = self.arena.lits(id);
        let empty = empty_ones(lits);
        self.size -= 1;
        self.empties += empty;
        self.units += unit_ones(lits);
        self.units -= empty;
    }

    /// What holds of a kernel at all times, for callers' proofs.
    pub fn sound(&self)
        ensures { IsSound self.now }
    {
        let _ = self.arena.dead();
        self.arena.apart();
        self.occ.distinct();
    }

    pub fn prefix(&self) -> &Prefix
        ensures { result.now.bounds ≡ self.now.prefix }
    {
        &self.prefix
    }

    pub fn lits(&self, id: ClauseId) -> &[Lit]
        requires { (C : Clause) × (slot (slots self.now) id ≡ Some C) }
        ensures clause { slot (slots self.now) id ≡ Some result.now }
        ensures ordered { ArePairs IsBelow result.now }
    {
        self.arena.lits(id)
    }

    pub fn live(&self, id: ClauseId) -> bool
        ensures { IsTrue result ↔ ((C : Clause) × (slot (slots self.now) id ≡ Some C)) }
    {
        self.arena.live(id)
    }

    /// The least live id at or above one.
    pub fn next_live(&self, from: u32) -> Option<ClauseId>
        ensures some { (id : ℕ) → result ≡ Some id → (from ≤ id) × (C : Clause)
            × (slot (slots self.now) id ≡ Some C) }
        ensures least { (id c : ℕ) → result ≡ Some id → from ≤ c → c < id → slot (slots self.now) c
            ≡ None }
        ensures none { result ≡ None → (c : ℕ) → from ≤ c → slot (slots self.now) c ≡ None }
    {
        self.arena.next_live(from)
    }

    /// A place of the literal.
    pub fn first(&self, lit: Lit) -> Option<usize>
        ensures first { result ≡ slice_get (places_of self.now.lists lit) 0 }
        ensures there { (p : ℕ) → result ≡ Some p → Has (places_of self.now.lists lit) p }
        ensures none { result ≡ None → (D : Clause) → IsIn D (live (slots self.now)) → IsIn lit D
            → ⊥ }
    {
        self.occ.first(lit)
    }

    /// The place after one of a list.
    pub fn next(&self, place: usize) -> Option<usize>
        requires { IsListed self.now place }
        ensures next { (l : Literal) → Has (places_of self.now.lists l) place
            → result ≡ following place (places_of self.now.lists l) }
        ensures there { (l : Literal) (p : ℕ) → Has (places_of self.now.lists l) place
            → result ≡ Some p → Has (places_of self.now.lists l) p }
    {
        self.occ.next(place)
    }

    /// The clause that has a place.
    pub fn owner(&self, place: usize) -> ClauseId
        requires { IsListed self.now place }
        ensures value { result ≡ slice_index_or self.now.lists.owners place 0 }
        ensures holds { (l : Literal) → Has (places_of self.now.lists l) place
            → HoldsLiteral self.now result l }
    {
        self.occ.owner(place)
    }

    /// How many places of the literal there are. A literal outside the prefix has none.
    pub fn count(&self, lit: Lit) -> u32
        ensures value { result ≡ length (places_of self.now.lists lit) }
        ensures held { result ≡ length (holders_of self.now lit) }
        ensures none { result ≡ 0 → (D : Clause) → IsIn D (live (slots self.now)) → IsIn lit D → ⊥ }
        ensures some { 1 ≤ result → (c : ℕ) × HoldsLiteral self.now c lit }
    {
        self.occ.count(lit)
    }

    /// The number of live clauses.
    pub fn clauses(&self) -> usize
        ensures { result ≡ length (live (slots self.now)) }
    {
        self.count
    }

    /// The number of literals and clauses.
    pub fn size(&self) -> usize
        ensures { result ≡ size_of (live (slots self.now)) }
    {
        self.size
    }

    /// The number of live clauses of exactly one literal.
    pub fn units(&self) -> usize
        ensures value { result ≡ units_in (live (slots self.now)) }
        ensures none { result ≡ 0 → (c : ℕ) (l : Literal) → slot (slots self.now) c ≡ Some (l ∷ [])
            → ⊥ }
        ensures some { 1 ≤ result → (c : ℕ) × (l : Literal)
            × (slot (slots self.now) c ≡ Some (l ∷ [])) }
    {
        self.units
    }

    /// The greatest variable of the prefix, 0 where there is none.
    pub fn greatest_var(&self) -> u32
        ensures { result ≡ greatest self.now.prefix }
    {
        self.top
    }

    /// What each rule of simplification lowers.
    pub fn measure(&self, bounds: &Bounds) -> u64
        ensures { result ≡ measure_of bounds.now (formula_in self.now) }
    {
        self.sound();
        let grow = u64::from(bounds.grow) + 1;
        let expand = u64::from(bounds.expand);
        self.size as u64
            + grow * u64::from(self.uses.existentials())
            + (expand + grow * expand + 1) * u64::from(self.uses.universals())
    }

    /// Makes each spare number at least what is asked for. It may compact.
    pub fn reserve(&mut self, need: Need) -> Result<(), NoMemory>
        requires { live_in self.old.arena.clauses + need.ids ≤ 4294967294 }
        ensures view { SameView self.old self.new }
        ensures kept { KeepsSpare self.old self.new }
        ensures words { OnOk result (need.words ≤ self.new.arena.spare_words) }
        ensures ids { OnOk result (need.ids ≤ self.new.arena.spare_ids) }
        ensures vars { OnOk result (need.vars ≤ self.new.spare_vars) }
        ensures greatest { OnOk result (need.greatest ≤ self.new.greatest) }
        ensures bytes { OnOk result (need.log_bytes ≤ self.new.spare_bytes) }
    {
        self.make_room(need.words);
        let greatest = self.greatest.max(need.greatest);
        self.reserve_clauses(need.words, need.ids, greatest)?;
        self.reserve_vars(need.vars, greatest)?;
        self.journal.reserve(self.size.saturating_add(need.words));
        self.pending.reserve(need.log_bytes)?;
        Ok(())
    }

    // Compacts where words are wanting and at least half of them are dead.
    fn make_room(&mut self, words: usize)
        ensures view { SameView self.old self.new }
        ensures kept { KeepsSpare self.old self.new }
    {
        if self.arena.spare_words() < words && self.arena.dead() >= self.size {
            self.compact();
        }
    }

    // Reserves words and ids, and lists for variables up to the greatest.
    fn reserve_clauses(&mut self, words: usize, ids: usize, greatest: u32) -> Result<(), NoMemory>
        requires { live_in self.old.arena.clauses + ids ≤ 4294967294 }
        ensures view { SameView self.old self.new }
        ensures kept { KeepsSpare self.old self.new }
        ensures words { OnOk result (words ≤ self.new.arena.spare_words) }
        ensures ids { OnOk result (ids ≤ self.new.arena.spare_ids) }
        ensures lists { OnOk result (2 * greatest + 2 ≤ length self.new.lists.lists) }
        ensures most { self.new.greatest ≡ self.old.greatest }
    {
        let room = room_for(&self.arena, words)?;
        self.occ.reserve(room, greatest)?;
        self.arena.reserve(words, ids)?;
        Ok(())
    }

    // Reserves variables, for which there are lists.
    fn reserve_vars(&mut self, vars: usize, greatest: u32) -> Result<(), NoMemory>
        requires low { self.old.greatest ≤ greatest }
        requires lists { 2 * greatest + 2 ≤ length self.old.lists.lists }
        ensures view { SameView self.old self.new }
        ensures kept { KeepsSpare self.old self.new }
        ensures vars { OnOk result (vars ≤ self.new.spare_vars) }
        ensures greatest { OnOk result (self.new.greatest ≡ greatest) }
    {
        self.uses.reserve(greatest)?;
        self.prefix.reserve(vars, greatest)?;
        self.greatest = greatest;
        Ok(())
    }

    /// Adds an implied clause. Its first literal is the first of the step.
    pub fn add_implied(&mut self, lits: &[Lit]) -> ClauseId
        requires { MayAdd self.old (first_of lits.now) lits.now }
        ensures { IsAdded self.old self.new (first_of lits.now) lits.now result }
    {
        self.add(first_of(lits), lits)
    }

    /// Adds a clause by its pivot, or where it is implied.
    pub fn add_pivot(&mut self, pivot: Lit, lits: &[Lit]) -> ClauseId
        requires { MayAdd self.old (Some pivot) lits.now }
        ensures { IsAdded self.old self.new (Some pivot) lits.now result }
    {
        self.add(Some(pivot), lits)
    }

    // Adds a clause and logs the step.
    fn add(&mut self, first: Option<Lit>, lits: &[Lit]) -> ClauseId
        requires { MayAdd self.old first lits.now }
        ensures { IsAdded self.old self.new first lits.now result }
    {
        self.pending.append(Kind::Add, first, lits);
        let id = self.arena.free_id();
        self.journal.note(Touch::Clause(id));
        self.put_at(id, lits);
        id
    }

    /// Deletes an implied clause. Its least literal is the first of the step.
    pub fn delete_implied(&mut self, id: ClauseId)
        requires { MayDelete self.old id first_of }
        ensures { IsDeleted self.old self.new id first_of }
    {
        let first = first_of(self.arena.lits(id));
        self.delete(id, first);
    }

    /// Deletes a clause by its pivot, or where it is implied.
    pub fn delete_pivot(&mut self, id: ClauseId, pivot: Lit)
        requires { MayDelete self.old id (λ C. Some pivot) }
        ensures { IsDeleted self.old self.new id (λ C. Some pivot) }
    {
        self.delete(id, Some(pivot));
    }

    // Deletes a clause and logs the step.
    fn delete(&mut self, id: ClauseId, first: Option<Lit>)
        requires { MayDelete self.old id (λ C. first) }
        ensures { IsDeleted self.old self.new id (λ C. first) }
    {
        self.pending
            .append(Kind::Delete, first, self.arena.lits(id));
        self.take_out(id);
    }

    /// Drops a universal literal that is reducible, or a universal pivot, and logs the step.
    pub fn drop_lit(&mut self, id: ClauseId, lit: Lit)
        requires { MayDrop self.old id lit }
        ensures { IsDropped self.old self.new id lit }
    {
        self.pending
            .append(Kind::Drop, Some(lit), self.arena.lits(id));
        self.shorten(id, lit);
    }

    /// Shortens a clause under its id, by the addition of the shorter clause and the deletion of the longer
    /// one.
    pub fn shrink(&mut self, id: ClauseId, lit: Lit)
        requires { MayShrink self.old id lit }
        ensures { IsShrunk self.old self.new id lit }
    {
        let lits = self.arena.lits(id);
        self.pending.append_shorter(lits, lit);
        self.pending.append(Kind::Delete, first_of(lits), lits);
        self.shorten(id, lit);
    }

    /// Puts a fresh existential variable directly after another one.
    pub fn fresh(&mut self, v: u32, w: u32)
        requires { MayFresh self.old v w }
        ensures { IsFreshened self.old self.new v w }
    {
        self.pending.append(Kind::Fresh, Some(Lit::new(v, false)), &[Lit::new(w, false)]);
        self.prefix.insert_after(v, w);
        self.uses.insert(v);
        self.journal.note(Touch::Variable(v));
        self.top = self.top.max(v);
    }

    /// Takes a variable that no clause holds out of the prefix.
    pub fn remove(&mut self, v: u32)
        requires { MayStep self.old (remove_variable v) }
        ensures { IsRemoved self.old self.new v }
    {
        note_joining(self, v);
        self.unbind(v);
    }

    // The same, without a note.
    fn unbind(&mut self, v: u32)
        requires { MayStep self.old (remove_variable v) }
        ensures { IsRemoved self.old self.new v }
    {
        self.pending
            .append(Kind::Remove, Some(Lit::new(v, false)), &[]);
        self.uses.remove(v);
        self.prefix.remove(v);
        self.top = top_of(&self.prefix, self.top);
    }

    /// Sweeps: variables that no clause holds leave the prefix, and an empty clause leaves nothing else.
    pub fn sweep_now(&mut self)
        requires { HasSweepBytes self.old }
        ensures formula { formula_in self.new ≡ swept (formula_in self.old) }
        ensures led { IsLed self.old self.new }
        ensures room { KeepsRoom self.old self.new }
    {
        self.drop_others();
        self.remove_idle();
    }

    // Where there is an empty clause, deletes all others.
    fn drop_others(&mut self)
        requires { HasSweepBytes self.old }
        ensures matrix { live (slots self.new) ≡ (if has_empty (live (slots self.old))
            then ([] ∷ []) else live (slots self.old)) }
        ensures prefix { self.new.prefix ≡ self.old.prefix }
        ensures swept { IsSweeping self.old self.new }
    {
        if self.empties > 0 {
            let kept = self.first_empty();
            self.keep_alone(kept);
        }
    }

    // An empty clause.
    fn first_empty(&self) -> ClauseId
        requires { has_empty (live (slots self.now)) ≡ true }
        ensures { slot (slots self.now) result ≡ Some [] }
    {
        for id in self.ids() {
            if self.lits(id).is_empty() {
                return id;
            }
        }
        0
    }

    // Deletes all clauses but an empty one.
    fn keep_alone(&mut self, kept: ClauseId)
        requires bytes { HasSweepBytes self.old }
        requires kept { slot (slots self.old) kept ≡ Some [] }
        ensures matrix { live (slots self.new) ≡ [] ∷ [] }
        ensures prefix { self.new.prefix ≡ self.old.prefix }
        ensures swept { IsSweeping self.old self.new }
    {
        self.arena.apart();
        let mut from = 0;
        while let Some(id) = self.next_live(from) {
            self.sound();
            self.delete_other(id, kept);
            from = id + 1;
        }
    }

    // Deletes a clause unless it is to be kept.
    fn delete_other(&mut self, id: ClauseId, kept: ClauseId)
        requires { id ≢ kept → MayDelete self.old id first_of }
        ensures same { id ≡ kept → self.new ≡ self.old }
        ensures gone { id ≢ kept → IsDeleted self.old self.new id first_of }
    {
        if id != kept {
            self.delete_implied(id);
        }
    }

    // Takes out the variables that no clause holds.
    fn remove_idle(&mut self)
        requires { HasSweepBytes self.old }
        ensures prefix { self.new.prefix ≡ occurring self.old.prefix (live (slots self.old)) }
        ensures clauses { slots self.new ≡ slots self.old }
        ensures swept { IsSweeping self.old self.new }
    {
        while let Some(v) = self.first_idle() {
            self.sound();
            self.remove(v);
        }
    }

    // A variable of the prefix that no clause holds.
    fn first_idle(&self) -> Option<u32>
        ensures some { (v : ℕ) → result ≡ Some v → (is_bound self.now.prefix v ≡ true)
            × (occurs v (live (slots self.now)) ≡ false) }
        ensures none { result ≡ None → occurring self.now.prefix (live (slots self.now))
            ≡ self.now.prefix }
    {
        self.uses.first_idle()
    }

    /// Reserves the log bytes that sweeping takes, and sweeps.
    pub fn sweep(&mut self) -> Result<(), NoMemory>
        ensures formula { OnOk result (formula_in self.new ≡ swept (formula_in self.old)) }
        ensures led { OnOk result (IsLed self.old self.new) }
        ensures err { OnErr result (SameView self.old self.new) }
        ensures room { KeepsRoom self.old self.new }
    {
        self.sound();
        let bytes = 16 * (self.size + self.prefix.len());
        self.pending.reserve(bytes)?;
        self.sweep_now();
        Ok(())
    }

    /// Moves all clauses down over the dead words.
    pub fn compact(&mut self)
        ensures view { SameView self.old self.new }
        ensures kept { KeepsSpare self.old self.new }
        ensures dead { self.new.arena.dead ≡ 0 }
        ensures meaning { (last : ℕ) × IsEnd self.new.arena last × (words_in self.new.arena.clauses
            ≡ last) }
    {
        links::compact(&mut self.arena, &mut self.occ);
        let _ = self.arena.dead();
    }

    /// The words before the end of the last clause that no clause has.
    pub fn dead(&self) -> usize
        ensures value { result ≡ self.now.arena.dead }
        ensures meaning { (last : ℕ) × IsEnd self.now.arena last
            × (result + words_in self.now.arena.clauses ≡ last) }
    {
        self.arena.dead()
    }

    /// The text of the pending steps.
    pub fn log(&self) -> &[u8]
        ensures { result.now ≡ self.now.text }
    {
        self.pending.text()
    }

    /// No step is pending any more: its text was written.
    pub fn clear_log(&mut self)
        ensures prefix { self.new.prefix ≡ self.old.prefix }
        ensures clauses { slots self.new ≡ slots self.old }
        ensures text { self.new.text ≡ [] }
        ensures kept { KeepsSpare self.old self.new }
    {
        self.pending.clear();
    }

    /// Notes a touch.
    pub(crate) fn note(&mut self, touch: Touch)
        ensures { self.new ≡ self.old }
    {
        self.journal.note(touch);
    }

    /// How many touches the steps have noted so far.
    pub fn touches(&self) -> u64 {
        self.journal.count()
    }

    /// The touch of this number, counted from 0. None where it is forgotten or never came: a reader that meets a
    /// forgotten one takes everything as touched.
    pub fn touch(&self, number: u64) -> Option<Touch> {
        self.journal.get(number)
    }

    /// The allocator that the kernel was made with.
    pub fn allocator(&self) -> Global {
        self.pending.allocator()
    }

    /// The formula now, its clauses by ascending id.
    pub fn formula(&self, alloc: Global) -> Result<Formula, NoMemory>
        ensures { IfOk result (λ f. f ≡ formula_in self.now) }
    {
        let prefix = bounds_of(alloc, &self.prefix)?;
        let mut clauses = Clauses::with_capacity(alloc, self.count, self.size - self.count)?;
        for id in self.ids() {
            clauses.push(self.lits(id))?;
        }
        let (lits, ends) = clauses.into_parts();
        Ok(Formula::from_parts(prefix, lits, ends))
    }
}
