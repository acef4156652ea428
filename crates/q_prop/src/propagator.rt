// Clauses in slots, and what propagation shows of them, kept from call to call: the trail of the root, or its conflict. A clause
// that goes takes with it only what hangs on it: where its literal is forced by another slot too, or nothing rests on it, the root
// stays; else it is found anew at the next question.
ghost use Rattle.std.specs.Prelude.{◌≡◌, ◌↔◌, ◌<◌, ◌⊎◌, ◌++◌, ◌∷◌, [], length, slice_set, OnOk, OnErr, None, Some, Contains, IsTrue, MatchOption, IfOk, IfSome, ℕ, ◌≤◌, slice_get};
ghost use Rattle.q_logic.specs.Prelude.{Clause, Implied, Literal};
ghost use Rattle.q_prop.specs.Slots.{filled, without, Holds, IsPut, IsVacant};
ghost use Rattle.q_prop.specs.Lists.{IsLost, AreTaken};
ghost use Rattle.q_prop.specs.Supports.{IsSupport, IsAlone, IsApart, IsLoosened, AreUnitsKnown};
ghost use Rattle.q_prop.specs.declared.supports.Support.TheVariants.{Apart};
ghost use Rattle.q_prop.specs.Tails.{AreImplied};
ghost use Rattle.q_prop.specs.declared.pairs.Pair.{Pair};

use crate::clauses::Clauses;
use crate::level::{Level, query_each};
use crate::lists::{Lists, place_of};
use crate::notes::Notes;
use crate::propagation::{complete, query, query_anew, query_beside};
use crate::root::{Root, is_empty_at};
use crate::rows::Rows;
use crate::spots::{Spots, renote};
use crate::supports::{Support, without_units};
use crate::tails::Tails;
use crate::trail::{NO_SLOT, Trail};
use crate::watched::{Watched, put, put_short};
use crate::watches::{Pick, choose, is_free, left_in, stands};
use q_logic::{Lit, NoMemory};
use std::alloc::Global;
use std::marker::Model;

/// The clauses, with what propagation shows of them kept from call to call.
#[derive(Drop)]
pub struct Propagator {
    watched: Watched,
    root: Root,
    notes: Notes,
}

impl Model for Propagator {
    ghost use Rattle.q_logic.specs.Prelude.{Slots};
    ghost use Rattle.q_prop.specs.Watched.{IsPropagated};

    ghost Value = { Slots };

    ghost view = { λ r. r.watched.clauses.slots };

    ghost invariant = { λ r. IsPropagated r.watched r.root };
}

impl Propagator {
    pub fn new(alloc: Global) -> Propagator
        ensures { result ≡ [] }
    {
        Propagator {
            watched: Watched {
                clauses: Clauses::new(alloc),
                rows: Rows::new(alloc),
            },
            root: Root {
                trail: Trail::new(alloc),
                head: 0,
                singles: Vec::new(alloc),
                spots: Spots::new(alloc),
                done: 0,
                conflict: false,
                empty: NO_SLOT,
            },
            notes: Notes::new(alloc),
        }
    }

    pub fn clauses(&self) -> &Clauses
        ensures { result.now.slots ≡ self.now }
    {
        &self.watched.clauses
    }

    /// Hints are gathered from now on where an answer is yes, or not.
    pub fn gather_hints(&mut self, wanted: bool)
        ensures { self.new ≡ self.old }
    {
        self.notes.want(wanted);
    }

    /// Slots that may show the last yes. They are tried before they are used.
    pub(crate) fn hints(&self) -> &[usize] {
        self.notes.hints()
    }

    pub fn slots(&self) -> usize
        ensures { result ≡ length self.now }
    {
        self.watched.clauses.len()
    }

    pub fn slot(&self, at: usize) -> Option<&[Lit]>
        ensures { MatchOption result ((c : Clause) → Holds self.now at c → ⊥) (λ r.
            Holds self.now at r.now) }
    {
        self.watched.clauses.get(at)
    }

    /// Whether an empty clause is known to stand in a slot but the one left out. It alone is a hint then.
    pub fn is_refuted(&mut self, skip: Option<usize>) -> bool
        ensures same { self.new ≡ self.old }
        ensures refuted { IsTrue result → (at : ℕ) × Holds (without self.old skip) at [] }
    {
        let at = self.root.empty;
        if !is_empty_at(&self.watched.clauses, skip, at) {
            return false;
        }
        self.notes.tell(at);
        true
    }

    /// The slot that was last noted with an empty clause.
    pub(crate) fn empty_slot(&self) -> usize {
        self.root.empty
    }

    /// Notes a slot with an empty clause.
    pub fn note_empty(&mut self, at: usize)
        ensures { self.new ≡ self.old }
    {
        self.root.empty = at;
    }

    /// Empties a slot. Takes no memory.
    pub fn delete(&mut self, slot: u32, support: Support)
        requires within { slot < length self.old }
        requires support { IsSupport self.old (Some slot) support }
        ensures { self.new ≡ slice_set self.old slot None }
    {
        let at = slot as usize;
        if self.root.conflict {
            return self.delete_refuted(slot, support);
        }
        let complete = self.root.is_complete();
        let rest = loosen(
            &self.watched.clauses,
            at,
            &mut self.root.trail,
            support,
            complete,
        );
        let done = unlist(
            &self.watched.clauses,
            &mut self.root.singles,
            &mut self.root.spots,
            slot,
            self.root.done,
        );
        if rest {
            self.root.head = self.root.head.min(self.root.trail.len());
            self.root.done = done;
        } else {
            self.root.trail.truncate(0);
            self.root.head = 0;
            self.root.done = 0;
            self.root.conflict = false;
        }
        self.watched.clauses.clear(at);
    }

    // Empties a slot where the root has a conflict. That is kept if the rest stands without the slot.
    fn delete_refuted(&mut self, slot: u32, support: Support)
        requires within { slot < length self.old }
        requires support { IsSupport self.old (Some slot) support }
        ensures { self.new ≡ slice_set self.old slot None }
    {
        let at = slot as usize;
        let rest = loosen(
            &self.watched.clauses,
            at,
            &mut self.root.trail,
            without_units(support),
            true,
        );
        unlist(
            &self.watched.clauses,
            &mut self.root.singles,
            &mut self.root.spots,
            slot,
            self.root.done,
        );
        self.root.head = 0;
        self.root.done = 0;
        if !rest {
            self.root.trail.truncate(0);
            self.root.conflict = false;
        }
        self.watched.clauses.clear(at);
    }

    /// Brings the root to its fixed point, or to a conflict. Where an empty clause is known nothing is to be found.
    pub fn complete(&mut self) -> Result<(), NoMemory>
        ensures { self.new ≡ self.old }
    {
        if self.root.conflict || is_empty_at(&self.watched.clauses, None, self.root.empty) {
            return Ok(());
        }
        let (head, done) = (self.root.head, self.root.done);
        self.root.head = 0;
        self.root.done = 0;
        let conflict = complete(
            &mut self.watched,
            None,
            &mut self.root.trail,
            head,
            &self.root.singles,
            done,
        )?;
        if conflict {
            self.root.conflict = true;
        } else {
            self.root.head = self.root.trail.len();
            self.root.done = self.root.singles.len();
        }
        Ok(())
    }

    /// The literal of a slot's clause that alone is not false, where the root is found, or a conflict of it.
    pub(crate) fn left_in(&self, at: usize) -> Option<Lit> {
        if self.root.conflict || self.root.is_complete() {
            left_in(&self.watched.clauses, at, &self.root.trail)
        } else {
            None
        }
    }

    /// Whether the literal is known at the root, as far as that is found.
    pub(crate) fn knows(&self, lit: Lit) -> bool {
        self.root.trail.has(lit)
    }

    /// Notes that a literal follows without the slot, where another one doubles it.
    pub fn note_doubling(&mut self, skip: Option<usize>, support: &Support)
        ensures { self.new ≡ self.old }
    {
        if let (Some(at), Support::Doubled(lit, other)) = (skip, support) {
            self.root.trail.change_reason(*lit, at, *other);
        }
    }

    /// Gathers hints for a conflict of the root, if there is one and hints are wanted.
    pub fn gather_conflict(&mut self)
        ensures { self.new ≡ self.old }
    {
        if self.root.conflict {
            self.notes.gather(&self.watched.clauses, &self.root.trail);
        }
    }

    /// Whether a chain from the negations of the literals conflicts, over the slots but one. Where the
    /// root is not found, it is found anew.
    pub fn implied(
        &mut self,
        lits: &[Lit],
        skip: Option<usize>,
        support: Support,
    ) -> Result<bool, NoMemory>
        requires { IsSupport self.old skip support }
        ensures same { self.new ≡ self.old }
        ensures exact { IfOk result (λ yes. IsTrue yes
            ↔ Implied (filled (without self.old skip)) lits.now) }
    {
        if let Support::Alone(lit) = support {
            return self.implied_alone(lits, skip, lit);
        }
        if let Support::Apart(lit) = support {
            return self.implied_beside(lits, skip, lit);
        }
        if !stands(&self.watched.clauses, skip, &self.root.trail, support) {
            return self.implied_anew(lits, skip);
        }
        if self.root.conflict {
            return Ok(true);
        }
        if !self.root.is_complete() {
            return self.implied_anew(lits, skip);
        }
        query(
            &mut self.watched,
            skip,
            &mut self.root.trail,
            lits,
            &self.root.singles,
            &mut self.notes,
        )
    }

    /// Whether the literals are implied with each of the tails, where the root is found and stands without the slot
    /// that is left out; else no answer.
    pub fn each_implied(
        &mut self,
        lits: &[Lit],
        tails: &Tails,
        skip: Option<usize>,
    ) -> Result<Option<bool>, NoMemory>
        ensures same { self.new ≡ self.old }
        ensures exact { IfOk result (λ answer. IfSome answer (λ yes.
            IsTrue yes ↔ AreImplied (filled (without self.old skip)) lits.now tails.now)) }
    {
        if !stands(
            &self.watched.clauses,
            skip,
            &self.root.trail,
            Support::Unknown,
        ) {
            return Ok(None);
        }
        if self.root.conflict {
            return Ok(Some(true));
        }
        if !self.root.is_complete() {
            return Ok(None);
        }
        let level = Level {
            lits,
            skip,
            singles: &self.root.singles,
        };
        let answer = query_each(&mut self.watched, &level, &mut self.root.trail, tails)?;
        Ok(Some(answer))
    }

    // Whether the literals are implied without the slot whose literal no other clause holds or denies.
    fn implied_alone(
        &mut self,
        lits: &[Lit],
        skip: Option<usize>,
        lit: Lit,
    ) -> Result<bool, NoMemory>
        requires { (at : ℕ) × (skip ≡ Some at) × IsAlone self.old at lit }
        ensures same { self.new ≡ self.old }
        ensures exact { IfOk result (λ yes. IsTrue yes
            ↔ Implied (filled (without self.old skip)) lits.now) }
    {
        if self.root.conflict {
            return self.implied_refuted(lits, skip, lit);
        }
        self.implied_beside(lits, skip, lit)
    }

    // Whether the literals are implied without the slot on which a literal hangs, and nothing on the literal.
    fn implied_beside(
        &mut self,
        lits: &[Lit],
        skip: Option<usize>,
        lit: Lit,
    ) -> Result<bool, NoMemory>
        requires { (at : ℕ) × (skip ≡ Some at) × IsApart self.old at lit }
        ensures same { self.new ≡ self.old }
        ensures exact { IfOk result (λ yes. IsTrue yes
            ↔ Implied (filled (without self.old skip)) lits.now) }
    {
        let complete = self.root.is_complete();
        if !complete || !self.root.trail.has(lit) {
            return self.implied_anew(lits, skip);
        }
        self.root.head = 0;
        self.root.done = 0;
        let answer = query_beside(
            &mut self.watched,
            skip,
            &mut self.root.trail,
            lits,
            &self.root.singles,
            lit,
            &mut self.notes,
        )?;
        self.root.head = self.root.trail.len();
        self.root.done = self.root.singles.len();
        Ok(answer)
    }

    // The same where the root has a conflict: it does without the slot, since its falsified clause holds neither the
    // literal nor its negation.
    fn implied_refuted(
        &mut self,
        lits: &[Lit],
        skip: Option<usize>,
        lit: Lit,
    ) -> Result<bool, NoMemory>
        requires { (at : ℕ) × (skip ≡ Some at) × IsAlone self.old at lit }
        ensures same { self.new ≡ self.old }
        ensures exact { IfOk result (λ yes. IsTrue yes
            ↔ Implied (filled (without self.old skip)) lits.now) }
    {
        if !self.root.conflict || !self.root.trail.has(lit) {
            return self.implied_anew(lits, skip);
        }
        Ok(true)
    }

    // Whether the literals are implied, with the root found anew.
    fn implied_anew(&mut self, lits: &[Lit], skip: Option<usize>) -> Result<bool, NoMemory>
        ensures same { self.new ≡ self.old }
        ensures exact { IfOk result (λ yes. IsTrue yes
            ↔ Implied (filled (without self.old skip)) lits.now) }
    {
        self.root.head = 0;
        self.root.done = 0;
        self.root.conflict = false;
        query_anew(
            &mut self.watched,
            skip,
            &mut self.root.trail,
            lits,
            &self.root.singles,
            &mut self.notes,
        )
    }

    /// The place of a slot in the list of those that hold a literal of its clause, the nth.
    pub fn place_in(&self, list: &[u32], slot: u32, nth: usize) -> Option<usize>
        ensures { MatchOption result (Contains list.now slot → ⊥) (λ place. slice_get list.now place
            ≡ Some slot) }
    {
        self.watched.clauses.place_in(list, slot, nth)
    }

    /// Notes where the slot stands in the list of those that hold a literal of its clause.
    pub fn note(&mut self, at: usize, nth: usize, place: usize)
        ensures { self.new ≡ self.old }
    {
        self.watched.clauses.note(at, nth, place);
    }

    /// Notes the places of those that have come where a slot stood in the lists.
    pub fn renote(&mut self, at: usize, lists: &Lists)
        ensures { self.new ≡ self.old }
    {
        self.watched.clauses.renote(at, lists);
    }

    /// An empty slot, or the next new one.
    pub fn vacant(&self) -> usize
        ensures { IsVacant self.now result }
    {
        self.watched.clauses.vacant()
    }

    /// Puts a clause into an empty slot, or into the next new one.
    pub fn fill(&mut self, at: u32, lits: &[Lit]) -> Result<(), NoMemory>
        requires { IsVacant self.old at }
        ensures ok { OnOk result (IsPut self.old at lits.now self.new) }
        ensures err { OnErr result (self.new ≡ self.old) }
    {
        self.root.empty = empty_after(self.root.empty, at, lits);
        match choose(lits, &self.root.trail) {
            Pick::Short => {
                put_short(
                    &mut self.watched,
                    &mut self.root.singles,
                    &mut self.root.spots,
                    at,
                    lits,
                )?;
            }
            Pick::Open(pair) => {
                put(&mut self.watched, at, lits, pair)?;
            }
            Pick::OneLeft(pair) => {
                let (first, head) = (pair.first, self.root.head);
                put(&mut self.watched, at, lits, pair)?;
                self.root.head = push_forced(&mut self.root.trail, first, at, head);
            }
            Pick::AllFalse(pair) => {
                put(&mut self.watched, at, lits, pair)?;
                self.root.head = 0;
            }
        }
        Ok(())
    }
}

// Takes off the trail what hangs on the slot alone, where all of the root is found or a conflict, and
// answers whether the rest stands without the slot.
fn loosen(clauses: &Clauses, at: usize, trail: &mut Trail, support: Support, settled: bool) -> bool
    requires support { IsSupport clauses.now.slots (Some at) support }
    requires units { (l : Literal) → support ≡ Apart l → IsTrue settled
        → AreUnitsKnown clauses.now.slots at trail.old }
    ensures { IsTrue result → IsLoosened clauses.now.slots at trail.old trail.new settled }
{
    if let Support::Alone(lit) = support {
        if settled && trail.has(lit) {
            trail.remove(lit);
            return true;
        }
    }
    if let Support::Apart(lit) = support {
        if settled && trail.has(lit) {
            trail.remove(lit);
            return true;
        }
    }
    is_free(clauses, at, trail, support)
}

// The slot to note with an empty clause, where a clause comes into a slot.
fn empty_after(noted: usize, at: u32, lits: &[Lit]) -> usize {
    if lits.is_empty() { at as usize } else { noted }
}

// Takes a slot that has no pair out of the list, and answers up to where the rest is taken.
fn unlist(
    clauses: &Clauses,
    singles: &mut Vec<u32>,
    spots: &mut Spots,
    slot: u32,
    done: usize,
) -> usize
    requires paired { (p : Pair) → slice_get clauses.now.pairs slot ≡ Some (Some p)
        → Contains singles.old.items slot →
        ⊥ }
    requires done { done ≤ length singles.old.items }
    ensures lost { IsLost slot singles.old.items singles.new.items }
    ensures taken { AreTaken singles.old.items done singles.new.items result }
{
    let at = slot as usize;
    if clauses.is_watched(at) {
        return done;
    }
    let Some(place) = place_of(singles, slot, spots.get(at)) else {
        return done;
    };
    singles.swap_remove(place);
    renote(spots, singles, place);
    if done > singles.len() {
        singles.len()
    } else {
        done.min(place)
    }
}

// Puts a literal on the trail, if there is memory, and answers up to where the trail is then worked off.
fn push_forced(trail: &mut Trail, lit: Lit, slot: u32, head: usize) -> usize
    requires { Contains trail.old lit → ⊥ }
    ensures { ((trail.new ≡ trail.old ++ lit ∷ []) × (result ≡ head)) ⊎
        ((trail.new ≡ trail.old) × (result ≡ 0)) }
{
    match trail.force(lit, slot as usize) {
        Ok(_) => head,
        Err(_) => 0,
    }
}
