// Clauses in slots as the checker sees them: found by their literals, by a literal that they hold, and asked what they imply. A
// bucket by the hash of the literals finds a clause, a list by literal its holders; both are tried, so a wrong bucket costs time
// alone.
// Hot: `implied`, which is nearly all of a long check.
ghost use Rattle.std.specs.Prelude.{◌≡◌, ◌≢◌, ◌⊎◌, ◌↔◌, ◌<◌, [], MatchBool, length, slice_set, OnErr, None, IsTrue, MatchOption, IfSome, IfOk, ℕ, Contains, Some, ◌^◌, ◌≤◌};
ghost use Rattle.q_logic.specs.Prelude.{Clause, Implied, Chained, Literal, negation};
ghost use Rattle.q_prop.specs.Slots.{filled, without, Holds, IsPut, IsOrdered};
ghost use Rattle.q_prop.specs.Holders.{IsHolder, AreHolders};
ghost use Rattle.q_prop.specs.Buckets.{AreHashed};
ghost use Rattle.q_prop.specs.Lists.{IsDistinct};
ghost use Rattle.q_prop.specs.Supports.{IsSupport, IsDoubled, IsAlone, IsApart, IsUnitBeside};
ghost use Rattle.q_prop.specs.Tails.{AreImplied};

use crate::buckets::{Buckets, rehashed};
use crate::chain::chained;
use crate::holders::{insert, note, remove};
use crate::lists::Lists;
use crate::plain::explain_plainly;
use crate::propagator::Propagator;
use crate::supports::{Support, is_among, is_only};
use crate::tails::Tails;
use crate::trail::Trail;
use q_logic::{Lit, NoMemory};
use std::alloc::Global;
use std::marker::Model;

/// Clauses in slots. A clause stays in its slot until it is deleted.
#[derive(Drop)]
pub struct Store {
    alloc: Global,
    propagator: Propagator,
    holders: Lists,
    buckets: Buckets,
    known: Trail,
}

impl Model for Store {
    ghost use Rattle.q_logic.specs.Prelude.{Slots};
    ghost use Rattle.q_prop.specs.Indexes.{IsIndexed};

    ghost Value = { Slots };

    ghost view = { λ r. r.propagator };

    ghost invariant = { λ r. IsIndexed r.propagator r.holders r.buckets };
}

impl Store {
    pub fn new(alloc: Global) -> Store
        ensures { result ≡ [] }
    {
        Store::with_buckets(alloc, 0)
    }

    /// An empty store, with so many buckets at first: as many as there will be clauses, if that is known.
    pub fn with_buckets(alloc: Global, count: usize) -> Store
        ensures { result ≡ [] }
    {
        Store {
            alloc,
            propagator: Propagator::new(alloc),
            holders: Lists::new(alloc),
            buckets: Buckets::new(alloc, count),
            known: Trail::new(alloc),
        }
    }

    /// The number of slots, empty ones too.
    pub fn slots(&self) -> usize
        ensures { result ≡ length self.now }
    {
        self.propagator.slots()
    }

    pub fn slot(&self, at: usize) -> Option<&[Lit]>
        ensures { MatchOption result ((c : Clause) → Holds self.now at c → ⊥) (λ r.
            Holds self.now at r.now) }
    {
        self.propagator.slot(at)
    }

    /// A slot with this clause.
    pub fn find(&self, lits: &[Lit]) -> Option<usize>
        ensures { MatchOption result ((at : ℕ) → Holds self.now at lits.now → ⊥) (λ at.
            Holds self.now at lits.now) }
    {
        self.buckets.find(&self.propagator, lits)
    }

    /// The slots whose clauses hold the literal, each once.
    pub fn holders(&self, lit: Lit) -> &[u32]
        ensures members { (at : ℕ) → Contains result.now at ↔ IsHolder self.now at lit }
        ensures once { IsDistinct result.now }
    {
        self.holders.list(lit.index())
    }

    /// Puts a clause into an empty slot, which may be a new one.
    pub fn add(&mut self, lits: &[Lit]) -> Result<usize, NoMemory>
        requires ordered { IsOrdered lits.now }
        ensures ok { IfOk result (λ at. IsPut self.old at lits.now self.new) }
        ensures err { OnErr result (self.new ≡ self.old) }
    {
        self.widen()?;
        let at = self.propagator.vacant();
        let slot = number(at)?;
        self.buckets.reserve(slot)?;
        insert(&mut self.holders, &self.propagator, slot, lits)?;
        if let Err(error) = self.propagator.fill(slot, lits) {
            remove(&mut self.holders, &self.propagator, slot, lits);
            return Err(error);
        }
        self.buckets.insert(lits, slot);
        note(&self.holders, &mut self.propagator, at, lits);
        Ok(at)
    }

    // As many buckets as slots, or twice as many.
    fn widen(&mut self) -> Result<(), NoMemory>
        ensures { self.new ≡ self.old }
    {
        let slots = self.propagator.slots();
        if self.buckets.are_few(slots) {
            self.buckets = rehashed(self.alloc, &self.propagator, slots * 2)?;
        }
        Ok(())
    }

    /// Empties a slot. Takes no memory.
    pub fn delete(&mut self, at: usize)
        requires { at < length self.old }
        ensures { self.new ≡ slice_set self.old at None }
    {
        let support = self.support_of(at);
        self.propagator.note_doubling(Some(at), &support);
        free(&self.propagator, &mut self.holders, &mut self.buckets, at);
        self.propagator.renote(at, &self.holders);
        self.propagator.delete(at as u32, support);
        self.renote_empty(at);
    }

    // Notes another slot with an empty clause, where the one that was noted is empty now.
    fn renote_empty(&mut self, at: usize)
        ensures { self.new ≡ self.old }
    {
        if self.propagator.empty_slot() != at {
            return;
        }
        if let Some(other) = self.find(&[]) {
            self.propagator.note_empty(other);
        }
    }

    /// Whether the literals are implied by propagation, over the clauses of all slots but one.
    pub fn implied(&mut self, lits: &[Lit], skip: Option<usize>) -> Result<bool, NoMemory>
        ensures same { self.new ≡ self.old }
        ensures exact { IfOk result (λ yes. IsTrue yes
            ↔ Implied (filled (without self.old skip)) lits.now) }
    {
        if self.propagator.is_refuted(skip) {
            return Ok(true);
        }
        self.propagator.complete()?;
        let support = self.support(skip);
        self.propagator.note_doubling(skip, &support);
        self.propagator.gather_conflict();
        self.propagator.implied(lits, skip, support)
    }

    /// Whether the literals, joined with each of the tails, are implied by propagation, over the clauses of all slots
    /// but one. The negations of the literals are propagated once for all tails.
    pub fn all_implied(
        &mut self,
        lits: &[Lit],
        tails: &Tails,
        skip: Option<usize>,
    ) -> Result<bool, NoMemory>
        ensures same { self.new ≡ self.old }
        ensures exact { IfOk result (λ yes. IsTrue yes
            ↔ AreImplied (filled (without self.old skip)) lits.now tails.now) }
    {
        if tails.len() == 0 {
            return Ok(true);
        }
        if self.propagator.is_refuted(skip) {
            return Ok(true);
        }
        self.propagator.complete()?;
        match self.propagator.each_implied(lits, tails, skip)? {
            Some(answer) => Ok(answer),
            None => self.each_implied(lits, tails, skip),
        }
    }

    // The same, where the root does not stand without the slot that is left out: each tail is asked about by itself.
    fn each_implied(
        &mut self,
        lits: &[Lit],
        tails: &Tails,
        skip: Option<usize>,
    ) -> Result<bool, NoMemory>
        ensures same { self.new ≡ self.old }
        ensures exact { IfOk result (λ yes. IsTrue yes
            ↔ AreImplied (filled (without self.old skip)) lits.now tails.now) }
    {
        let mut joined = Vec::new(self.alloc);
        for i in 0..tails.len() {
            joined.clear();
            joined.extend_from_slice(lits)?;
            joined.extend_from_slice(tails.tail(i))?;
            if !self.implied(&joined, skip)? {
                return Ok(false);
            }
        }
        Ok(true)
    }

    /// Whether the literals, over the clauses of all slots but one, are implied as the hints tell. Each hint names a
    /// slot, and is looked at once.
    pub fn chain(
        &mut self,
        lits: &[Lit],
        skip: Option<usize>,
        slots: &[usize],
    ) -> Result<bool, NoMemory>
        ensures same { self.new ≡ self.old }
        ensures exact { IfOk result (λ yes. IsTrue yes
            ↔ Chained (without self.old skip) lits.now slots.now) }
    {
        chained(
            self.propagator.clauses(),
            skip,
            lits,
            slots,
            &mut self.known,
        )
    }

    /// Whether the literals are implied by propagation, over the clauses of all slots but one. Where they are, the
    /// slots are hints that show it: the clauses on which the conflict rests, as far as the trail's notes go. Else
    /// there are none.
    pub fn explain(
        &mut self,
        lits: &[Lit],
        skip: Option<usize>,
        slots: &mut Vec<usize>,
    ) -> Result<bool, NoMemory>
        ensures same { self.new ≡ self.old }
        ensures exact { IfOk result (λ yes. IsTrue yes
            ↔ Implied (filled (without self.old skip)) lits.now) }
        ensures shown { IfOk result (λ yes.
            MatchBool yes (Chained (without self.old skip) lits.now slots.new.items)
            (slots.new.items ≡ [])) }
    {
        slots.clear();
        if !self.implied_noted(lits, skip)? {
            return Ok(false);
        }
        slots.extend_from_slice(self.propagator.hints())?;
        if self.chain(lits, skip, slots)? {
            return Ok(true);
        }
        explain_plainly(
            self.propagator.clauses(),
            skip,
            lits,
            &mut self.known,
            slots,
        )
    }

    // Whether the literals are implied; where they are, slots that may show it are gathered.
    fn implied_noted(&mut self, lits: &[Lit], skip: Option<usize>) -> Result<bool, NoMemory>
        ensures same { self.new ≡ self.old }
        ensures exact { IfOk result (λ yes. IsTrue yes
            ↔ Implied (filled (without self.old skip)) lits.now) }
    {
        self.note_hints(true)?;
        let answer = self.implied(lits, skip)?;
        self.note_hints(false)?;
        Ok(answer)
    }

    fn note_hints(&mut self, wanted: bool) -> Result<(), NoMemory>
        ensures { self.new ≡ self.old }
    {
        self.propagator.complete()?;
        self.propagator.gather_hints(wanted);
        Ok(())
    }

    fn support(&self, skip: Option<usize>) -> Support
        ensures { IsSupport self.now skip result }
    {
        match skip {
            Some(at) => self.support_of(at),
            None => Support::Unknown,
        }
    }

    // What the clauses beside a slot say of the literal of its clause that alone is not false.
    fn support_of(&self, at: usize) -> Support
        ensures { IsSupport self.now (Some at) result }
    {
        match self.propagator.left_in(at) {
            Some(lit) => {
                if let Some(other) = self.doubling(at, lit) {
                    Support::Doubled(lit, other)
                } else if self.is_alone(at, lit) {
                    Support::Alone(lit)
                } else if self.is_apart(at, lit) {
                    Support::Apart(lit)
                } else {
                    Support::Unknown
                }
            }
            None => Support::Unknown,
        }
    }

    // A slot that doubles this one's literal: its clause is the literal alone, or it is one of the last slots that hold
    // the literal.
    fn doubling(&self, at: usize, lit: Lit) -> Option<usize>
        ensures { IfSome result (IsDoubled self.now at lit) }
    {
        if let Some(other) = self.find(&[lit]) {
            if self.doubles(other, at, lit) {
                return Some(other);
            }
        }
        let list = self.holders(lit);
        for i in list.len().saturating_sub(4)..list.len() {
            let other = list[i] as usize;
            if self.doubles(other, at, lit) {
                return Some(other);
            }
        }
        None
    }

    // Whether another slot that holds the literal forces it wherever this one's clause does.
    fn doubles(&self, other: usize, at: usize, lit: Lit) -> bool
        requires { IsHolder self.now other lit }
        ensures { IsTrue result → IsDoubled self.now at lit other }
    {
        if other == at {
            return false;
        }
        match (self.slot(other), self.slot(at)) {
            (Some(part), Some(clause)) => is_among(clause, lit)
                && self.gives(part, lit, at, clause),
            _ => false,
        }
    }

    // Whether each literal of the first clause but this one is one of the second, too, or is false by a unit clause in
    // another slot than the one told.
    fn gives(&self, part: &[Lit], lit: Lit, at: usize, clause: &[Lit]) -> bool
        ensures { IsTrue result → (k : Literal) → Contains part.now k → k ≢ lit →
            Contains clause.now k ⊎ IsUnitBeside self.now at (negation k) }
    {
        for other in part {
            if !self.is_given(*other, lit, at, clause) {
                return false;
            }
        }
        true
    }

    fn is_given(&self, other: Lit, lit: Lit, at: usize, clause: &[Lit]) -> bool
        ensures { IsTrue result → other ≢ lit → Contains clause.now other
            ⊎ IsUnitBeside self.now at (negation other) }
    {
        if other.is(lit) || is_among(clause, other) {
            return true;
        }
        self.is_unit_beside(at, other.negated())
    }

    // Whether a clause of the literal alone stands in another slot than this one. The root is asked first: it is faster.
    fn is_unit_beside(&self, at: usize, lit: Lit) -> bool
        ensures { IsTrue result → IsUnitBeside self.now at lit }
    {
        if !self.propagator.knows(lit) {
            return false;
        }
        match self.find(&[lit]) {
            Some(slot) => is_other(slot, at),
            None => false,
        }
    }

    // Whether no other slot holds the literal, and each clause with its negation is true by a unit clause of another slot.
    fn is_apart(&self, at: usize, lit: Lit) -> bool
        ensures { IsTrue result → IsApart self.now at lit }
    {
        is_only(self.holders(lit), at) && self.are_met(self.holders(lit.negated()), at)
    }

    fn are_met(&self, slots: &[u32], at: usize) -> bool
        ensures { IsTrue result → (m : ℕ) (c : Clause) → Contains slots.now m → Holds self.now m c →
            (k : Literal) × Contains c k × IsUnitBeside self.now at k }
    {
        for i in 0..slots.len() {
            if !self.is_met(slots[i] as usize, at) {
                return false;
            }
        }
        true
    }

    // Whether a slot's clause is true by a unit clause in another slot than the second one.
    fn is_met(&self, slot: usize, at: usize) -> bool
        ensures { IsTrue result → (c : Clause) → Holds self.now slot c →
            (k : Literal) × Contains c k × IsUnitBeside self.now at k }
    {
        match self.slot(slot) {
            Some(clause) => self.is_true_beside(clause, at),
            None => false,
        }
    }

    fn is_true_beside(&self, clause: &[Lit], at: usize) -> bool
        ensures { IsTrue result → (k : Literal) × Contains clause.now k
            × IsUnitBeside self.now at k }
    {
        for lit in clause {
            if self.is_unit_beside(at, *lit) {
                return true;
            }
        }
        false
    }

    fn is_alone(&self, at: usize, lit: Lit) -> bool
        ensures { IsTrue result → IsAlone self.now at lit }
    {
        is_only(self.holders(lit), at) && self.holders(lit.negated()).is_empty()
    }
}

// The slot as it stands in lists.
fn number(at: usize) -> Result<u32, NoMemory>
    ensures { IfOk result (λ slot. (slot ≡ at) × (at < 2 ^ 32)) }
{
    match u32::try_from(at) {
        Ok(slot) => Ok(slot),
        Err(_) => Err(NoMemory),
    }
}

fn is_other(slot: usize, at: usize) -> bool
    ensures { IsTrue result → slot ≢ at }
{
    slot != at
}

// Takes a slot from under the literals of its clause, and out of its bucket.
fn free(propagator: &Propagator, holders: &mut Lists, buckets: &mut Buckets, at: usize)
    requires small { at < 2 ^ 32 }
    requires holders { AreHolders propagator.now holders.old }
    requires buckets { AreHashed propagator.now buckets.old }
    ensures holders { AreHolders (without propagator.now (Some at)) holders.new }
    ensures buckets { AreHashed (without propagator.now (Some at)) buckets.new }
{
    if let Some(lits) = propagator.slot(at) {
        remove(holders, propagator, at as u32, lits);
        buckets.remove(lits, at as u32);
    }
}
