//! A formula under change: its prefix in a scope and its clauses in slots, with all that the tests of steps need.
//! Whether a step may be taken is asked before; a change asks only for what keeps a formula one.
ghost use Rattle.std.specs.Prelude.{◌≡◌, ◌↔◌, ◌<◌, ◌+◌, ◌^◌, ◌∷◌, ◌++◌, [], true, false, None, Some, Err, length, slice_set, IfOk, IfErr, OnOk, OnErr, IsTrue, MatchBool};
ghost use Rattle.q_logic.specs.Prelude.{Clause, Matrix, IsIn, Chained, AreModerate, Literal, IsBelow, negation, Slots, ArePairs, outer, without, is_bound, is_existential, is_universal, Implied, Reducible, SameFormula, IsFirst, FirstPivot, IsWarranted, Within, KeepsLimits, IsAbsent, IsDroppable, insert_after, removed_from, literals_in, OutersOf};
ghost use Rattle.q_prop.specs.Slots.{filled, Holds, IsPut};
ghost use Rattle.q_prop.specs.Slots.{without as without_slot};
ghost use Rattle.q_judge.specs.Entries.{IsPivotEntry};
ghost use Rattle.q_judge.specs.Ledgers.{slotted, formula_in, clauses_but};
ghost use Rattle.q_judge.specs.Tried.{IsEndRefusal};
ghost use Rattle.q_judge.specs.Warrants.{IsAnswered, Resolves};

use crate::checks::{compare, has_room, sum_of};
use crate::error::CheckError;
use crate::evident::{is_evident_first, resolves_evidently};
use crate::kept_walks::RecentWalks;
use crate::pivots::{
    Buffers, Candidate, Question, Warrant, permit_of, push_outer, resolves, warrant_of,
};
use crate::reach::reduces;
use crate::recent::RecentRegions;
use crate::scope::Scope;
use crate::undo::{Undo, collect_outers, pivot_entry};
use crate::view::View;
use q_logic::{Clauses, Formula, Limits, Lit, NoMemory, holds};
use q_prop::Store;
use std::alloc::Global;
use std::marker::Model;

/// A prefix, and clauses in slots. Each clause's variables are in the prefix.
#[derive(Drop)]
pub struct Ledger {
    alloc: Global,
    scope: Scope,
    store: Store,
    clauses: u64,
    lits: u64,
    buffers: Buffers,
    recent: RecentRegions,
    walks: RecentWalks,
}

impl Model for Ledger {
    ghost use Rattle.q_prop.specs.Slots.{filled};
    ghost use Rattle.q_judge.specs.Ledgers.{Slotted};
    ghost use Rattle.q_judge.specs.Regions.{AreRegionsOf};
    ghost use Rattle.q_judge.specs.Tried.{IsCounted};
    ghost use Rattle.q_judge.specs.Walks.{AreEnclosed};

    ghost Value = { Slotted };

    ghost view = { λ b. record { prefix = b.scope; slots = b.store } };

    ghost invariant = { λ b.
        IsCounted (record { prefix = b.scope; matrix = filled b.store }) b.clauses b.lits
        × AreRegionsOf b.scope (filled b.store) b.recent
        × AreEnclosed b.scope (filled b.store) b.walks };
}

impl Ledger {
    /// The clauses stand in the slots from 0 on.
    pub fn start(alloc: Global, formula: &Formula) -> Result<Ledger, NoMemory>
        ensures { IfOk result (λ b. b ≡ slotted formula.now) }
    {
        let scope = Scope::start(alloc, formula.prefix())?;
        let mut store = Store::with_buckets(alloc, formula.clauses());
        let mut lits: u64 = 0;
        for at in 0..formula.clauses() {
            let clause = formula.clause(at);
            lits = sum_of(lits, clause)?;
            store.add(clause)?;
        }
        Ok(Ledger {
            alloc,
            scope,
            store,
            clauses: formula.clauses() as u64,
            lits,
            buffers: Buffers::new(alloc),
            recent: RecentRegions::new(alloc),
            walks: RecentWalks::new(alloc),
        })
    }

    /// The prefix.
    pub fn scope(&self) -> &Scope
        ensures { result.now ≡ self.now.prefix }
    {
        &self.scope
    }

    /// The clauses in their slots.
    pub fn store(&self) -> &Store
        ensures { result.now ≡ self.now.slots }
    {
        &self.store
    }

    /// The clauses now, by ascending slot.
    pub fn clauses(&self) -> Result<Clauses, NoMemory>
        ensures { IfOk result (λ c. c ≡ filled self.now.slots) }
    {
        let count = self.clauses as usize;
        let mut clauses = Clauses::with_capacity(self.alloc, count, self.lits as usize)?;
        for at in 0..self.store.slots() {
            let Some(clause) = self.store.slot(at) else {
                continue;
            };
            clauses.push(clause)?;
        }
        Ok(clauses)
    }

    /// Whether one more clause keeps the checker's limits, four times those of a file.
    pub fn has_room(&self, limits: Limits, clause: &[Lit]) -> bool
        requires { AreModerate limits }
        ensures { IsTrue result ↔ KeepsLimits limits (clause.now ∷ filled self.now.slots) }
    {
        has_room(limits, self.clauses, self.lits, clause)
    }

    /// Whether the literals are implied by propagation, over the clauses of all slots but one.
    pub fn implied(&mut self, lits: &[Lit], skip: Option<usize>) -> Result<bool, NoMemory>
        ensures same { self.new ≡ self.old }
        ensures exact { IfOk result (λ yes. IsTrue yes ↔
            Implied (clauses_but self.old skip) lits.now) }
    {
        self.store.implied(lits, skip)
    }

    /// Whether the literals are implied as the hints tell, over the slots but one. Each hint is a slot.
    pub fn chain(
        &mut self,
        lits: &[Lit],
        skip: Option<usize>,
        slots: &[usize],
    ) -> Result<bool, NoMemory>
        ensures same { self.new ≡ self.old }
        ensures exact { IfOk result (λ yes. IsTrue yes ↔
            Chained (without_slot self.old.slots skip) lits.now slots.now) }
    {
        self.store.chain(lits, skip, slots)
    }

    /// Whether the literals are implied by propagation, over the slots but one, and hints that show it. Each hint is a slot.
    pub fn explain(
        &mut self,
        lits: &[Lit],
        skip: Option<usize>,
        slots: &mut Vec<usize>,
    ) -> Result<bool, NoMemory>
        ensures same { self.new ≡ self.old }
        ensures exact { IfOk result (λ yes. IsTrue yes ↔
            Implied (clauses_but self.old skip) lits.now) }
        ensures shown { IfOk result (λ yes.
            MatchBool yes (Chained (without_slot self.old.slots skip) lits.now slots.new.items)
            (slots.new.items ≡ [])) }
    {
        self.store.explain(lits, skip, slots)
    }

    /// Joins the literals with the outer clause on m of the clause in a slot.
    pub fn join(
        &self,
        at: usize,
        base: &[Lit],
        m: Lit,
        joined: &mut Vec<Lit>,
    ) -> Result<(), NoMemory>
        requires { is_bound self.now.prefix m.var ≡ true }
        ensures { OnOk result ((C : Clause) → Holds self.now.slots at C →
            joined.new.items ≡ base.now ++ outer self.now.prefix m C) }
    {
        joined.clear();
        joined.extend_from_slice(base)?;
        let Some(clause) = self.store.slot(at) else {
            return Ok(());
        };
        push_outer(joined, &self.scope, clause, m)?;
        Ok(())
    }

    /// Why the clause may come or go, over the slots but one; refused where nothing speaks for it.
    pub fn warrant(
        &mut self,
        skip: Option<usize>,
        clause: &[Lit],
        first: Option<Lit>,
    ) -> Result<Warrant, CheckError>
        requires within { Within self.old.prefix clause.now }
        requires first { IsFirst first clause.now }
        ensures same { self.new ≡ self.old }
        ensures exact { IsAnswered self.old.prefix (clauses_but self.old skip) clause.now first
            result }
    {
        let candidate = Candidate {
            skip,
            clause,
            first,
        };
        warrant_of(&mut self.store, &self.scope, &mut self.buffers, &candidate)
    }

    /// Whether the clause may come or go, over the slots but one; refused where nothing speaks for it. Why is not told: a
    /// clause with an evident pivot needs no propagation then.
    pub fn permit(
        &mut self,
        skip: Option<usize>,
        clause: &[Lit],
        first: Option<Lit>,
    ) -> Result<(), CheckError>
        requires within { Within self.old.prefix clause.now }
        requires first { IsFirst first clause.now }
        ensures same { self.new ≡ self.old }
        ensures ok { OnOk result
            (IsWarranted self.old.prefix (clauses_but self.old skip) clause.now first) }
        ensures refused { IfErr result (λ e.
            IsAnswered self.old.prefix (clauses_but self.old skip) clause.now first (Err e)) }
    {
        let candidate = Candidate {
            skip,
            clause,
            first,
        };
        permit_of(&mut self.store, &self.scope, &mut self.buffers, &candidate)
    }

    /// Whether the first literal is an evident pivot of the clause, over the slots but one: each resolvent is a tautology or stands
    /// there. Takes no propagation, and is asked only where few clauses hold the opposite literal.
    pub fn is_evident(
        &mut self,
        skip: Option<usize>,
        clause: &[Lit],
        first: Option<Lit>,
    ) -> Result<bool, NoMemory>
        requires within { Within self.old.prefix clause.now }
        requires first { IsFirst first clause.now }
        ensures same { self.new ≡ self.old }
        ensures pivot { IfOk result (λ yes. IsTrue yes →
            FirstPivot self.old.prefix (clauses_but self.old skip) clause.now first) }
    {
        let others = View::new(&self.store, &self.scope, skip);
        is_evident_first(&others, &mut self.buffers.outers.joined, clause, first)
    }

    /// Whether the literals, joined with the outer clause of each clause that holds m, are implied, over the slots but one.
    pub fn resolves(&mut self, skip: Option<usize>, base: &[Lit], m: Lit) -> Result<bool, NoMemory>
        requires { is_bound self.old.prefix m.var ≡ true }
        ensures same { self.new ≡ self.old }
        ensures exact { IfOk result (λ yes. IsTrue yes ↔
            Resolves self.old.prefix (clauses_but self.old skip) base.now m) }
    {
        let question = Question { skip, base, m };
        resolves(&mut self.store, &self.scope, &mut self.buffers, &question)
    }

    /// Whether the literal may go from the clause in a slot. `rest` is the clause without the literal. What takes no propagation is asked
    /// first: a walk that was kept, an evident pivot, and the reach.
    pub fn is_droppable(
        &mut self,
        at: usize,
        clause: &[Lit],
        rest: &[Lit],
        lit: Lit,
    ) -> Result<bool, NoMemory>
        requires within { Within self.old.prefix clause.now }
        requires held { IsIn lit clause.now }
        requires rest { rest.now ≡ without lit clause.now }
        ensures same { self.new ≡ self.old }
        ensures exact { IfOk result (λ yes. IsTrue yes ↔
            IsDroppable self.old.prefix (clauses_but self.old (Some at)) clause.now lit) }
    {
        if !self.may_go(clause, lit) {
            return Ok(false);
        }
        if self.is_told(at, clause, lit) {
            return Ok(true);
        }
        if self.resolves_evidently(at, rest, lit.negated())? {
            return Ok(true);
        }
        if self.is_reducible(at, clause, lit)? {
            return Ok(true);
        }
        self.resolves(Some(at), rest, lit.negated())
    }

    // Whether the literals, joined with the outer clause of each clause that holds m, are evidently implied, over the slots but one.
    fn resolves_evidently(&mut self, at: usize, base: &[Lit], m: Lit) -> Result<bool, NoMemory>
        requires { is_bound self.old.prefix m.var ≡ true }
        ensures same { self.new ≡ self.old }
        ensures resolved { IfOk result (λ yes. IsTrue yes →
            Resolves self.old.prefix (clauses_but self.old (Some at)) base.now m) }
    {
        let others = View::new(&self.store, &self.scope, Some(at));
        resolves_evidently(&others, &mut self.buffers.outers.joined, base, m)
    }

    // Whether the literal is universal, and its negation not in the clause.
    fn may_go(&self, clause: &[Lit], lit: Lit) -> bool
        ensures yes { IsTrue result → (is_universal self.now.prefix lit.var ≡ true)
            × (IsIn (negation lit) clause.now → ⊥) }
        ensures no { (X : Matrix) → IsDroppable self.now.prefix X clause.now lit → IsTrue result }
    {
        self.scope.is_universal(lit.var()) && !holds(clause, lit.negated())
    }

    /// Whether the universal literal may go from the clause in a slot by its reach alone.
    pub fn is_reducible(&mut self, at: usize, clause: &[Lit], lit: Lit) -> Result<bool, NoMemory>
        requires within { Within self.old.prefix clause.now }
        requires held { IsIn lit clause.now }
        requires universal { is_universal self.old.prefix lit.var ≡ true }
        ensures same { self.new ≡ self.old }
        ensures exact { IfOk result (λ yes. IsTrue yes ↔
            Reducible self.old.prefix (clauses_but self.old (Some at)) clause.now lit) }
    {
        if !self.may_go(clause, lit) {
            return Ok(false);
        }
        if self.goes_on(at, clause, lit)? {
            return Ok(true);
        }
        self.finds_reducible(at, clause, lit)
    }

    // Whether a walk that was kept tells that the literal may go.
    fn is_told(&self, at: usize, clause: &[Lit], lit: Lit) -> bool
        requires within { Within self.now.prefix clause.now }
        requires held { IsIn lit clause.now }
        requires universal { is_universal self.now.prefix lit.var ≡ true }
        requires not_negated { IsIn (negation lit) clause.now → ⊥ }
        ensures { IsTrue result →
            Reducible self.now.prefix (clauses_but self.now (Some at)) clause.now lit }
    {
        self.walks.tell(&self.scope, clause, lit)
    }

    // Whether such a walk tells it once it has gone on from the clause.
    fn goes_on(&mut self, at: usize, clause: &[Lit], lit: Lit) -> Result<bool, NoMemory>
        requires within { Within self.old.prefix clause.now }
        requires held { IsIn lit clause.now }
        requires universal { is_universal self.old.prefix lit.var ≡ true }
        requires not_negated { IsIn (negation lit) clause.now → ⊥ }
        ensures same { self.new ≡ self.old }
        ensures told { IfOk result (λ yes. IsTrue yes →
            Reducible self.old.prefix (clauses_but self.old (Some at)) clause.now lit) }
    {
        let whole = View::new(&self.store, &self.scope, None);
        let told = self.walks.extend(&whole, clause, lit)?;
        Ok(told)
    }

    // Whether the literal may go by its reach, by a walk of its own or by regions.
    fn finds_reducible(&mut self, at: usize, clause: &[Lit], lit: Lit) -> Result<bool, NoMemory>
        requires within { Within self.old.prefix clause.now }
        requires held { IsIn lit clause.now }
        requires universal { is_universal self.old.prefix lit.var ≡ true }
        ensures same { self.new ≡ self.old }
        ensures exact { IfOk result (λ yes. IsTrue yes ↔
            Reducible self.old.prefix (clauses_but self.old (Some at)) clause.now lit) }
    {
        let reducible = self.reduces(at, clause, lit)?;
        if reducible {
            self.learn(lit.var())?;
        }
        Ok(reducible)
    }

    // The same, without what regions learn of it.
    fn reduces(&mut self, at: usize, clause: &[Lit], lit: Lit) -> Result<bool, NoMemory>
        requires within { Within self.old.prefix clause.now }
        requires held { IsIn lit clause.now }
        requires universal { is_universal self.old.prefix lit.var ≡ true }
        ensures same { self.new ≡ self.old }
        ensures exact { IfOk result (λ yes. IsTrue yes ↔
            Reducible self.old.prefix (clauses_but self.old (Some at)) clause.now lit) }
    {
        let others = View::new(&self.store, &self.scope, Some(at));
        reduces(&others, &self.recent, &mut self.buffers.trail, clause, lit)
    }

    // Regions learn of a walk for the variable that found nothing.
    fn learn(&mut self, var: u32) -> Result<(), NoMemory>
        requires { is_bound self.old.prefix var ≡ true }
        ensures { self.new ≡ self.old }
    {
        let whole = View::new(&self.store, &self.scope, None);
        self.recent.learn(&whole, &mut self.buffers, var)
    }

    /// The outer clauses on m of the clauses that hold m, in the slots but one.
    pub fn outers(&mut self, skip: Option<usize>, m: Lit) -> Result<Clauses, NoMemory>
        requires { is_bound self.old.prefix m.var ≡ true }
        ensures same { self.new ≡ self.old }
        ensures exact { IfOk result (λ c.
            OutersOf self.old.prefix (clauses_but self.old skip) m c) }
    {
        let others = View::new(&self.store, &self.scope, skip);
        collect_outers(self.alloc, &others, &mut self.buffers.outers.joined, m)
    }

    /// What a deletion by the pivot leaves.
    pub fn pivot_entry(&mut self, at: usize, pivot: Option<Lit>) -> Result<Option<Undo>, NoMemory>
        requires { (l : Literal) → pivot ≡ Some l → is_bound self.old.prefix l.var ≡ true }
        ensures same { self.new ≡ self.old }
        ensures exact { IfOk result (λ u.
            IsPivotEntry self.old.prefix (clauses_but self.old (Some at)) pivot u) }
    {
        let others = View::new(&self.store, &self.scope, Some(at));
        pivot_entry(self.alloc, &others, &mut self.buffers.outers.joined, pivot)
    }

    /// Puts a clause into an empty slot, which may be a new one.
    pub fn put(&mut self, clause: &[Lit]) -> Result<usize, NoMemory>
        requires ordered { ArePairs IsBelow clause.now }
        requires within { Within self.old.prefix clause.now }
        requires few_clauses { length (filled self.old.slots) < 2 ^ 63 }
        requires few_lits { length clause.now + literals_in (filled self.old.slots) < 2 ^ 63 }
        ensures prefix { self.new.prefix ≡ self.old.prefix }
        ensures ok { IfOk result (λ at. IsPut self.old.slots at clause.now self.new.slots) }
        ensures err { OnErr result (self.new ≡ self.old) }
    {
        self.recent.take(&self.scope, clause);
        self.walks.take(&self.scope, clause);
        let at = self.store.add(clause)?;
        self.clauses += 1;
        self.lits += clause.len() as u64;
        Ok(at)
    }

    /// Empties the slot of the clause. Takes no memory.
    pub fn delete(&mut self, at: usize, clause: &[Lit])
        requires { Holds self.old.slots at clause.now }
        ensures { self.new
            ≡ record { prefix = self.old.prefix; slots = slice_set self.old.slots at None } }
    {
        self.store.delete(at);
        self.clauses -= 1;
        self.lits -= clause.len() as u64;
    }

    /// Puts the rest of a clause that loses a literal into another slot, and empties the clause's own.
    pub fn shorten(&mut self, at: usize, clause: &[Lit], rest: &[Lit]) -> Result<usize, NoMemory>
        requires there { Holds self.old.slots at clause.now }
        requires ordered { ArePairs IsBelow clause.now }
        requires rest { (l : Literal) × (rest.now ≡ without l clause.now) }
        ensures ok { IfOk result (λ k. (t : Slots) × IsPut self.old.slots k rest.now t
            × (self.new ≡ record { prefix = self.old.prefix; slots = slice_set t at None })) }
        ensures err { OnErr result (self.new ≡ self.old) }
    {
        self.walks.take(&self.scope, rest);
        let new = self.store.add(rest)?;
        self.store.delete(at);
        self.lits -= (clause.len() - rest.len()) as u64;
        Ok(new)
    }

    /// Puts the existential v directly after the existential w.
    pub fn insert(&mut self, v: u32, w: u32) -> Result<(), NoMemory>
        requires absent { is_bound self.old.prefix v ≡ false }
        requires there { is_existential self.old.prefix w ≡ true }
        ensures ok { OnOk result (self.new
            ≡ record { prefix = insert_after w v self.old.prefix; slots = self.old.slots }) }
        ensures err { OnErr result (self.new ≡ self.old) }
    {
        self.recent.inherit(v, w)?;
        self.scope.insert_after(w, v)?;
        Ok(())
    }

    /// Takes a variable that no clause holds out of the prefix.
    pub fn remove(&mut self, var: u32)
        requires bound { is_bound self.old.prefix var ≡ true }
        requires absent { IsAbsent (filled self.old.slots) var }
        ensures { self.new
            ≡ record { prefix = removed_from var self.old.prefix; slots = self.old.slots } }
    {
        self.recent.leave(&self.scope, var);
        self.scope.remove(var);
    }

    /// Whether the formula is the output up to order.
    pub fn finish(mut self, output: &Formula) -> Result<(), CheckError>
        ensures same { OnOk result (SameFormula (formula_in self) output.now) }
        ensures refused { IfErr result (IsEndRefusal (formula_in self) output.now) }
    {
        compare(
            self.alloc,
            &self.scope,
            &mut self.store,
            self.clauses,
            output,
        )
    }
}
