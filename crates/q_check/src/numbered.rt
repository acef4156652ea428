//! The formula under check with numbered clauses: a ledger, which keeps the clauses in slots, and the slot of each
//! number. Slots are used again, numbers never are. Hints are asked for by slots and told by numbers.
ghost use Rattle.std.specs.Prelude.{◌≡◌, ◌↔◌, ◌⊎◌, ◌<◌, ◌≤◌, ◌+◌, ◌^◌, ◌++◌, ◌∷◌, [], ℕ, true, false, None, Some, Contains, length, IsTrue, IfOk, IfErr, OnOk, OnErr, MatchOption, map};
ghost use Rattle.q_logic.specs.Prelude.{Clause, IsIn, begun, plain, numbers_with, AreModerate, IsBelow, Literal, slot, set_slot, live, ArePairs, outer, without, is_bound, is_existential, is_universal, Reducible, SameFormula, IsFirst, Within, KeepsLimits, IsAbsent, insert_after, removed_from, literals_in, IsWarranted, delete, Chained};
ghost use Rattle.q_judge.specs.Tried.{IsEndRefusal, IsEntry};
ghost use Rattle.q_check.specs.Numbers.{IsAt, AreNumbersOf, Explains, left_out, place_in, counted, HasNamed, HaveNamed};
ghost use Rattle.q_check.specs.HintChecks.{place_at};

use crate::named::{Named, Sides};
use crate::numbers::Numbers;
use q_judge::{CheckError, Ledger, Scope, Undo, is_absent};
use q_logic::{Formula, Limits, Lit, NoMemory};
use std::alloc::Global;
use std::marker::Model;

/// A formula whose clauses have numbers. The first clause has number 1.
#[derive(Drop)]
pub struct NumberedBook {
    pub(crate) ledger: Ledger,
    pub(crate) numbers: Numbers,
    found: Vec<usize>,
    joined: Vec<Lit>,
}

impl Model for NumberedBook {
    ghost use Rattle.q_logic.specs.Prelude.{NumberedFormula};
    ghost use Rattle.q_check.specs.Numbers.{AreNumbered, numbered_by};

    ghost Value = { NumberedFormula };

    ghost view = { λ b. record {
      prefix = b.ledger.prefix;
      slots = numbered_by b.ledger.slots b.numbers;
    } };

    ghost invariant = { λ b. AreNumbered b.ledger.slots b.numbers };
}

impl NumberedBook {
    pub fn start(alloc: Global, formula: &Formula) -> Result<NumberedBook, NoMemory>
        ensures { IfOk result (λ b. b ≡ begun formula.now) }
    {
        let ledger = Ledger::start(alloc, formula)?;
        let numbers = count(alloc, formula.clauses())?;
        Ok(NumberedBook {
            ledger,
            numbers,
            found: Vec::new(alloc),
            joined: Vec::new(alloc),
        })
    }

    pub fn scope(&self) -> &Scope
        ensures { result.now ≡ self.now.prefix }
    {
        self.ledger.scope()
    }

    /// The number of a copy of the clause.
    pub fn find(&self, clause: &[Lit]) -> Option<usize>
        ensures { MatchOption result (¬ IsIn clause.now (live self.now.slots))
            (λ n. slot self.now.slots n ≡ Some clause.now) }
    {
        match self.ledger.store().find(clause) {
            Some(at) => self.numbers.number_of(at),
            None => None,
        }
    }

    /// Whether one more clause keeps the checker's limits.
    pub fn has_room(&self, limits: Limits, clause: &[Lit]) -> bool
        requires { AreModerate limits }
        ensures { IsTrue result ↔ KeepsLimits limits (clause.now ∷ live self.now.slots) }
    {
        self.ledger.has_room(limits, clause)
    }

    /// Whether no clause holds the variable.
    pub fn is_absent(&self, var: u32) -> bool
        requires positive { 1 ≤ var }
        requires small { var < 2 ^ 31 }
        ensures { IsTrue result ↔ IsAbsent (live self.now.slots) var }
    {
        is_absent(self.ledger.store(), var)
    }

    /// Whether the literal may leave the clause with a number by its reach.
    pub fn is_reducible(
        &mut self,
        number: usize,
        clause: &[Lit],
        lit: Lit,
    ) -> Result<bool, NoMemory>
        requires there { slot self.old.slots number ≡ Some clause.now }
        requires within { Within self.old.prefix clause.now }
        requires held { IsIn lit clause.now }
        requires universal { is_universal self.old.prefix lit.var ≡ true }
        ensures same { self.new ≡ self.old }
        ensures exact { IfOk result (λ yes. IsTrue yes
            ↔ Reducible self.old.prefix (live (left_out (Some number) self.old.slots)) clause.now
            lit) }
    {
        let Some(at) = self.numbers.slot_of(number) else {
            return Ok(false);
        };
        self.ledger.is_reducible(at, clause, lit)
    }

    /// Whether the first literal is an evident pivot of the clause, over the clauses of all numbers but one: each resolvent is a
    /// tautology or stands there. Takes no propagation, and is asked only where few clauses hold the opposite literal.
    pub fn is_evident(&mut self, skip: Option<usize>, named: &Named) -> Result<bool, NoMemory>
        requires within { Within self.old.prefix named.now.clause.now }
        requires first { IsFirst named.now.first named.now.clause.now }
        ensures same { self.new ≡ self.old }
        ensures warranted { IfOk result (λ yes. IsTrue yes →
            IsWarranted self.old.prefix (live (left_out skip self.old.slots)) named.now.clause.now
            named.now.first) }
    {
        let left_out = skipped_slot(&self.numbers, skip);
        self.ledger.is_evident(left_out, named.clause, named.first)
    }

    /// Whether the literals are implied by propagation, over the clauses of all numbers but one; and hints that show it.
    pub fn explained(
        &mut self,
        lits: &[Lit],
        skip: Option<usize>,
        hints: &mut Vec<u64>,
    ) -> Result<bool, NoMemory>
        ensures same { self.new ≡ self.old }
        ensures exact { IfOk result (Explains (left_out skip self.old.slots) lits.now
            hints.new.items) }
    {
        let left_out = skipped_slot(&self.numbers, skip);
        let yes = self.ledger.explain(lits, left_out, &mut self.found)?;
        name_all(&self.numbers, &self.found, hints)?;
        Ok(yes)
    }

    /// The same for the literals joined with the outer clause on m of the clause with a number.
    pub fn explained_with(
        &mut self,
        number: usize,
        sides: &Sides,
        hints: &mut Vec<u64>,
    ) -> Result<bool, NoMemory>
        requires { is_bound self.old.prefix sides.now.m.var ≡ true }
        ensures same { self.new ≡ self.old }
        ensures exact { IfOk result (λ yes. (D : Clause) → slot self.old.slots number ≡ Some D →
            Explains (left_out sides.now.skip self.old.slots)
            (sides.now.base.now ++ outer self.old.prefix sides.now.m D) hints.new.items yes) }
    {
        let Some(at) = self.numbers.slot_of(number) else {
            return Ok(true);
        };
        self.ledger.join(at, sides.base, sides.m, &mut self.joined)?;
        let left_out = skipped_slot(&self.numbers, sides.skip);
        let yes = self
            .ledger
            .explain(&self.joined, left_out, &mut self.found)?;
        name_all(&self.numbers, &self.found, hints)?;
        Ok(yes)
    }

    /// Whether the clause has this number.
    pub fn is_clause(&self, number: usize, clause: &[Lit]) -> bool
        ensures { IsTrue result ↔ (slot self.now.slots number ≡ Some clause.now) }
    {
        let Some(at) = self.numbers.slot_of(number) else {
            return false;
        };
        match self.ledger.store().slot(at) {
            Some(held) => are_same(held, clause),
            None => false,
        }
    }

    /// Whether the hints show that the literals are implied, over the clauses of all numbers but one.
    pub fn chained(
        &mut self,
        lits: &[Lit],
        skip: Option<usize>,
        hints: &[u64],
    ) -> Result<bool, NoMemory>
        ensures same { self.new ≡ self.old }
        ensures exact { IfOk result (λ yes. IsTrue yes
            ↔ Chained (left_out skip self.old.slots) lits.now hints.now) }
    {
        let none = self.ledger.store().slots();
        place_all(&self.numbers, none, hints, &mut self.found)?;
        let left_out = skipped_slot(&self.numbers, skip);
        let yes = self.ledger.chain(lits, left_out, &self.found)?;
        Ok(yes)
    }

    /// The same for the literals joined with the outer clause on m of the clause with a number.
    pub fn chained_with(
        &mut self,
        number: usize,
        sides: &Sides,
        hints: &[u64],
    ) -> Result<bool, NoMemory>
        requires { is_bound self.old.prefix sides.now.m.var ≡ true }
        ensures same { self.new ≡ self.old }
        ensures exact { IfOk result (λ yes. (D : Clause) → slot self.old.slots number ≡ Some D →
            IsTrue yes ↔ Chained (left_out sides.now.skip self.old.slots)
            (sides.now.base.now ++ outer self.old.prefix sides.now.m D) hints.now) }
    {
        let Some(at) = self.numbers.slot_of(number) else {
            return Ok(true);
        };
        self.ledger.join(at, sides.base, sides.m, &mut self.joined)?;
        let none = self.ledger.store().slots();
        place_all(&self.numbers, none, hints, &mut self.found)?;
        let left_out = skipped_slot(&self.numbers, sides.skip);
        let yes = self.ledger.chain(&self.joined, left_out, &self.found)?;
        Ok(yes)
    }

    /// What a deletion of the clause with a number leaves where the undo list is kept: nothing where the clause is implied,
    /// which is searched for.
    pub fn deletion_entry(&mut self, number: usize, named: &Named) -> Result<Option<Undo>, NoMemory>
        requires there { slot self.old.slots number ≡ Some named.now.clause.now }
        requires warranted { IsWarranted self.old.prefix
            (live (left_out (Some number) self.old.slots))
            named.now.clause.now named.now.first }
        ensures same { self.new ≡ self.old }
        ensures exact { IfOk result (IsEntry true (plain self.old)
            (delete named.now.first named.now.clause.now)) }
    {
        let Some(at) = self.numbers.slot_of(number) else {
            return Ok(None);
        };
        if self.ledger.implied(named.clause, Some(at))? {
            return Ok(None);
        }
        let entry = self.ledger.pivot_entry(at, named.first)?;
        Ok(entry)
    }

    /// The numbers of the clauses that hold the literal, ascending, without one of them.
    pub fn holding(&self, m: Lit, skip: Option<usize>, found: &mut Vec<u64>) -> Result<(), NoMemory>
        ensures { OnOk result (found.new.items ≡ numbers_with m 0 (left_out skip self.now.slots)) }
    {
        name_holders(&self.numbers, self.ledger.store().holders(m), skip, found)?;
        found.sort_unstable();
        found.dedup();
        Ok(())
    }

    /// Gives the clause the next number.
    pub fn add(&mut self, clause: &[Lit]) -> Result<(), NoMemory>
        requires ordered { ArePairs IsBelow clause.now }
        requires within { Within self.old.prefix clause.now }
        requires few_clauses { length (live self.old.slots) < 2 ^ 63 }
        requires few_lits { length clause.now + literals_in (live self.old.slots) < 2 ^ 63 }
        ensures ok { OnOk result (self.new ≡ record {
          prefix = self.old.prefix;
          slots = self.old.slots ++ Some clause.now ∷ [];
        }) }
        ensures err { OnErr result (self.new ≡ self.old) }
    {
        let number = self.numbers.next();
        self.numbers.give(None)?;
        match self.ledger.put(clause) {
            Ok(at) => {
                self.numbers.put(number, Some(at));
                Ok(())
            }
            Err(error) => {
                self.numbers.take_back();
                Err(error)
            }
        }
    }

    /// The clause with a number goes. Takes no memory.
    pub fn delete(&mut self, number: usize, clause: &[Lit])
        requires { slot self.old.slots number ≡ Some clause.now }
        ensures { self.new ≡ record {
          prefix = self.old.prefix;
          slots = set_slot number None self.old.slots;
        } }
    {
        if let Some(at) = self.numbers.slot_of(number) {
            self.ledger.delete(at, clause);
            self.numbers.put(number, None);
        }
    }

    /// The clause with a number loses a literal. `rest` is the clause without it.
    pub fn shorten(&mut self, number: usize, clause: &[Lit], rest: &[Lit]) -> Result<(), NoMemory>
        requires there { slot self.old.slots number ≡ Some clause.now }
        requires ordered { ArePairs IsBelow clause.now }
        requires rest { (l : Literal) × (rest.now ≡ without l clause.now) }
        ensures ok { OnOk result (self.new ≡ record {
          prefix = self.old.prefix;
          slots = set_slot number (Some rest.now) self.old.slots;
        }) }
        ensures err { OnErr result (self.new ≡ self.old) }
    {
        let Some(at) = self.numbers.slot_of(number) else {
            return Err(NoMemory);
        };
        let new = self.ledger.shorten(at, clause, rest)?;
        self.numbers.put(number, Some(new));
        Ok(())
    }

    /// Puts the existential v directly after the existential w.
    pub fn insert(&mut self, v: u32, w: u32) -> Result<(), NoMemory>
        requires absent { is_bound self.old.prefix v ≡ false }
        requires there { is_existential self.old.prefix w ≡ true }
        ensures ok { OnOk result (self.new ≡ record {
          prefix = insert_after w v self.old.prefix;
          slots = self.old.slots;
        }) }
        ensures err { OnErr result (self.new ≡ self.old) }
    {
        self.ledger.insert(v, w)
    }

    /// Takes a variable that no clause holds out of the prefix.
    pub fn remove(&mut self, var: u32)
        requires bound { is_bound self.old.prefix var ≡ true }
        requires absent { IsAbsent (live self.old.slots) var }
        ensures { self.new ≡ record {
          prefix = removed_from var self.old.prefix;
          slots = self.old.slots;
        } }
    {
        self.ledger.remove(var);
    }

    /// Whether the formula is the output up to order.
    pub fn finish(self, output: &Formula) -> Result<(), CheckError>
        ensures same { OnOk result (SameFormula (plain self) output.now) }
        ensures refused { IfErr result (IsEndRefusal (plain self) output.now) }
    {
        self.ledger.finish(output)
    }
}

// Numbers for the slots from 0 on: 1, 2 and so on.
fn count(alloc: Global, slots: usize) -> Result<Numbers, NoMemory>
    ensures { IfOk result (λ r. r ≡ None ∷ counted slots) }
{
    let mut numbers = Numbers::new(alloc);
    numbers.give(None)?;
    for at in 0..slots {
        numbers.give(Some(at))?;
    }
    Ok(numbers)
}

fn skipped_slot(numbers: &Numbers, skip: Option<usize>) -> Option<usize>
    ensures { result ≡ place_in numbers.now skip }
{
    match skip {
        Some(number) => numbers.slot_of(number),
        None => None,
    }
}

// The numbers of the slots, in their order.
fn name_all(numbers: &Numbers, slots: &[usize], names: &mut Vec<u64>) -> Result<(), NoMemory>
    ensures { OnOk result (AreNumbersOf numbers.now slots.now names.new.items) }
{
    names.clear();
    for slot in slots {
        names.push(name_of(numbers, *slot))?;
    }
    Ok(())
}

// The number of a slot, if it has one.
fn name_of(numbers: &Numbers, slot: usize) -> u64
    ensures { (n : ℕ) → IsAt numbers.now n slot → IsAt numbers.now result slot }
{
    match numbers.number_of(slot) {
        Some(number) => number as u64,
        None => 0,
    }
}

// The numbers of the slots but one.
fn name_holders(
    numbers: &Numbers,
    slots: &[u32],
    skip: Option<usize>,
    names: &mut Vec<u64>,
) -> Result<(), NoMemory>
    requires { (m n h : ℕ) → IsAt numbers.now m h → IsAt numbers.now n h → m ≡ n }
    ensures { OnOk result (HaveNamed numbers.now slots.now skip names.new.items) }
{
    names.clear();
    for i in 0..slots.len() {
        push_name(numbers, slots[i] as usize, skip, names)?;
    }
    Ok(())
}

fn push_name(
    numbers: &Numbers,
    slot: usize,
    skip: Option<usize>,
    names: &mut Vec<u64>,
) -> Result<(), NoMemory>
    requires { (m n h : ℕ) → IsAt numbers.now m h → IsAt numbers.now n h → m ≡ n }
    ensures { OnOk result (HasNamed numbers.now slot skip names.old.items names.new.items) }
{
    let Some(number) = numbers.number_of(slot) else {
        return Ok(());
    };
    if is_skipped(skip, number) {
        return Ok(());
    }
    names.push(number as u64)?;
    Ok(())
}

fn is_skipped(skip: Option<usize>, number: usize) -> bool
    ensures { IsTrue result ↔ (skip ≡ Some number) }
{
    match skip {
        Some(other) => other == number,
        None => false,
    }
}

// The slots of the numbers, and one that is not there for a number without a slot.
fn place_all(
    numbers: &Numbers,
    none: usize,
    hints: &[u64],
    slots: &mut Vec<usize>,
) -> Result<(), NoMemory>
    ensures { OnOk result (slots.new.items ≡ map (place_at numbers.now none) hints.now) }
{
    slots.clear();
    for hint in hints {
        slots.push(place_of(numbers, none, *hint))?;
    }
    Ok(())
}

fn place_of(numbers: &Numbers, none: usize, hint: u64) -> usize
    ensures { result ≡ place_at numbers.now none hint }
{
    numbers.slot_of(hint as usize).unwrap_or(none)
}

// Whether the clauses have the same literals in one order.
fn are_same(clause: &[Lit], lits: &[Lit]) -> bool
    ensures { IsTrue result ↔ (clause.now ≡ lits.now) }
{
    if clause.len() != lits.len() {
        return false;
    }
    for i in 0..lits.len() {
        if !clause[i].is(lits[i]) {
            return false;
        }
    }
    true
}
