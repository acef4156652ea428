//! The dependents of a universal variable: the clauses that are connected to it, and the existential variables that
//! connect them.
ghost use Rattle.std.specs.Prelude.{◌↔◌, ◌^◌, ◌≡◌, ◌≤◌, ◌<◌, ◌+◌, ◌⊎◌, ℕ, [], length, true, false, Some, OnOk, IfOk, IsTrue, slice_get};
ghost use Rattle.q_logic.specs.Prelude.{Literal, negation, Clause, IsIn, positive, Within, has_variable, is_bound, slot, live, Spread, Expandable, clauses_of};
ghost use Rattle.q_kernel.specs.Lists.{Has};
ghost use Rattle.q_kernel.specs.Prelude.{slots};
ghost use Rattle.q_expand.specs.Dependents.{IsConnected, AreDependents, IsLarger, HasMet, IsWhole, IsWidened, IsMet, IsVisited, IsWithin, MayVisit, nothing_met};

use crate::ids::Ids;
use q_kernel::{ClauseId, Kernel};
use q_logic::{Lit, NoMemory, holds};
use q_rule::{Queue, clause_of, is_inner};
use std::alloc::Global;
use std::marker::Model;

/// How many dependents there may be, and how large their clauses without the universal variable may be.
#[derive(Clone, Copy, Debug, PartialEq, Eq)]
pub(crate) struct Room {
    pub(crate) vars: usize,
    pub(crate) size: usize,
}

/// What a walk from a universal variable has met.
#[derive(Drop)]
pub(crate) struct Dependents {
    // the existential variables, as positive literals
    vars: Queue,
    met: Ids,
    // the literals and clauses, and the clauses, of those met that do not hold the universal variable
    size: usize,
    others: usize,
}

impl Model for Dependents {
    ghost use Rattle.q_expand.specs.Dependents.{Walked};

    ghost Value = { Walked };

    ghost view = { λ r. record { vars = r.vars; met = r.met; size = r.size; others = r.others } };
}

impl Dependents {
    pub(crate) fn new(alloc: Global) -> Dependents
        ensures { result ≡ nothing_met }
    {
        Dependents {
            vars: Queue::new(alloc),
            met: Ids::new(alloc),
            size: 0,
            others: 0,
        }
    }

    /// Makes it empty.
    pub(crate) fn clear(&mut self)
        ensures { self.new ≡ nothing_met }
    {
        self.vars.clear();
        self.met.clear();
        self.size = 0;
        self.others = 0;
    }

    /// The number of variables.
    pub(crate) fn count(&self) -> usize
        ensures { result ≡ length self.now.vars }
    {
        self.vars.len()
    }

    /// Whether it has a variable.
    pub(crate) fn has(&self, var: u32) -> bool
        requires { (1 ≤ var) × (var < 2 ^ 31) }
        ensures { IsTrue result ↔ IsIn (positive var) self.now.vars }
    {
        self.vars.has(Lit::new(var, false))
    }

    /// The number of clauses.
    pub(crate) fn clauses(&self) -> usize
        ensures { result ≡ length self.now.met }
    {
        self.met.len()
    }

    /// The clause at a place.
    pub(crate) fn clause(&self, place: usize) -> ClauseId
        requires { place < length self.now.met }
        ensures { slice_get self.now.met place ≡ Some result }
    {
        self.met.at(place)
    }

    /// The literals and clauses of the clauses without the universal variable.
    pub(crate) fn size(&self) -> usize
        ensures { result ≡ self.now.size }
    {
        self.size
    }

    /// Their number.
    pub(crate) fn others(&self) -> usize
        ensures { result ≡ self.now.others }
    {
        self.others
    }

    /// Walks breadth first to all that is connected to u; whether the room suffices, and no clause holds u and its
    /// negation.
    pub(crate) fn grow(&mut self, kernel: &Kernel, u: Lit, room: Room) -> Result<bool, NoMemory>
        requires sign { u.negative ≡ false }
        requires bound { is_bound kernel.now.prefix u.var ≡ true }
        requires room { room.size
            ≡ room.vars + length (clauses_of u.var (live (slots kernel.now))) }
        ensures whole { IfOk result (λ yes.
            yes ≡ true → IsWhole kernel.now u.var self.new × IsWithin room self.new) }
        ensures refused { IfOk result (λ yes.
            yes ≡ false → Expandable room.vars kernel.now.prefix (live (slots kernel.now)) u.var
            → ⊥) }
    {
        self.clear();
        if !self.visit_both(kernel, u, u, room)? {
            return Ok(false);
        }
        for head in 0..usize::MAX {
            if head >= self.vars.len() {
                return Ok(true);
            }
            let next = self.vars.at(head);
            if !self.visit_both(kernel, next, u, room)? {
                return Ok(false);
            }
        }
        // a queue that long has no place in memory
        Err(NoMemory)
    }

    // Meets the clauses with a literal or its negation; whether the room suffices.
    fn visit_both(
        &mut self,
        kernel: &Kernel,
        lit: Lit,
        u: Lit,
        room: Room,
    ) -> Result<bool, NoMemory>
        requires { MayVisit kernel.now u room lit self.old }
        ensures met { IfOk result (λ yes.
            yes ≡ true → IsVisited kernel.now u.var room lit self.old self.new
            × HasMet kernel.now self.new (negation lit)) }
        ensures refused { IfOk result (λ yes.
            yes ≡ false → Expandable room.vars kernel.now.prefix (live (slots kernel.now)) u.var
            → ⊥) }
    {
        if !self.visit(kernel, lit, u, room)? {
            return Ok(false);
        }
        let rest = self.visit(kernel, lit.negated(), u, room)?;
        Ok(rest)
    }

    // Meets the clauses with a literal; whether the room suffices.
    fn visit(&mut self, kernel: &Kernel, lit: Lit, u: Lit, room: Room) -> Result<bool, NoMemory>
        requires { MayVisit kernel.now u room lit self.old }
        ensures met { IfOk result (λ yes.
            yes ≡ true → IsVisited kernel.now u.var room lit self.old self.new) }
        ensures refused { IfOk result (λ yes.
            yes ≡ false → Expandable room.vars kernel.now.prefix (live (slots kernel.now)) u.var
            → ⊥) }
    {
        kernel.sound();
        for c in kernel.holders(lit) {
            if !self.meet(kernel, c, u)? {
                return Ok(false);
            }
            if !self.fits(room) {
                return Ok(false);
            }
        }
        Ok(true)
    }

    fn fits(&self, room: Room) -> bool
        ensures yes { result ≡ true → IsWithin room self.now }
        ensures no { result ≡ false
            → (room.vars < length self.now.vars) ⊎ (room.size < self.now.size) }
    {
        self.vars.len() <= room.vars && self.size <= room.size
    }

    // Meets a clause, unless it was met before; whether it does not hold u and its negation.
    fn meet(&mut self, kernel: &Kernel, c: ClauseId, u: Lit) -> Result<bool, NoMemory>
        requires sign { u.negative ≡ false }
        requires bound { is_bound kernel.now.prefix u.var ≡ true }
        requires live { (C : Clause) × (slot (slots kernel.now) c ≡ Some C)
            × IsConnected kernel.now.prefix (live (slots kernel.now)) u.var C }
        requires dependents { AreDependents kernel.now u.var self.old }
        ensures met { IfOk result (λ yes. yes ≡ true → IsMet kernel.now u.var c self.old self.new) }
        ensures both { IfOk result (λ yes.
            yes ≡ false → (C : Clause) × (slot (slots kernel.now) c ≡ Some C)
            × IsIn (positive u.var) C × IsIn (negation (positive u.var)) C) }
    {
        if self.met.has(c) {
            return Ok(true);
        }
        kernel.sound();
        let clause = clause_of(kernel, c);
        if holds_both(clause, u) {
            return Ok(false);
        }
        push_inner(kernel, &mut self.vars, clause, u)?;
        self.met.push(c)?;
        if !holds_one(clause, u) {
            self.size += clause.len() + 1;
            self.others += 1;
        }
        Ok(true)
    }
}

/// Whether the clause holds u or its negation.
pub(crate) fn holds_one(clause: &[Lit], u: Lit) -> bool
    requires { u.negative ≡ false }
    ensures { result ≡ has_variable u.var clause.now }
{
    if holds(clause, u) {
        return true;
    }
    holds(clause, u.negated())
}

// Whether the clause holds u and its negation.
fn holds_both(clause: &[Lit], u: Lit) -> bool
    requires { u.negative ≡ false }
    ensures yes { result ≡ true
        → IsIn (positive u.var) clause.now × IsIn (negation (positive u.var)) clause.now }
    ensures no { result ≡ false → IsIn (positive u.var) clause.now
        → IsIn (negation (positive u.var)) clause.now → ⊥ }
{
    if !holds(clause, u) {
        return false;
    }
    holds(clause, u.negated())
}

// Puts the existential variables of the clause that are inner to u into the queue, each once.
fn push_inner(kernel: &Kernel, vars: &mut Queue, clause: &[Lit], u: Lit) -> Result<(), NoMemory>
    requires bound { is_bound kernel.now.prefix u.var ≡ true }
    requires within { Within kernel.now.prefix clause.now }
    ensures { OnOk result (IsWidened kernel.now.prefix u.var clause.now vars.old vars.new) }
{
    for k in clause {
        let lit = Lit::new(k.var(), false);
        if is_inner(kernel, k.var(), u.var()) && !vars.has(lit) {
            vars.push(lit)?;
        }
    }
    Ok(())
}
