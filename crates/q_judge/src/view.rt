//! What the tests of a step look at: a prefix, and the clauses in all slots or in all but one.
ghost use Rattle.std.specs.Prelude.{◌≡◌, ◌↔◌, Some, length, MatchOption, IsTrue};
ghost use Rattle.q_logic.specs.Prelude.{Clause, IsIn, Closed, Within};
ghost use Rattle.q_prop.specs.Slots.{Holds, filled, without};
ghost use Rattle.q_judge.specs.Warrants.{AreSlotsOf};

use crate::scope::Scope;
use q_logic::Lit;
use q_prop::Store;
use std::marker::Model;

/// A prefix and the clauses in slots, where one slot may be left out. Each clause's variables are in the prefix.
#[derive(Drop)]
pub struct View<'a> {
    store: &'a Store,
    scope: &'a Scope,
    skip: Option<usize>,
}

impl<'a> Model for View<'a> {
    ghost use Rattle.q_logic.specs.Prelude.{Closed};
    ghost use Rattle.q_prop.specs.Slots.{filled, without};
    ghost use Rattle.q_judge.specs.Ledgers.{Slotted};

    ghost Value = { Slotted };

    ghost view = { λ v. record { prefix = v.scope.now; slots = without v.store.now v.skip } };

    ghost invariant = { λ v. Closed v.scope.now (filled (without v.store.now v.skip)) };
}

impl<'a> View<'a> {
    /// All clauses, but for that in a slot where one is named.
    pub fn new(store: &'a Store, scope: &'a Scope, skip: Option<usize>) -> View<'a>
        requires { Closed scope.now (filled store.now) }
        ensures { result ≡ record { prefix = scope.now; slots = without store.now skip } }
    {
        View { store, scope, skip }
    }

    /// The prefix.
    pub fn scope(&self) -> &'a Scope
        ensures { result.now ≡ self.now.prefix }
    {
        self.scope
    }

    /// The number of slots, empty ones too.
    pub fn slots(&self) -> usize
        ensures { result ≡ length self.now.slots }
    {
        self.store.slots()
    }

    /// The clause in a slot. There is none in the one that is left out.
    pub fn clause(&self, at: usize) -> Option<&'a [Lit]>
        ensures { MatchOption result ((d : Clause) → Holds self.now.slots at d → ⊥) (λ r.
            Holds self.now.slots at r.now × Within self.now.prefix r.now) }
    {
        clause_at(self.store, self.skip, at)
    }

    /// Whether a slot with the clause is found, by one look-up. Where that is the slot left out, another one is not looked for.
    pub fn finds(&self, lits: &[Lit]) -> bool
        ensures { IsTrue result → IsIn lits.now (filled self.now.slots) }
    {
        match self.store.find(lits) {
            Some(at) => !is_left_out(self.skip, at),
            None => false,
        }
    }

    /// The slots of the clauses that hold the literal. The one that is left out may be among them.
    pub fn slots_of(&self, lit: Lit) -> &'a [u32]
        ensures { AreSlotsOf self.now.slots lit result.now }
    {
        self.store.holders(lit)
    }
}

// The clause in a slot that is not the one left out.
fn clause_at<'a>(store: &'a Store, skip: Option<usize>, at: usize) -> Option<&'a [Lit]>
    ensures { MatchOption result ((d : Clause) → Holds (without store.now skip) at d → ⊥) (λ r.
        Holds (without store.now skip) at r.now) }
{
    if is_left_out(skip, at) {
        return None;
    }
    store.slot(at)
}

fn is_left_out(skip: Option<usize>, at: usize) -> bool
    ensures { IsTrue result ↔ (skip ≡ Some at) }
{
    match skip {
        Some(left_out) => left_out == at,
        None => false,
    }
}
