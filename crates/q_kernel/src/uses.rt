// The variables of the prefix in three groups: idle ones, which no clause holds, and of the others the existentials and the
// universals. Sweeping takes idle ones out, and the measure counts the other two groups; no call goes over the prefix for it.
ghost use Rattle.std.specs.Prelude.{◌≡◌, ◌≤◌, ◌<◌, ◌⊎◌, [], ◌∷◌, ℕ, length, slice_get, OnOk, IfOk, Some};
ghost use Rattle.q_arena.specs.Prelude.{Has, AreApart, without};
ghost use Rattle.q_kernel.specs.Uses.{group_of, head_of, IsGrouped, IsStarted, IsStopped};

use q_arena::Rings;
use q_logic::{NoMemory, Quant};
use q_sparse::Filling;
use std::alloc::Global;
use std::marker::Model;

/// The variables of a prefix: the idle ones, which no clause holds, and of the others the existentials and
/// the universals.
#[derive(Drop)]
pub(crate) struct Uses {
    rings: Rings,
}

impl Model for Uses {
    ghost use Rattle.std.specs.Prelude.{length};
    ghost use Rattle.q_arena.specs.Prelude.{list_at};
    ghost use Rattle.q_kernel.specs.Uses.{Groups, AreTagged};

    ghost Value = { Groups };

    ghost view = { λ u. record {
      idle = list_at u.rings 0;
      existentials = list_at u.rings 1;
      universals = list_at u.rings 2;
      room = length u.rings.owners;
    } };

    ghost invariant = { λ u. AreTagged u.rings };
}

// The list of a quantifier.
fn head_of(quant: Quant) -> u32
    ensures { result ≡ head_of quant }
{
    match quant {
        Quant::Exists => 1,
        Quant::Forall => 2,
    }
}

impl Uses {
    pub(crate) fn new(alloc: Global, filling: Filling) -> Result<Uses, NoMemory>
        ensures idle { IfOk result (λ u. u.idle ≡ []) }
        ensures existentials { IfOk result (λ u. u.existentials ≡ []) }
        ensures universals { IfOk result (λ u. u.universals ≡ []) }
    {
        let mut rings = Rings::new(alloc, filling, Filling::Most);
        rings.reserve(0, 3)?;
        Ok(Uses { rings })
    }

    /// Reserves the variables up to the greatest.
    pub(crate) fn reserve(&mut self, greatest: u32) -> Result<(), NoMemory>
        ensures room { OnOk result (greatest < self.new.room) }
        ensures kept { self.old.room ≤ self.new.room }
        ensures idle { self.new.idle ≡ self.old.idle }
        ensures existentials { self.new.existentials ≡ self.old.existentials }
        ensures universals { self.new.universals ≡ self.old.universals }
    {
        self.rings.reserve(greatest as usize + 1, 3)
    }

    /// Each variable is in one group, once, and reserved.
    pub(crate) fn distinct(&self)
        ensures idle { AreApart self.now.idle }
        ensures existentials { AreApart self.now.existentials }
        ensures universals { AreApart self.now.universals }
        ensures room { (v : ℕ) → IsGrouped self.now v → v < self.now.room }
    {
        self.rings.distinct();
    }

    /// Takes in an absent variable, as an idle one.
    pub(crate) fn insert(&mut self, var: u32)
        requires absent { IsGrouped self.old var → ⊥ }
        requires room { var < self.old.room }
        ensures idle { self.new.idle ≡ var ∷ self.old.idle }
        ensures existentials { self.new.existentials ≡ self.old.existentials }
        ensures universals { self.new.universals ≡ self.old.universals }
        ensures room { self.new.room ≡ self.old.room }
    {
        self.rings.push_front(0, var as usize, 0);
    }

    /// Takes an idle variable out.
    pub(crate) fn remove(&mut self, var: u32)
        requires { Has self.old.idle var }
        ensures idle { self.new.idle ≡ without var self.old.idle }
        ensures existentials { self.new.existentials ≡ self.old.existentials }
        ensures universals { self.new.universals ≡ self.old.universals }
        ensures room { self.new.room ≡ self.old.room }
    {
        self.rings.remove(0, var as usize);
    }

    /// Some clause holds the variable. Where it was not idle, nothing is changed.
    pub(crate) fn occur(&mut self, var: u32, quant: Quant)
        requires { Has self.old.idle var ⊎ Has (group_of self.old quant) var }
        ensures started { Has self.old.idle var → IsStarted self.old self.new var quant }
        ensures same { Has (group_of self.old quant) var → self.new ≡ self.old }
    {
        self.rings.distinct();
        if self.rings.owner(var as usize) == 0 {
            let head = head_of(quant);
            self.rings.remove(0, var as usize);
            self.rings.push_front(head as usize, var as usize, head);
        }
    }

    /// No clause holds the variable any more. Where it was idle, nothing is changed.
    pub(crate) fn vanish(&mut self, var: u32, quant: Quant)
        requires { Has self.old.idle var ⊎ Has (group_of self.old quant) var }
        ensures stopped { Has (group_of self.old quant) var
            → IsStopped self.old self.new var quant }
        ensures same { Has self.old.idle var → self.new ≡ self.old }
    {
        self.rings.distinct();
        if self.rings.owner(var as usize) != 0 {
            self.rings.remove(head_of(quant) as usize, var as usize);
            self.rings.push_front(0, var as usize, 0);
        }
    }

    /// An idle variable.
    pub(crate) fn first_idle(&self) -> Option<u32>
        ensures first { result ≡ slice_get self.now.idle 0 }
        ensures there { (v : ℕ) → result ≡ Some v → Has self.now.idle v }
    {
        let var = self.rings.first(0)?;
        Some(var as u32)
    }

    /// The number of existential variables that some clause holds.
    pub(crate) fn existentials(&self) -> u32
        ensures { result ≡ length self.now.existentials }
    {
        self.rings.count(1)
    }

    /// The number of universal variables that some clause holds.
    pub(crate) fn universals(&self) -> u32
        ensures { result ≡ length self.now.universals }
    {
        self.rings.count(2)
    }
}
