//! Regions for several variables.
ghost use Rattle.std.specs.Prelude.{◌≡◌, ◌∷◌, [], true, false, IsTrue};
ghost use Rattle.q_logic.specs.Prelude.{negation, Matrix, Prefix, IsIn, Closed, is_bound, is_universal, Reducible};
ghost use Rattle.q_prop.specs.Slots.{filled};
ghost use Rattle.q_judge.specs.Regions.{AreRegionsOf};

use crate::pivots::Buffers;
use crate::regions::Regions;
use crate::scope::Scope;
use crate::view::View;
use q_logic::{Lit, NoMemory};
use q_prop::Trail;
use std::alloc::Global;
use std::marker::Model;

// So many variables have regions at a time.
const MOST: usize = 4;

/// Regions for the variables that walks asked about last.
#[derive(Drop)]
pub struct RecentRegions {
    alloc: Global,
    recent: Vec<Regions>,
    // how many clauses were looked at by walks that found nothing, since regions were last made
    looked: usize,
}

impl Model for RecentRegions {
    ghost use Rattle.std.specs.Prelude.{List};
    ghost use Rattle.q_judge.specs.Regions.{RegionMap};

    ghost Value = { List RegionMap };

    ghost view = { λ m. m.recent.items };
}

impl RecentRegions {
    pub fn new(alloc: Global) -> RecentRegions
        ensures { result ≡ [] }
    {
        RecentRegions {
            alloc,
            recent: Vec::new(alloc),
            looked: 0,
        }
    }

    /// Whether regions tell that a literal is reducible in its clause. This looks at the clauses with the opposite
    /// literal.
    pub fn separate(&self, view: &View, clause: &[Lit], lit: Lit) -> bool
        requires held { IsIn lit clause.now }
        requires universal { is_universal view.now.prefix lit.var ≡ true }
        requires not_negated { IsIn (negation lit) clause.now → ⊥ }
        requires regions { AreRegionsOf view.now.prefix (filled view.now.slots) self.now }
        ensures { IsTrue result →
            Reducible view.now.prefix (filled view.now.slots) clause.now lit }
    {
        for regions in &self.recent {
            if regions.separate(view, clause, lit) {
                return true;
            }
        }
        false
    }

    /// Keeps the regions right where a clause comes.
    pub fn take(&mut self, scope: &Scope, clause: &[Lit])
        ensures { (X : Matrix) → AreRegionsOf scope.now X self.old →
            AreRegionsOf scope.now (clause.now ∷ X) self.new }
    {
        for at in 0..self.recent.len() {
            self.recent[at].take(scope, clause);
        }
    }

    /// Keeps the regions for neighbours of a variable that is about to go.
    pub fn leave(&mut self, scope: &Scope, var: u32)
        ensures { (X : Matrix) → AreRegionsOf scope.now X self.old →
            AreRegionsOf scope.now X self.new }
    {
        for at in 0..self.recent.len() {
            self.recent[at].leave(scope, var);
        }
    }

    /// Puts a variable v, which is not in the prefix, into the region of w.
    pub fn inherit(&mut self, v: u32, w: u32) -> Result<(), NoMemory>
        ensures { (P : Prefix) (X : Matrix) → is_bound P v ≡ false → Closed P X →
            AreRegionsOf P X self.old → AreRegionsOf P X self.new }
    {
        for at in 0..self.recent.len() {
            self.recent[at].inherit(v, w)?;
        }
        Ok(())
    }

    /// Learns of a walk for a variable that found nothing, and left what it met on the trail. Once such walks have looked
    /// at more clauses than there are slots, regions are made for the variable: so that costs no more than the walks.
    pub fn learn(&mut self, view: &View, buffers: &mut Buffers, var: u32) -> Result<(), NoMemory>
        requires bound { is_bound view.now.prefix var ≡ true }
        requires regions { AreRegionsOf view.now.prefix (filled view.now.slots) self.old }
        ensures { AreRegionsOf view.now.prefix (filled view.now.slots) self.new }
    {
        self.looked = self.looked.saturating_add(looks(view, &buffers.trail));
        if self.looked > view.slots() {
            self.looked = 0;
            self.make(view, &mut buffers.slots, var)?;
        }
        Ok(())
    }

    // Makes regions for a variable. Where there is no room for them, the oldest go.
    fn make(&mut self, view: &View, queue: &mut Vec<u32>, var: u32) -> Result<(), NoMemory>
        requires bound { is_bound view.now.prefix var ≡ true }
        requires regions { AreRegionsOf view.now.prefix (filled view.now.slots) self.old }
        ensures { AreRegionsOf view.now.prefix (filled view.now.slots) self.new }
    {
        if self.recent.len() >= MOST {
            let _ = self.recent.remove(0);
        }
        let mut regions = Regions::new(self.alloc, var);
        regions.make(view, queue)?;
        self.recent.push(regions)?;
        Ok(())
    }
}

// How many clauses hold the negations of the literals on the trail.
fn looks(view: &View, trail: &Trail) -> usize {
    let mut sum: usize = 0;
    for place in 0..trail.len() {
        sum = sum.saturating_add(view.slots_of(trail.at(place).negated()).len());
    }
    sum
}
