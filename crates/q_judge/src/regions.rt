//! Regions of variables, which tell that a literal may be dropped without a walk.
ghost use Rattle.std.specs.Prelude.{◌≡◌, ◌∷◌, ℕ, true, IsTrue};
ghost use Rattle.q_logic.specs.Prelude.{negation, Clause, Matrix, Prefix, IsIn, is_bound, is_universal, outer_or_same, Reducible};
ghost use Rattle.q_prop.specs.Slots.{filled};
ghost use Rattle.q_judge.specs.Regions.{region_of, HasAllIn, HasNoneIn, IsRegional, AreRegions};

use crate::labels::Labels;
use crate::scope::Scope;
use crate::view::View;
use q_logic::{Lit, NoMemory};
use std::alloc::Global;
use std::marker::Model;

/// Regions for one universal variable: the existential literals of a clause that are inner to it lie in one region. So
/// they serve each variable to which it is outer or same.
#[derive(Drop)]
pub struct Regions {
    var: u32,
    labels: Labels,
}

impl Model for Regions {
    ghost use Rattle.q_judge.specs.Regions.{RegionMap};

    ghost Value = { RegionMap };

    ghost view = { λ r. record { var = r.var; labels = r.labels } };
}

impl Regions {
    /// One region, which is right for every formula.
    pub fn new(alloc: Global, var: u32) -> Regions
        ensures var { result.var ≡ var }
        ensures right { (P : Prefix) → (X : Matrix) → AreRegions P X result }
    {
        Regions {
            var,
            labels: Labels::new(alloc),
        }
    }

    /// Makes regions. It costs the size of the formula.
    pub fn make(&mut self, view: &View, queue: &mut Vec<u32>) -> Result<(), NoMemory>
        requires { is_bound view.now.prefix self.old.var ≡ true }
        ensures { AreRegions view.now.prefix (filled view.now.slots) self.new }
    {
        let made = self.labels.make(view, queue, self.var);
        if made.is_err() || !self.are_right(view) {
            self.labels.forget();
        }
        made
    }

    /// Whether the regions tell that a literal is reducible in its clause.
    pub fn separate(&self, view: &View, clause: &[Lit], lit: Lit) -> bool
        requires held { IsIn lit clause.now }
        requires universal { is_universal view.now.prefix lit.var ≡ true }
        requires not_negated { IsIn (negation lit) clause.now → ⊥ }
        requires regions { AreRegions view.now.prefix (filled view.now.slots) self.now }
        ensures { IsTrue result →
            Reducible view.now.prefix (filled view.now.slots) clause.now lit }
    {
        let scope = view.scope();
        if !self.serve(scope, lit.var()) {
            return false;
        }
        let region = self.region_in(scope, clause, lit.var());
        self.has_one(scope, clause, lit.var(), region) && self.part(view, lit.negated(), region)
    }

    /// Keeps the regions right where a clause comes: those that it joins become one.
    pub fn take(&mut self, scope: &Scope, clause: &[Lit])
        ensures { (X : Matrix) → AreRegions scope.now X self.old →
            AreRegions scope.now (clause.now ∷ X) self.new }
    {
        if scope.is_universal(self.var) && !self.fit(scope, clause) {
            self.labels.merge(clause);
        }
    }

    /// Lets the regions be for a neighbour in the block where they are for this variable, which is about to go.
    pub fn leave(&mut self, scope: &Scope, var: u32)
        ensures { (X : Matrix) → AreRegions scope.now X self.old →
            AreRegions scope.now X self.new }
    {
        if self.var != var {
            return;
        }
        let (before, after) = scope.beside(var);
        if let Some(w) = before {
            self.pass_on(scope, w);
        }
        if let Some(w) = after {
            self.pass_on(scope, w);
        }
    }

    // Lets the regions be for another variable of the block.
    fn pass_on(&mut self, scope: &Scope, w: u32)
        ensures { (X : Matrix) → AreRegions scope.now X self.old →
            AreRegions scope.now X self.new }
    {
        if scope.is_universal(w) && self.serve(scope, w) && scope.outer_or_same(w, self.var) {
            self.var = w;
        }
    }

    /// Puts a fresh variable v into the region of w.
    pub fn inherit(&mut self, v: u32, w: u32) -> Result<(), NoMemory>
        ensures var { self.new.var ≡ self.old.var }
        ensures others { (x : ℕ) → (x ≡ v → ⊥) →
            region_of self.new.labels x ≡ region_of self.old.labels x }
    {
        self.labels.inherit(v, w)
    }

    // Whether the regions serve a variable.
    fn serve(&self, scope: &Scope, u: u32) -> bool
        requires { is_bound scope.now u ≡ true }
        ensures universal { IsTrue result → is_universal scope.now self.now.var ≡ true }
        ensures outer { IsTrue result → outer_or_same scope.now self.now.var u ≡ true }
    {
        scope.is_universal(self.var) && scope.outer_or_same(self.var, u)
    }

    fn region_of(&self, var: u32) -> u32
        ensures { result ≡ region_of self.now.labels var }
    {
        self.labels.region_of(var)
    }

    // The region of the first literal that is inner to u.
    fn region_in(&self, scope: &Scope, clause: &[Lit], u: u32) -> u32
        requires { is_bound scope.now u ≡ true }
    {
        for k in clause {
            if scope.is_inner(k.var(), u) {
                return self.region_of(k.var());
            }
        }
        0
    }

    // Whether the literals that are inner to u lie in the region.
    fn has_one(&self, scope: &Scope, clause: &[Lit], u: u32, region: u32) -> bool
        requires { is_bound scope.now u ≡ true }
        ensures { IsTrue result → HasAllIn scope.now u self.now.labels region clause.now }
    {
        for k in clause {
            if scope.is_inner(k.var(), u) && self.region_of(k.var()) != region {
                return false;
            }
        }
        true
    }

    // Whether none of the literals that are inner to u lies in the region.
    fn has_none(&self, scope: &Scope, clause: &[Lit], u: u32, region: u32) -> bool
        requires { is_bound scope.now u ≡ true }
        ensures { IsTrue result → HasNoneIn scope.now u self.now.labels region clause.now }
    {
        for k in clause {
            if scope.is_inner(k.var(), u) && self.region_of(k.var()) == region {
                return false;
            }
        }
        true
    }

    // Whether no clause with the literal has another literal, inner to it, in the region.
    fn part(&self, view: &View, m: Lit, region: u32) -> bool
        requires { is_bound view.now.prefix m.var ≡ true }
        ensures { IsTrue result → (D : Clause) → IsIn D (filled view.now.slots) → IsIn m D →
            HasNoneIn view.now.prefix m.var self.now.labels region D }
    {
        for at in view.slots_of(m) {
            if let Some(clause) = view.clause(*at as usize) {
                if !self.has_none(view.scope(), clause, m.var(), region) {
                    return false;
                }
            }
        }
        true
    }

    // Whether the clause has its inner literals in one region.
    fn fit(&self, scope: &Scope, clause: &[Lit]) -> bool
        requires { is_bound scope.now self.now.var ≡ true }
        ensures { IsTrue result → IsRegional scope.now self.now clause.now }
    {
        let region = self.region_in(scope, clause, self.var);
        self.has_one(scope, clause, self.var, region)
    }

    // Whether each clause does.
    fn are_right(&self, view: &View) -> bool
        requires { is_bound view.now.prefix self.now.var ≡ true }
        ensures { IsTrue result → AreRegions view.now.prefix (filled view.now.slots) self.now }
    {
        for at in 0..view.slots() {
            if let Some(clause) = view.clause(at) {
                if !self.fit(view.scope(), clause) {
                    return false;
                }
            }
        }
        true
    }
}
