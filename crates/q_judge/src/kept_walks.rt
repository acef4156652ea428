//! Walks that are kept: where one has been, the next one for its literal need not look.
ghost use Rattle.std.specs.Prelude.{◌≡◌, ◌∷◌, ◌<◌, ℕ, [], true, length, Some, IfOk, Contains, IsTrue};
ghost use Rattle.q_logic.specs.Prelude.{Literal, negation, Matrix, Prefix, IsIn, is_bound, is_universal, Reducible, Within};
ghost use Rattle.q_prop.specs.Slots.{filled};
ghost use Rattle.q_judge.specs.Walks.{is_inner, HasInner, IsWorkedOff, IsBorne, IsShut, IsEnclosed, AreEnclosed};

use crate::reach::{lies_inside, push_inner, visit};
use crate::scope::Scope;
use crate::view::View;
use q_logic::{Lit, NoMemory, holds};
use q_prop::Trail;
use std::alloc::Global;
use std::marker::Model;

// So many walks are kept at a time.
const MOST: usize = 4;

/// A universal literal, and literals from which a walk for it comes to no further ones, nor to a clause with its
/// negation.
#[derive(Drop)]
pub struct Walk {
    lit: Lit,
    known: Trail,
}

impl Model for Walk {
    ghost use Rattle.q_judge.specs.Walks.{WalkMap};

    ghost Value = { WalkMap };

    ghost view = { λ w. record { literal = w.lit; known = w.known } };
}

impl Walk {
    pub fn new(alloc: Global, lit: Lit) -> Walk
        ensures { result.known ≡ [] }
    {
        Walk {
            lit,
            known: Trail::new(alloc),
        }
    }

    fn is_for(&self, lit: Lit) -> bool
        ensures { IsTrue result → self.now.literal ≡ lit }
    {
        self.lit.is(lit)
    }

    // Begins anew, for another literal.
    fn begin(&mut self, lit: Lit)
        ensures { self.new ≡ record { literal = lit; known = [] } }
    {
        self.known.truncate(0);
        self.lit = lit;
    }

    // Begins anew where the walk is for another literal.
    fn turn_to(&mut self, lit: Lit)
        ensures literal { self.new.literal ≡ lit }
        ensures walk { (P : Prefix) (X : Matrix) → IsEnclosed P X self.old →
            IsEnclosed P X self.new }
    {
        if self.is_for(lit) {
            return;
        }
        self.begin(lit);
    }

    /// Whether the walk, as far as it went, tells that the literal may leave the clause.
    pub fn tells(&self, scope: &Scope, clause: &[Lit], lit: Lit) -> bool
        requires within { Within scope.now clause.now }
        requires held { IsIn lit clause.now }
        requires universal { is_universal scope.now lit.var ≡ true }
        requires not_negated { IsIn (negation lit) clause.now → ⊥ }
        ensures { (X : Matrix) → IsTrue result → IsEnclosed scope.now X self.now →
            Reducible scope.now X clause.now lit }
    {
        self.is_for(lit) && has_inner(scope, clause, lit, &self.known)
    }

    /// Keeps the walk right where a clause comes: one that leads elsewhere ends it.
    pub fn take(&mut self, scope: &Scope, clause: &[Lit])
        requires within { Within scope.now clause.now }
        ensures { (X : Matrix) → IsEnclosed scope.now X self.old →
            IsEnclosed scope.now (clause.now ∷ X) self.new }
    {
        if !bears(scope, clause, self.lit, &self.known) {
            self.known.truncate(0);
        }
    }

    /// Goes on from a clause, over so many literals at most; whether this told that the literal may leave the clause.
    pub fn extend(
        &mut self,
        view: &View,
        clause: &[Lit],
        lit: Lit,
        most: usize,
    ) -> Result<bool, NoMemory>
        requires within { Within view.now.prefix clause.now }
        requires held { IsIn lit clause.now }
        requires universal { is_universal view.now.prefix lit.var ≡ true }
        requires not_negated { IsIn (negation lit) clause.now → ⊥ }
        requires walk { IsEnclosed view.now.prefix (filled view.now.slots) self.old }
        ensures walk { IsEnclosed view.now.prefix (filled view.now.slots) self.new }
        ensures told { IfOk result (λ yes. IsTrue yes →
            Reducible view.now.prefix (filled view.now.slots) clause.now lit) }
    {
        self.turn_to(lit);
        match go_on(&mut self.known, view, clause, lit, most) {
            Ok(told) => Ok(told),
            Err(error) => {
                self.known.truncate(0);
                Err(error)
            }
        }
    }
}

/// The walks of the literals that were asked about last.
#[derive(Drop)]
pub struct RecentWalks {
    alloc: Global,
    walks: Vec<Walk>,
    // the one that was begun last
    last: usize,
}

impl Model for RecentWalks {
    ghost use Rattle.std.specs.Prelude.{List};
    ghost use Rattle.q_judge.specs.Walks.{WalkMap};

    ghost Value = { List WalkMap };

    ghost view = { λ w. w.walks.items };
}

impl RecentWalks {
    pub fn new(alloc: Global) -> RecentWalks
        ensures { result ≡ [] }
    {
        RecentWalks {
            alloc,
            walks: Vec::new(alloc),
            last: 0,
        }
    }

    /// Whether a walk, as far as it went, tells that the literal may leave the clause.
    pub fn tell(&self, scope: &Scope, clause: &[Lit], lit: Lit) -> bool
        requires within { Within scope.now clause.now }
        requires held { IsIn lit clause.now }
        requires universal { is_universal scope.now lit.var ≡ true }
        requires not_negated { IsIn (negation lit) clause.now → ⊥ }
        ensures { (X : Matrix) → IsTrue result → AreEnclosed scope.now X self.now →
            Reducible scope.now X clause.now lit }
    {
        for walk in &self.walks {
            if walk.tells(scope, clause, lit) {
                return true;
            }
        }
        false
    }

    /// Keeps the walks right where a clause comes.
    pub fn take(&mut self, scope: &Scope, clause: &[Lit])
        requires within { Within scope.now clause.now }
        ensures { (X : Matrix) → AreEnclosed scope.now X self.old →
            AreEnclosed scope.now (clause.now ∷ X) self.new }
    {
        for at in 0..self.walks.len() {
            self.walks[at].take(scope, clause);
        }
    }

    /// Goes on with the walk for the literal from a clause; whether this told that the literal may leave the clause. It
    /// goes over as many literals as there are clauses with the negation, so that it costs no more than to ask regions.
    pub fn extend(&mut self, view: &View, clause: &[Lit], lit: Lit) -> Result<bool, NoMemory>
        requires within { Within view.now.prefix clause.now }
        requires held { IsIn lit clause.now }
        requires universal { is_universal view.now.prefix lit.var ≡ true }
        requires not_negated { IsIn (negation lit) clause.now → ⊥ }
        requires walks { AreEnclosed view.now.prefix (filled view.now.slots) self.old }
        ensures walks { AreEnclosed view.now.prefix (filled view.now.slots) self.new }
        ensures told { IfOk result (λ yes. IsTrue yes →
            Reducible view.now.prefix (filled view.now.slots) clause.now lit) }
    {
        let at = self.choose(lit)?;
        let most = view.slots_of(lit.negated()).len();
        self.walks[at].extend(view, clause, lit, most)
    }

    // The place of a walk for the literal. Where there is none, and no room, it is that of the one that was begun first.
    fn choose(&mut self, lit: Lit) -> Result<usize, NoMemory>
        ensures place { IfOk result (λ at. at < length self.new) }
        ensures walks { (P : Prefix) (X : Matrix) → AreEnclosed P X self.old →
            AreEnclosed P X self.new }
    {
        if let Some(at) = self.place_of(lit) {
            return Ok(at);
        }
        if self.walks.len() < MOST {
            self.walks.push(Walk::new(self.alloc, lit))?;
        }
        self.last = next(self.last, self.walks.len());
        Ok(self.last)
    }

    fn place_of(&self, lit: Lit) -> Option<usize>
        ensures { (at : ℕ) → result ≡ Some at → at < length self.now }
    {
        for at in 0..self.walks.len() {
            if self.walks[at].is_for(lit) {
                return Some(at);
            }
        }
        None
    }
}

// The place after one, or the first.
fn next(at: usize, len: usize) -> usize
    requires { 0 < len }
    ensures { result < len }
{
    let after = at.saturating_add(1);
    if after < len { after } else { 0 }
}

// Goes on with a walk from a clause, over so many literals at most; whether it ended.
fn go_on(
    known: &mut Trail,
    view: &View,
    clause: &[Lit],
    u: Lit,
    most: usize,
) -> Result<bool, NoMemory>
    requires bound { is_bound view.now.prefix u.var ≡ true }
    requires within { Within view.now.prefix clause.now }
    requires shut { IsShut view.now.prefix (filled view.now.slots) u known.old }
    ensures shut { IfOk result (λ yes.
        IsShut view.now.prefix (filled view.now.slots) u known.new) }
    ensures inner { IfOk result (λ yes. IsTrue yes →
        HasInner view.now.prefix u known.new clause.now) }
{
    let begun = known.len();
    push_inner(known, view.scope(), clause, u)?;
    for head in begun..usize::MAX {
        if head >= known.len() {
            return Ok(true);
        }
        if head - begun >= most {
            known.truncate(begun);
            return Ok(false);
        }
        if !visit(view, known, head, u)? {
            known.truncate(0);
            return Ok(false);
        }
    }
    // a trail that long has no place in memory
    Err(NoMemory)
}

// Whether the literals of the clause that are inner to u are known.
fn has_inner(scope: &Scope, clause: &[Lit], u: Lit, known: &Trail) -> bool
    requires bound { is_bound scope.now u.var ≡ true }
    requires within { Within scope.now clause.now }
    ensures { IsTrue result → HasInner scope.now u known.now clause.now }
{
    for k in clause {
        if !is_met(scope, *k, u, known) {
            return false;
        }
    }
    true
}

// Whether the literal is known, or not inner to u.
fn is_met(scope: &Scope, k: Lit, u: Lit, known: &Trail) -> bool
    requires first { is_bound scope.now k.var ≡ true }
    requires second { is_bound scope.now u.var ≡ true }
    ensures { IsTrue result → is_inner scope.now u k ≡ true → Contains known.now k }
{
    known.has(k) || !lies_inside(scope, k, u)
}

// Whether the clause holds none of the negations of the known literals.
fn lacks_all(clause: &[Lit], known: &Trail) -> bool
    ensures { IsTrue result → (k : Literal) → Contains known.now k →
        IsIn (negation k) clause.now → ⊥ }
{
    for k in clause {
        if known.has(k.negated()) {
            return false;
        }
    }
    true
}

// Whether the clause holds u, or else not its negation and no further inner literal.
fn is_worked_off(scope: &Scope, clause: &[Lit], u: Lit, known: &Trail) -> bool
    requires bound { is_bound scope.now u.var ≡ true }
    requires within { Within scope.now clause.now }
    ensures { IsTrue result → IsWorkedOff scope.now u known.now clause.now }
{
    if holds(clause, u) {
        return true;
    }
    if holds(clause, u.negated()) {
        return false;
    }
    has_inner(scope, clause, u, known)
}

// Whether a clause leads nowhere else from the known literals, as long as u is universal.
fn bears(scope: &Scope, clause: &[Lit], u: Lit, known: &Trail) -> bool
    requires within { Within scope.now clause.now }
    ensures { IsTrue result → IsBorne scope.now u known.now clause.now }
{
    if !scope.is_universal(u.var()) {
        return true;
    }
    if lacks_all(clause, known) {
        return true;
    }
    is_worked_off(scope, clause, u, known)
}
