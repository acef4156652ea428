//! Forests of several blocks.
ghost use Rattle.std.specs.Prelude.{◌≡◌, [], true, IfOk, IsTrue};
ghost use Rattle.q_logic.specs.Prelude.{IsIn, is_bound};
ghost use Rattle.q_kernel.specs.Prelude.{slots};
ghost use Rattle.q_reduce.specs.Paths.{Leads, AreSides};
ghost use Rattle.q_reduce.specs.Forests.{ForestMap, AreForestsOf};

use crate::forest::{Forest, is_outer};
use crate::sides::Sides;
use q_kernel::{ClauseId, Kernel};
use q_logic::{Lit, NoMemory};
use q_rule::{Queue, is_universal};
use std::alloc::Global;
use std::marker::Model;

// So many forests are kept.
const FORESTS: usize = 8;

// Where at most so many clauses hold a literal, each is asked whether it holds up a path.
const FEW: u32 = 16;

// At least so many edges of a path are climbed.
const STEPS: usize = 64;

// A walk that looks at so many times as many clauses costs more than a longer path.
const DEAR: usize = 16;

/// Forests, at most two of a block: what holds up a path in the one may be no part of the other. The first two are for the
/// innermost universal block, since they serve for all; where they tell too little, the blocks that walks asked about get their own.
#[derive(Drop)]
pub struct Forests {
    alloc: Global,
    forests: Vec<Forest>,
    sides: Sides,
    // so many edges of a path are climbed
    steps: usize,
    // so many clauses were looked at by walks since a forest was made
    looked: usize,
}

impl Model for Forests {
    ghost use Rattle.std.specs.Prelude.{List};
    ghost use Rattle.q_reduce.specs.Forests.{ForestMap};

    ghost Value = { List ForestMap };

    ghost view = { λ f. f.forests.items };
}

impl Forests {
    pub(crate) fn new(alloc: Global) -> Forests
        ensures { result ≡ [] }
    {
        Forests {
            alloc,
            forests: Vec::new(alloc),
            sides: Sides::new(alloc),
            steps: STEPS,
            looked: 0,
        }
    }

    /// Forgets all forests.
    pub(crate) fn forget(&mut self)
        ensures { self.new ≡ [] }
    {
        self.forests.clear();
        self.looked = 0;
    }

    /// Whether a forest shows that a literal has to stay in its clause.
    pub(crate) fn keep(&mut self, kernel: &Kernel, c: ClauseId, lit: Lit) -> Result<bool, NoMemory>
        requires bound { is_bound kernel.now.prefix lit.var ≡ true }
        requires right { AreForestsOf kernel.now self.old }
        ensures leads { IfOk result (λ yes.
            IsTrue yes → Leads kernel.now.prefix (slots kernel.now) lit c) }
        ensures same { self.new ≡ self.old }
    {
        if !self.knows(kernel, lit.var()) {
            return Ok(false);
        }
        if kernel.count(lit) > FEW {
            return Ok(self.climb(kernel, c, lit));
        }
        self.sides.begin(kernel, c, lit)?;
        if connect(&self.forests, &self.sides, kernel, c, lit) {
            return Ok(true);
        }
        self.sides.widen(kernel, lit)?;
        Ok(connect(&self.forests, &self.sides, kernel, c, lit))
    }

    // Whether a forest has a path of few edges.
    fn climb(&self, kernel: &Kernel, c: ClauseId, lit: Lit) -> bool
        requires right { AreForestsOf kernel.now self.now }
        ensures { IsTrue result → Leads kernel.now.prefix (slots kernel.now) lit c }
    {
        for forest in &self.forests {
            if forest.climbs(kernel, c, lit, self.steps) {
                return true;
            }
        }
        false
    }

    /// Learns of a walk that was made since no path told enough, and looked at so many clauses: paths may be the longer the more
    /// such walks cost.
    pub(crate) fn adapt(&mut self, looks: usize)
        ensures { self.new ≡ self.old }
    {
        if looks / DEAR > self.steps {
            self.steps = self.steps.saturating_mul(2);
        } else if looks < self.steps {
            self.steps = STEPS.max(self.steps / 2);
        }
    }

    /// Learns of a walk from a clause that looked at so many clauses and found that the literal has to stay. A forest is made
    /// for its block once such walks have cost more than that does. The queue may hold anything before and after.
    pub(crate) fn note(
        &mut self,
        kernel: &Kernel,
        queue: &mut Queue,
        c: ClauseId,
        var: u32,
        looks: usize,
    ) -> Result<(), NoMemory>
        requires bound { is_bound kernel.now.prefix var ≡ true }
        requires right { AreForestsOf kernel.now self.old }
        ensures { AreForestsOf kernel.now self.new }
    {
        self.looked = self.looked.saturating_add(looks);
        if self.looked <= patience(kernel, self.knows(kernel, var)) {
            return Ok(());
        }
        self.looked = 0;
        let block = self.block_to_make(kernel, var);
        let mut forest = self.free(self.worn(kernel, block));
        if forest.build(kernel, queue, c, block)? {
            self.forests.push(forest)?;
        }
        Ok(())
    }

    // Whether there is a forest that serves for a variable.
    fn knows(&self, kernel: &Kernel, var: u32) -> bool {
        for forest in &self.forests {
            if forest.serves(kernel, var) {
                return true;
            }
        }
        false
    }

    // A variable of the block for which a forest is to be made next.
    fn block_to_make(&self, kernel: &Kernel, var: u32) -> u32
        requires bound { is_bound kernel.now.prefix var ≡ true }
        ensures { is_bound kernel.now.prefix result ≡ true }
    {
        let inner = innermost(kernel, var);
        if self.worn(kernel, inner).is_some() {
            var
        } else {
            inner
        }
    }

    // The place of the older forest for the block of a variable, where there are two.
    fn worn(&self, kernel: &Kernel, var: u32) -> Option<usize> {
        let mut older = None;
        for (place, forest) in self.forests.iter().enumerate() {
            if forest.is_for(kernel, var) {
                if older.is_some() {
                    return older;
                }
                older = Some(place);
            }
        }
        None
    }

    // A forest to be made: the one at a place, or a new one, or the oldest.
    fn free(&mut self, place: Option<usize>) -> Forest
        ensures { (F : ForestMap) → IsIn F self.new → IsIn F self.old }
    {
        if let Some(place) = place {
            if place < self.forests.len() {
                return self.forests.remove(place);
            }
        }
        if self.forests.len() >= FORESTS {
            return self.forests.remove(0);
        }
        Forest::new(self.alloc)
    }
}

// Whether a forest has a path between the sides.
fn connect(forests: &[Forest], sides: &Sides, kernel: &Kernel, c: ClauseId, lit: Lit) -> bool
    requires right { AreForestsOf kernel.now forests.now }
    requires sides { AreSides kernel.now.prefix (slots kernel.now) c lit sides.now.starts.items
        sides.now.ends.items }
    ensures { IsTrue result → Leads kernel.now.prefix (slots kernel.now) lit c }
{
    for forest in forests {
        if forest.tells(kernel, c, lit, sides) {
            return true;
        }
    }
    false
}

// A universal variable of the innermost block.
fn innermost(kernel: &Kernel, var: u32) -> u32
    requires bound { is_bound kernel.now.prefix var ≡ true }
    ensures { is_bound kernel.now.prefix result ≡ true }
{
    let mut inner = var;
    let mut at = kernel.prefix().after(var);
    for _ in 0..kernel.prefix().len() {
        let Some(bound) = at else { return inner };
        inner = inner_of(kernel, inner, bound.var);
        at = kernel.prefix().after(bound.var);
    }
    inner
}

// The second variable, if it is a universal one of the block of the first or inside that; else the first.
fn inner_of(kernel: &Kernel, first: u32, second: u32) -> u32
    requires bound { is_bound kernel.now.prefix first ≡ true }
    ensures { is_bound kernel.now.prefix result ≡ true }
{
    if is_universal(kernel, second) && is_outer(kernel, first, second) {
        return second;
    }
    first
}

// So many clauses may be looked at before a forest is made. The first time it is less, for without one each walk is a long one.
fn patience(kernel: &Kernel, is_made: bool) -> usize {
    kernel.sound();
    let all = kernel.size() + kernel.greatest_var() as usize;
    if is_made { all } else { all / 8 }
}
