//! A forest of clauses, which tells of most universal literals that they have to stay.
//!
//! Two clauses are joined where one holds an existential literal that is inner to a universal, and the other its negation. One
//! pass over the clauses, breadth first, gives each clause a parent among those that are joined to it. A literal l of a clause c
//! has to stay where the path in the forest from c to a clause with the negation of l has no other clause with l. All edges are
//! verified once, when the forest is made, and are right for this kernel alone. Where few clauses hold l, each is asked whether
//! it stands on the path (`ancestors.rt`); else the path is climbed edge by edge (`paths.rt`).
//!
//! What is inner to a universal is inner to all that are outer to it. So a forest for one block serves for all outer blocks; it only
//! has fewer edges than one of their own.
ghost use Rattle.std.specs.Prelude.{◌≡◌, ◌⊎◌, ◌+◌, true, IfOk, IsTrue};
ghost use Rattle.q_logic.specs.Prelude.{is_bound, outer_or_same};
ghost use Rattle.q_kernel.specs.Prelude.{slots};
ghost use Rattle.q_reduce.specs.Paths.{AreJoined};
ghost use Rattle.q_reduce.specs.Forests.{place_of, depth_of, parent_of, jump_of, IsLevel, IsEdge, IsForest};

use crate::place::Place;
use q_kernel::{ClauseId, Kernel};
use q_logic::{Lit, NoMemory, holds};
use q_rule::{Queue, is_inner};
use std::alloc::Global;
use std::marker::Model;

// Nothing hangs below longer clauses: a look at one costs its length.
const LONGEST: usize = 64;

/// A forest for the universal variables of one block.
#[derive(Drop)]
pub struct Forest {
    block: u32,
    places: Vec<Place>,
    // the clauses of a tree, in the order in which they came to it
    order: Vec<ClauseId>,
}

impl Model for Forest {
    ghost use Rattle.q_reduce.specs.Forests.{ForestMap};

    ghost Value = { ForestMap };

    ghost view = { λ f. record { block = f.block; places = f.places.items } };
}

impl Forest {
    pub(crate) fn new(alloc: Global) -> Forest {
        Forest {
            block: 0,
            places: Vec::new(alloc),
            order: Vec::new(alloc),
        }
    }

    /// Whether the forest serves for a variable: it is for its block, or for one inside that.
    pub(crate) fn serves(&self, kernel: &Kernel, var: u32) -> bool
        ensures { IsTrue result → outer_or_same kernel.now.prefix var self.now.block ≡ true }
    {
        is_outer(kernel, var, self.block)
    }

    /// Whether the forest is for the block of a variable.
    pub(crate) fn is_for(&self, kernel: &Kernel, var: u32) -> bool {
        self.serves(kernel, var) && is_outer(kernel, self.block, var)
    }

    pub(crate) fn place(&self, c: ClauseId) -> Place
        ensures { result ≡ place_of self.now.places c }
    {
        self.places
            .get(c as usize)
            .copied()
            .unwrap_or(Place::Outside)
    }

    pub(crate) fn depth(&self, c: ClauseId) -> u32
        ensures { result ≡ depth_of self.now.places c }
    {
        match self.place(c) {
            Place::Below { depth, .. } => depth,
            _ => 0,
        }
    }

    /// The parent of a clause; the clause itself where it has none.
    pub(crate) fn parent(&self, c: ClauseId) -> ClauseId
        ensures { result ≡ parent_of self.now.places c }
    {
        match self.place(c) {
            Place::Below { parent, .. } => parent,
            _ => c,
        }
    }

    pub(crate) fn jump(&self, c: ClauseId) -> ClauseId
        ensures { result ≡ jump_of self.now.places c }
    {
        match self.place(c) {
            Place::Below { jump, .. } => jump,
            _ => c,
        }
    }

    /// Makes the forest for the block of a universal literal, and says whether it is right. A clause that is given is a root.
    /// The queue may hold anything before and after.
    pub(crate) fn build(
        &mut self,
        kernel: &Kernel,
        queue: &mut Queue,
        c: ClauseId,
        u: u32,
    ) -> Result<bool, NoMemory>
        requires bound { is_bound kernel.now.prefix u ≡ true }
        ensures { IfOk result (λ yes.
            IsTrue yes → IsForest kernel.now.prefix (slots kernel.now) self.new) }
    {
        self.places.clear();
        queue.clear();
        self.grow(kernel, queue, c, u)?;
        self.grow_all(kernel, queue, u)?;
        self.block = u;
        Ok(self.is_right(kernel))
    }

    fn grow_all(&mut self, kernel: &Kernel, queue: &mut Queue, u: u32) -> Result<(), NoMemory>
        requires bound { is_bound kernel.now.prefix u ≡ true }
    {
        for id in kernel.ids() {
            self.grow(kernel, queue, id, u)?;
        }
        Ok(())
    }

    // A tree from a root, unless the clause stands in one.
    fn grow(
        &mut self,
        kernel: &Kernel,
        queue: &mut Queue,
        root: ClauseId,
        u: u32,
    ) -> Result<(), NoMemory>
        requires bound { is_bound kernel.now.prefix u ≡ true }
    {
        self.order.clear();
        self.hang(root, &Place::Root)?;
        for head in 0..usize::MAX {
            let Some(c) = self.order.get(head).copied() else {
                return Ok(());
            };
            self.spread(kernel, queue, c, u)?;
        }
        Ok(())
    }

    // Gives a clause a place, unless it has one.
    fn hang(&mut self, c: ClauseId, place: &Place) -> Result<(), NoMemory> {
        if !matches!(self.place(c), Place::Outside) {
            return Ok(());
        }
        let index = c as usize;
        if self.places.len() <= index {
            self.places.resize(index + 1, Place::Outside)?;
        }
        self.places[index] = *place;
        self.order.push(c)?;
        Ok(())
    }

    // Hangs the clauses below one that are joined to it by a literal that the queue has not.
    fn spread(
        &mut self,
        kernel: &Kernel,
        queue: &mut Queue,
        c: ClauseId,
        u: u32,
    ) -> Result<(), NoMemory>
        requires bound { is_bound kernel.now.prefix u ≡ true }
    {
        if !kernel.live(c) {
            return Ok(());
        }
        let clause = kernel.lits(c);
        if clause.len() > LONGEST {
            return Ok(());
        }
        for k in clause {
            if is_inner(kernel, k.var(), u) && !queue.has(*k) {
                queue.push(*k)?;
                self.hang_all(kernel, c, k.negated())?;
            }
        }
        Ok(())
    }

    // Hangs all clauses with a literal below one that holds its negation.
    fn hang_all(&mut self, kernel: &Kernel, parent: ClauseId, lit: Lit) -> Result<(), NoMemory> {
        let place = self.place_below(parent, lit);
        for id in kernel.holders(lit) {
            self.hang(id, &place)?;
        }
        Ok(())
    }

    // The place of a clause below a parent. Where the last two jumps on the way up are of one length, they become one jump.
    fn place_below(&self, parent: ClauseId, lit: Lit) -> Place {
        let depth = self.depth(parent);
        let near = self.jump(parent);
        let far = self.jump(near);
        let level = self.depth(near);
        let even = depth.saturating_sub(level) == level.saturating_sub(self.depth(far));
        Place::Below {
            parent,
            lit,
            depth: depth.saturating_add(1),
            jump: if even { far } else { parent },
        }
    }

    // Whether all edges, depths and jumps are right.
    fn is_right(&self, kernel: &Kernel) -> bool
        requires { is_bound kernel.now.prefix self.now.block ≡ true }
        ensures { IsTrue result → IsForest kernel.now.prefix (slots kernel.now) self.now }
    {
        for index in 0..self.places.len() {
            if !self.fits(kernel, index) {
                return false;
            }
        }
        true
    }

    fn fits(&self, kernel: &Kernel, index: usize) -> bool
        requires { is_bound kernel.now.prefix self.now.block ≡ true }
        ensures edge { IsTrue result
            → IsEdge kernel.now.prefix (slots kernel.now) self.now.block index
            (place_of self.now.places index) }
        ensures level { IsTrue result → IsLevel self.now.places (place_of self.now.places index) }
    {
        let Ok(c) = u32::try_from(index) else {
            return false;
        };
        match self.place(c) {
            Place::Below {
                parent,
                lit,
                depth,
                jump,
            } => {
                self.is_level(parent, depth, jump) && is_edge(kernel, c, lit, parent, self.block)
            }
            _ => true,
        }
    }

    fn is_level(&self, parent: ClauseId, depth: u32, jump: ClauseId) -> bool
        ensures depth { IsTrue result → depth ≡ depth_of self.now.places parent + 1 }
        ensures jump { IsTrue result
            → (jump ≡ parent) ⊎ (jump ≡ jump_of self.now.places (jump_of self.now.places parent)) }
    {
        depth > 0
            && depth - 1 == self.depth(parent)
            && (jump == parent || jump == self.jump(self.jump(parent)))
    }
}

// Whether c holds a literal that is inner to u, and d its negation.
fn is_edge(kernel: &Kernel, c: ClauseId, lit: Lit, d: ClauseId, u: u32) -> bool
    requires { is_bound kernel.now.prefix u ≡ true }
    ensures { IsTrue result → AreJoined kernel.now.prefix (slots kernel.now) u c d }
{
    if !is_inner(kernel, lit.var(), u) || !kernel.live(c) || !kernel.live(d) {
        return false;
    }
    holds(kernel.lits(c), lit) && holds(kernel.lits(d), lit.negated())
}

/// Whether a stands before b in the prefix, or in its block.
#[inline]
pub(crate) fn is_outer(kernel: &Kernel, a: u32, b: u32) -> bool
    ensures { IsTrue result → outer_or_same kernel.now.prefix a b ≡ true }
{
    let prefix = kernel.prefix();
    prefix.contains(a) && prefix.contains(b) && prefix.outer_or_same(a, b)
}
