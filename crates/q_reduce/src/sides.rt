//! The clauses between which paths are looked for.
//!
//! What holds up the path in a forest between two clauses mostly stands beside one of them. Then a path leads from a clause
//! beside the first one to a clause beside the other.
//!
//! It costs the same for a long clause as for a short one: of its literals no more are gone through once enough clauses were
//! found, and whether it holds the literal that is asked about is told by that literal's list where this is shorter.
ghost use Rattle.std.specs.Prelude.{◌≡◌, ◌⊎◌, ℕ, true, Some, OnOk, IsTrue};
ghost use Rattle.q_logic.specs.Prelude.{Clause, IsIn, is_bound, slot};
ghost use Rattle.q_kernel.specs.Prelude.{slots, HoldsLiteral};
ghost use Rattle.q_reduce.specs.Paths.{AreJoined, Lacks, IsNear, AreSides};

use q_kernel::{ClauseId, Kernel};
use q_logic::{Lit, NoMemory, holds};
use q_rule::is_inner;
use std::alloc::Global;

// So many clauses with the negation of a literal are tried.
const TRIES: usize = 4;

// So many clauses are tried around the clause that is asked about, and around those with the negation.
const STARTS: usize = 6;

const ENDS: usize = 16;

// So many clauses with one literal are taken beside a clause.
const BESIDE: usize = 4;

// So many literals of a clause are gone through.
const LITERALS: usize = 64;

/// Clauses from which a path may start, and clauses at which it may end.
#[derive(Drop)]
pub struct Sides {
    pub(crate) starts: Vec<ClauseId>,
    pub(crate) ends: Vec<ClauseId>,
}

impl Sides {
    pub(crate) fn new(alloc: Global) -> Sides {
        Sides {
            starts: Vec::new(alloc),
            ends: Vec::new(alloc),
        }
    }

    /// The clause itself, and some with the negation of its literal.
    pub(crate) fn begin(&mut self, kernel: &Kernel, c: ClauseId, lit: Lit) -> Result<(), NoMemory>
        ensures { OnOk result (AreSides kernel.now.prefix (slots kernel.now) c lit
            self.new.starts.items self.new.ends.items) }
    {
        self.starts.clear();
        self.starts.push(c)?;
        self.ends.clear();
        put_free(kernel, lit.negated(), lit, TRIES, &mut self.ends)?;
        Ok(())
    }

    /// And those around them.
    pub(crate) fn widen(&mut self, kernel: &Kernel, lit: Lit) -> Result<(), NoMemory>
        requires { is_bound kernel.now.prefix lit.var ≡ true }
        ensures starts { OnOk result
            ((y : ℕ) → IsIn y self.new.starts.items
            → IsNear kernel.now.prefix (slots kernel.now) lit self.old.starts.items y) }
        ensures ends { OnOk result
            ((y : ℕ) → IsIn y self.new.ends.items
            → IsNear kernel.now.prefix (slots kernel.now) lit self.old.ends.items y) }
    {
        put_around(kernel, lit, STARTS, &mut self.starts)?;
        put_around(kernel, lit, ENDS, &mut self.ends)?;
        Ok(())
    }
}

// Puts clauses around those of a list behind it, until it has so many.
fn put_around(
    kernel: &Kernel,
    u: Lit,
    most: usize,
    list: &mut Vec<ClauseId>,
) -> Result<(), NoMemory>
    requires { is_bound kernel.now.prefix u.var ≡ true }
    ensures { OnOk result ((y : ℕ) → IsIn y list.new.items
        → IsNear kernel.now.prefix (slots kernel.now) u list.old.items y) }
{
    for at in 0..most {
        if at >= list.len() || list.len() >= most {
            return Ok(());
        }
        let c = list[at];
        put_beside(kernel, c, u, most, list)?;
    }
    Ok(())
}

// Puts clauses that are joined to one, and lack u, behind a list, until it has so many.
fn put_beside(
    kernel: &Kernel,
    c: ClauseId,
    u: Lit,
    most: usize,
    list: &mut Vec<ClauseId>,
) -> Result<(), NoMemory>
    requires { is_bound kernel.now.prefix u.var ≡ true }
    ensures { OnOk result ((y : ℕ) → IsIn y list.new.items
        → IsIn y list.old.items ⊎ (AreJoined kernel.now.prefix (slots kernel.now) u.var c y
        × Lacks (slots kernel.now) y u)) }
{
    if !kernel.live(c) {
        return Ok(());
    }
    let mut tries = 0;
    for k in kernel.lits(c) {
        if tries >= LITERALS || list.len() >= most {
            return Ok(());
        }
        tries += 1;
        if is_inner(kernel, k.var(), u.var()) {
            put_free(kernel, k.negated(), u, BESIDE, list)?;
        }
    }
    Ok(())
}

// Puts clauses with a literal that lack u behind a list.
fn put_free(
    kernel: &Kernel,
    lit: Lit,
    u: Lit,
    most: usize,
    list: &mut Vec<ClauseId>,
) -> Result<(), NoMemory>
    ensures { OnOk result ((y : ℕ) → IsIn y list.new.items
        → IsIn y list.old.items ⊎ (HoldsLiteral kernel.now y lit × Lacks (slots kernel.now) y u)) }
{
    let mut tries = 0;
    for d in kernel.holders(lit) {
        if tries >= most {
            return Ok(());
        }
        tries += 1;
        if lacks(kernel, d, u) && !list.contains(&d) {
            list.push(d)?;
        }
    }
    Ok(())
}

// Whether a clause does not hold a literal. It costs the shorter one of the clause and the literal's list.
fn lacks(kernel: &Kernel, d: ClauseId, u: Lit) -> bool
    requires { (D : Clause) × (slot (slots kernel.now) d ≡ Some D) }
    ensures { IsTrue result → Lacks (slots kernel.now) d u }
{
    let clause = kernel.lits(d);
    if clause.len() <= kernel.count(u) as usize {
        return !holds(clause, u);
    }
    for x in kernel.holders(u) {
        if x == d {
            return false;
        }
    }
    true
}
