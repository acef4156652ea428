//! The cheap rules, which are taken to their end before any other: unit clauses, pure literals, and universal literals of a
//! clause without an existential literal inner to them.

use crate::lists::lits_of;
use crate::marked::Marked;
use q_kernel::{ClauseId, Kernel};
use q_logic::{Lit, NoMemory, holds};
use q_reduce::Target;
use q_rule::{is_existential, is_inner, is_universal};
use std::alloc::Global;

#[derive(Drop)]
pub(crate) struct Plain {
    units: Vec<ClauseId>,
    pures: Vec<Lit>,
    shorter: Marked,
}

impl Plain {
    /// It takes no memory.
    pub(crate) fn new(alloc: Global) -> Plain {
        Plain {
            units: Vec::new(alloc),
            pures: Vec::new(alloc),
            shorter: Marked::new(alloc),
        }
    }

    /// The clause came, or lost a literal.
    pub(crate) fn touch(&mut self, kernel: &Kernel, c: ClauseId) -> Result<(), NoMemory> {
        if lits_of(kernel, c).len() == 1 {
            self.units.push(c)?;
        }
        self.shorter.push(c)
    }

    /// The literal may have become pure.
    pub(crate) fn suspect(&mut self, kernel: &Kernel, lit: Lit) -> Result<(), NoMemory> {
        if is_pure(kernel, lit) {
            self.pures.push(lit)?;
        }
        Ok(())
    }

    /// A target that applies.
    pub(crate) fn next(&mut self, kernel: &Kernel) -> Option<Target> {
        let unit = self.next_unit(kernel);
        if unit.is_some() {
            return unit;
        }
        let pure = self.next_pure(kernel);
        if pure.is_some() {
            return pure;
        }
        self.next_cut(kernel)
    }

    fn next_unit(&mut self, kernel: &Kernel) -> Option<Target> {
        for _ in 0..self.units.len() {
            let c = self.units.pop()?;
            let found = unit_target(kernel, c);
            if found.is_some() {
                return found;
            }
        }
        None
    }

    fn next_pure(&mut self, kernel: &Kernel) -> Option<Target> {
        for _ in 0..self.pures.len() {
            let l = self.pures.pop()?;
            if is_pure(kernel, l) {
                return Some(Target::Pure { l });
            }
        }
        None
    }

    fn next_cut(&mut self, kernel: &Kernel) -> Option<Target> {
        for _ in 0..self.shorter.len() {
            let c = self.shorter.pop()?;
            let found = innermost_cut(kernel, c);
            if found.is_some() {
                return found;
            }
        }
        None
    }
}

// Whether a literal occurs and its negation does not.
fn is_pure(kernel: &Kernel, lit: Lit) -> bool {
    kernel.count(lit) > 0 && kernel.count(lit.negated()) == 0
}

// The target of a unit clause. Where its literal is universal, the literal goes.
fn unit_target(kernel: &Kernel, c: ClauseId) -> Option<Target> {
    let clause = lits_of(kernel, c);
    if clause.len() != 1 {
        return None;
    }
    let l = clause[0];
    if is_existential(kernel, l.var()) {
        Some(Target::Unit { c })
    } else {
        Some(Target::Cut { c, l })
    }
}

// A universal literal to which no existential literal of its clause is inner.
fn innermost_cut(kernel: &Kernel, c: ClauseId) -> Option<Target> {
    let clause = lits_of(kernel, c);
    for l in clause {
        if is_universal(kernel, l.var()) && is_innermost(kernel, clause, *l) {
            return Some(Target::Cut { c, l: *l });
        }
    }
    None
}

// Whether a literal can leave a clause by plain universal reduction.
fn is_innermost(kernel: &Kernel, clause: &[Lit], l: Lit) -> bool {
    kernel.prefix().contains(l.var())
        && !holds(clause, l.negated())
        && !has_inner(kernel, clause, l)
}

/// Whether an existential literal of a clause is inner to a literal of the prefix.
#[inline]
pub(crate) fn has_inner(kernel: &Kernel, clause: &[Lit], l: Lit) -> bool {
    if !kernel.prefix().contains(l.var()) {
        return false;
    }
    for k in clause {
        if is_inner(kernel, k.var(), l.var()) {
            return true;
        }
    }
    false
}
