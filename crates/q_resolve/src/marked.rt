//! Literals with a mark for each, so that it costs one look whether one of them is there.
ghost use Rattle.std.specs.Prelude.{◌≡◌, ◌↔◌, ◌++◌, ◌∷◌, [], OnOk, OnErr, false, IsTrue};
ghost use Rattle.q_logic.specs.Prelude.{has, IsIn};
ghost use Rattle.q_resolve.specs.Marks.{IsMarked};

use q_logic::{Lit, NoMemory};
use q_pages::ByNumber;
use std::alloc::Global;
use std::marker::Model;

/// Marked literals, in the order in which they came.
#[derive(Drop)]
pub struct Marked {
    lits: Vec<Lit>,
    marks: ByNumber<bool>,
}

impl Model for Marked {
    ghost use Rattle.std.specs.Prelude.{◌≡◌, List, false};
    ghost use Rattle.q_logic.specs.Prelude.{Literal};
    ghost use Rattle.q_resolve.specs.Marks.{IsMarked};

    ghost Value = { List Literal };

    ghost view = { λ q. q.lits.items };

    ghost invariant = { λ q. IsMarked q.marks q.lits.items × (q.marks.far.none ≡ false) };
}

impl Marked {
    pub fn new(alloc: Global) -> Marked
        ensures { result ≡ [] }
    {
        Marked {
            lits: Vec::new(alloc),
            marks: ByNumber::new(alloc, false),
        }
    }

    fn is_marked(&self, lit: Lit) -> bool
        ensures { IsTrue result ↔ IsIn lit self.now }
    {
        self.marks.get(lit.index())
    }

    /// Whether the literal is marked.
    pub fn has(&self, lit: Lit) -> bool
        ensures { result ≡ has lit self.now }
    {
        self.is_marked(lit)
    }

    pub fn push(&mut self, lit: Lit) -> Result<(), NoMemory>
        ensures ok { OnOk result (self.new ≡ self.old ++ lit ∷ []) }
        ensures err { OnErr result (self.new ≡ self.old) }
    {
        self.lits.reserve(1)?;
        self.marks.put(lit.index(), true)?;
        self.lits.push_reserved(lit);
        Ok(())
    }

    pub fn as_slice(&self) -> &[Lit]
        ensures { result.now ≡ self.now }
    {
        &self.lits
    }

    /// Takes all marks away, in as many steps as there are literals.
    pub fn clear(&mut self)
        ensures { self.new ≡ [] }
    {
        unmark(&mut self.marks, &self.lits);
        self.lits.clear();
    }
}

/// Marks these literals and no others.
pub fn mark(marked: &mut Marked, lits: &[Lit]) -> Result<(), NoMemory>
    ensures { OnOk result (marked.new ≡ lits.now) }
{
    marked.clear();
    for lit in lits {
        marked.push(*lit)?;
    }
    Ok(())
}

// Takes the marks of the literals away, which are all that there are. A literal may stand there twice.
fn unmark(marks: &mut ByNumber<bool>, lits: &[Lit])
    requires marked { IsMarked marks.old lits.now }
    requires none { marks.old.far.none ≡ false }
    ensures marked { IsMarked marks.new [] }
    ensures none { marks.new.far.none ≡ false }
{
    for lit in lits {
        if marks.get(lit.index()) {
            marks.clear(lit.index());
        }
    }
}
