// The literals that a walk has met, in their order, and a mark for each, so that a walk over a graph of literals is in proportion
// to what it meets.
ghost use Rattle.std.specs.Prelude.{◌≡◌, ◌↔◌, ◌<◌, ◌++◌, ◌∷◌, [], ℕ, length, slice_get, OnOk, OnErr, Some, IsTrue, true, false};
ghost use Rattle.q_logic.specs.Prelude.{pack, IsIn};
ghost use Rattle.q_sparse.specs.Rows.{item_at};
ghost use Rattle.q_rule.specs.Marks.{IsMarked};

use q_logic::{Lit, NoMemory};
use q_sparse::Sparse;
use std::alloc::Global;
use std::marker::Model;

// A longer row does not double.
const MOST: usize = 4_294_966_272;

/// The literals that a walk has met, in the order in which it met them.
#[derive(Drop)]
pub struct Queue {
    lits: Vec<Lit>,
    marks: Sparse<bool>,
}

impl Model for Queue {
    ghost use Rattle.std.specs.Prelude.{◌≡◌, List, false};
    ghost use Rattle.q_logic.specs.Prelude.{Literal};
    ghost use Rattle.q_rule.specs.Marks.{IsMarked};

    ghost Value = { List Literal };

    ghost view = { λ q. q.lits.items };

    ghost invariant = { λ q. IsMarked q.marks.items q.lits.items × (q.marks.none ≡ false) };
}

impl Queue {
    pub fn new(alloc: Global) -> Queue
        ensures { result ≡ [] }
    {
        Queue {
            lits: Vec::new(alloc),
            marks: Sparse::new(alloc, false),
        }
    }

    pub fn len(&self) -> usize
        ensures { result ≡ length self.now }
    {
        self.lits.len()
    }

    pub fn at(&self, place: usize) -> Lit
        requires { place < length self.now }
        ensures { slice_get self.now place ≡ Some result }
    {
        self.lits[place]
    }

    pub fn has(&self, lit: Lit) -> bool
        ensures { IsTrue result ↔ IsIn lit self.now }
    {
        self.marks.get(lit.index())
    }

    pub fn push(&mut self, lit: Lit) -> Result<(), NoMemory>
        ensures ok { OnOk result (self.new ≡ self.old ++ lit ∷ []) }
        ensures err { OnErr result (self.new ≡ self.old) }
    {
        make_room(&mut self.marks, lit)?;
        self.lits.push(lit)?;
        self.marks.set(lit.index(), true);
        Ok(())
    }

    /// Takes all literals out. It costs what they are, not the row of marks.
    pub fn clear(&mut self)
        ensures { self.new ≡ [] }
    {
        unmark(&mut self.marks, &self.lits);
        self.lits.clear();
    }
}

// A place for the mark of a literal. The row doubles at least, since that takes no memory.
fn make_room(marks: &mut Sparse<bool>, lit: Lit) -> Result<(), NoMemory>
    ensures room { OnOk result (pack lit < length marks.new.items) }
    ensures same { (k : ℕ) → item_at marks.new k ≡ item_at marks.old k }
    ensures none { marks.new.none ≡ marks.old.none }
{
    let end = lit.index() + 1;
    if marks.len() < end {
        marks.grow(end.max(marks.len().saturating_mul(2).min(MOST)))?;
    }
    Ok(())
}

// Takes the marks of the literals away, which are all that there are.
fn unmark(marks: &mut Sparse<bool>, lits: &[Lit])
    requires { IsMarked marks.old.items lits.now }
    ensures marks { IsMarked marks.new.items [] }
    ensures none { marks.new.none ≡ marks.old.none }
{
    for lit in lits {
        marks.set(lit.index(), false);
    }
}
