//! Rows of literals for variables of a prefix, which are told by their depth. Where a row has nothing, the circuit is the
//! constant 0. The depths fall, so that a row grows outwards at its end.
ghost use Rattle.std.specs.Prelude.{◌≡◌, ◌++◌, ◌∷◌, [], ◌≤◌, suc, drop, length, OnOk};
ghost use Rattle.q_solve.specs.Picks.{AreBelow, IsRow, IsTaken, top_of};

use q_logic::NoMemory;
use std::alloc::Global;
use std::marker::Model;

/// The literal of a variable, up to which so many variables stand in the prefix, itself included.
#[derive(Clone, Copy, Debug, PartialEq, Eq)]
pub struct Pick {
    pub depth: usize,
    pub lit: u64,
}

/// A row of literals.
#[derive(Drop)]
pub struct Picks {
    row: Vec<Pick>,
}

impl Model for Picks {
    ghost use Rattle.std.specs.Prelude.{List};
    ghost use Rattle.q_solve.specs.declared.picks.Pick.{Pick};

    ghost Value = { List Pick };

    ghost view = { λ p. p.row.items };
}

impl Picks {
    pub fn new(alloc: Global) -> Picks
        ensures { result ≡ [] }
    {
        Picks {
            row: Vec::new(alloc),
        }
    }

    pub fn push(&mut self, pick: Pick) -> Result<(), NoMemory>
        ensures ok { OnOk result (self.new ≡ self.old ++ pick ∷ []) }
    {
        self.row.push(pick)?;
        Ok(())
    }

    pub fn clear(&mut self)
        ensures { self.new ≡ [] }
    {
        self.row.clear();
    }

    pub fn as_slice(&self) -> &[Pick]
        ensures { result.now ≡ self.now }
    {
        &self.row
    }
}

/// What a row has at a depth, and where its rest begins.
#[derive(Clone, Copy, Debug, PartialEq, Eq)]
pub struct Taken {
    pub lit: u64,
    pub next: usize,
}

/// The greatest depth of the row from `at` on, or 0.
pub fn top(row: &[Pick], at: usize) -> usize
    ensures { result ≡ top_of (drop at row.now) }
{
    if at < row.len() { row[at].depth } else { 0 }
}

/// Takes a depth from the row, from `at` on. Nothing deeper may stand there.
pub fn take(row: &[Pick], at: usize, depth: usize) -> Taken
    requires row { IsRow 0 (drop at row.now) }
    requires depth { AreBelow (suc depth) (drop at row.now) }
    ensures { IsTaken (drop at row.now) (drop result.next row.now) depth result.lit }
{
    if at >= row.len() || row[at].depth != depth {
        return Taken { lit: 0, next: at };
    }
    Taken {
        lit: row[at].lit,
        next: at + 1,
    }
}
