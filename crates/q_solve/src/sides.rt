//! For each variable, by its place in the prefix, the clauses that hold it, by sign; and the counts of clauses where the
//! variable gets a value or loses it.
ghost use Rattle.std.specs.Prelude.{◌≡◌, ◌<◌, ◌++◌, ◌∷◌, ◌&&◌, [], ℕ, Bool, cond, eqb, OnOk};
ghost use Rattle.q_logic.specs.Prelude.{bool_eq};
ghost use Rattle.q_solve.specs.Counting.{row_at, AreCounts};
ghost use Rattle.q_solve.specs.Counted.{side, turned, IsAt};

use crate::counts::Counts;
use crate::holders::Holders;
use crate::places::Known;
use q_logic::NoMemory;
use std::alloc::Global;

/// The clauses of the positive and of the negative literals.
#[derive(Drop)]
pub struct Sides {
    pub positive: Holders,
    pub negative: Holders,
}

impl Sides {
    pub fn new(alloc: Global) -> Sides
        ensures positive { result.positive ≡ [] }
        ensures negative { result.negative ≡ [] }
    {
        Sides {
            positive: Holders::new(alloc),
            negative: Holders::new(alloc),
        }
    }

    /// A clause that holds a literal.
    pub fn enter(&mut self, place: usize, negative: bool, clause: usize) -> Result<(), NoMemory>
        requires { place < 18446744073709551615 }
        ensures { OnOk result ((n : Bool) (k : ℕ) → row_at (side self.new n) k ≡
            cond (bool_eq n negative && eqb k place) (row_at (side self.old n) k ++ clause ∷ [])
            (row_at (side self.old n) k)) }
    {
        if negative {
            self.negative.push(place, clause)
        } else {
            self.positive.push(place, clause)
        }
    }
}

/// What is known of a variable changes, and with it the counts of the clauses that hold it.
pub fn change(sides: &Sides, counts: &mut Counts, place: usize, from: Known, to: Known)
    requires { IsAt sides.now counts.old place from }
    ensures { (t : IsAt sides.now counts.old place from)
        → AreCounts t.formula.matrix (turned t.variable to t.known) counts.new }
{
    counts.shift(sides.positive.row(place), from.positive, to.positive);
    counts.shift(sides.negative.row(place), from.negative, to.negative);
}
