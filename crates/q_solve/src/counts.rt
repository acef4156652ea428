//! The counts of clauses, and of these how many clauses have no true literal, and how many are lost.
ghost use Rattle.std.specs.Prelude.{◌≡◌, ◌<◌, ◌≤◌, ◌+◌, ◌++◌, ◌∷◌, [], length, set, OnOk, eqb};
ghost use Rattle.q_solve.specs.Counting.{is_chosen as is_chosen_spec, if_so, is_untrue as is_untrue_spec, is_lost as is_lost_spec, verdict_of, IsGrown, CanMove, IsMoved, CanShift, IsShifted};

use q_logic::{NoMemory, Standing, Verdict};
use std::alloc::Global;
use std::marker::Model;

/// What is counted of a clause. One that holds a variable in both signs is never lost.
#[derive(Clone, Copy, Debug, PartialEq, Eq)]
pub struct Count {
    pub trues: usize,
    pub opens: usize,
    pub both: bool,
}

/// Whether a value is still to be chosen.
pub fn is_chosen(standing: Standing) -> bool
    ensures { result ≡ is_chosen_spec standing }
{
    matches!(standing, Standing::Chosen)
}

// A count in which one thing was counted or not, and now is or is not.
fn recounted(count: usize, was: bool, is: bool) -> usize
    requires there { if_so was 1 ≤ count }
    requires fits { count + if_so is 1 < 18446744073709551616 + if_so was 1 }
    ensures { result + if_so was 1 ≡ count + if_so is 1 }
{
    match (was, is) {
        (true, false) => count - 1,
        (false, true) => count + 1,
        _ => count,
    }
}

impl Count {
    fn is_untrue(self) -> bool
        ensures { result ≡ is_untrue_spec self }
    {
        self.trues == 0
    }

    fn is_lost(self) -> bool
        ensures { result ≡ is_lost_spec self }
    {
        if self.both {
            return false;
        }
        self.trues == 0 && self.opens == 0
    }

    /// One literal more.
    pub fn with(self, standing: Standing) -> Count
        requires trues { self.trues < 18446744073709551615 }
        requires opens { self.opens < 18446744073709551615 }
        ensures { IsGrown self result standing }
    {
        Count {
            trues: recounted(self.trues, false, standing.is_true()),
            opens: recounted(self.opens, false, is_chosen(standing)),
            both: self.both,
        }
    }

    // What is known of one literal changes.
    fn moved(self, from: Standing, to: Standing) -> Count
        requires { CanMove self 1 from to }
        ensures { IsMoved self result 1 from to }
    {
        Count {
            trues: recounted(self.trues, from.is_true(), to.is_true()),
            opens: recounted(self.opens, is_chosen(from), is_chosen(to)),
            both: self.both,
        }
    }
}

/// A row of counts, and what is to be said of all of them together.
#[derive(Drop)]
pub struct Counts {
    row: Vec<Count>,
    untrue: usize,
    lost: usize,
}

impl Model for Counts {
    ghost use Rattle.std.specs.Prelude.{◌≡◌, List};
    ghost use Rattle.q_solve.specs.declared.counts.Count.{Count};
    ghost use Rattle.q_solve.specs.Counting.{AreTotals};

    ghost Value = { List Count };

    ghost view = { λ c. c.row.items };

    ghost invariant = { λ c. AreTotals c.row.items c.untrue c.lost };
}

impl Counts {
    pub fn new(alloc: Global) -> Counts
        ensures { result ≡ [] }
    {
        Counts {
            row: Vec::new(alloc),
            untrue: 0,
            lost: 0,
        }
    }

    pub fn push(&mut self, count: Count) -> Result<(), NoMemory>
        ensures { OnOk result (self.new ≡ self.old ++ count ∷ []) }
    {
        self.row.push(count)?;
        self.untrue = recounted(self.untrue, false, count.is_untrue());
        self.lost = recounted(self.lost, false, count.is_lost());
        Ok(())
    }

    /// What the clauses say together.
    pub fn verdict(&self) -> Verdict
        ensures { result ≡ verdict_of self.now }
    {
        if self.lost != 0 {
            return Verdict::Lost;
        }
        if self.untrue == 0 {
            return Verdict::Won;
        }
        Verdict::Open
    }

    fn put(&mut self, at: usize, count: Count)
        requires { at < length self.old }
        ensures { self.new ≡ set self.old at count }
    {
        let old = self.row[at];
        self.untrue = recounted(self.untrue, old.is_untrue(), count.is_untrue());
        self.lost = recounted(self.lost, old.is_lost(), count.is_lost());
        self.row[at] = count;
    }

    fn shift_one(&mut self, at: usize, from: Standing, to: Standing)
        requires there { at < length self.old }
        requires can { CanShift self.old (at ∷ []) from to }
        ensures { IsShifted self.old self.new (at ∷ []) from to }
    {
        let count = self.row[at];
        self.put(at, count.moved(from, to));
    }

    /// What is known of a literal changes. The row has its clauses, each as often as it holds the literal.
    pub fn shift(&mut self, row: &[usize], from: Standing, to: Standing)
        requires { CanShift self.old row.now from to }
        ensures { IsShifted self.old self.new row.now from to }
    {
        for at in row {
            self.shift_one(*at, from, to);
        }
    }
}
