//! A visit of a clause one of whose watched literals has come to a set.
ghost use Rattle.std.specs.Prelude.{◌≡◌, ◌≢◌, ◌<◌, length, slice_get, MatchOption, IfOk, Some};
ghost use Rattle.q_logic.specs.Prelude.{Literal, negation, IsIn, IsTautology};
ghost use Rattle.q_watch.specs.declared.entry.Entry.{Entry};
ghost use Rattle.q_watch.specs.Rows.{row_of};
ghost use Rattle.q_watch.specs.Watches.{AreWatchesOf, IsOtherOf};
ghost use Rattle.q_watch.specs.Visits.{IsVisited};

use crate::entry::Entry;
use crate::watches::Watches;
use q_kernel::{ClauseId, Kernel};
use q_logic::{Lit, NoMemory};
use q_rule::Queue;

/// A literal that comes hidden to a set, and the clause that gives it.
#[derive(Clone, Copy, Debug)]
pub struct Gift {
    pub id: ClauseId,
    pub lit: Lit,
}

/// What a visit finds.
#[derive(Clone, Copy, Debug)]
pub enum Visit {
    /// The clause gives nothing. The next entry stands at the next place.
    Next,
    /// The entry is gone. The next one stands at the same place.
    Again,
    /// The clause gives a literal.
    Gives(Gift),
}

// A literal of the clause beside one that is not in the set.
fn other_outside(clause: &[Lit], set: &Queue, other: Lit) -> Option<Lit>
    ensures { MatchOption result
        ((j : Literal) → IsIn j clause.now → j ≢ other → IsIn j set.now)
        (λ new. IsIn new clause.now × (new ≢ other) × (IsIn new set.now → ⊥)) }
{
    for j in clause {
        if !j.is(other) && !set.has(*j) {
            return Some(*j);
        }
    }
    None
}

impl Watches {
    /// Visits the clause of an entry in the row of a literal of the set, which holds no literal beside its negation. Of the clause c
    /// nothing is asked.
    pub fn visit(
        &mut self,
        kernel: &Kernel,
        set: &Queue,
        c: ClauseId,
        lit: Lit,
        i: usize,
    ) -> Result<Visit, NoMemory>
        requires right { AreWatchesOf kernel.now self.old }
        requires consistent { IsTautology set.now → ⊥ }
        requires there { IsIn lit set.now }
        requires i { i < length (row_of self.old.rows lit) }
        ensures right { AreWatchesOf kernel.now self.new }
        ensures visited { IfOk result (IsVisited kernel.now c set.now lit i self.old self.new) }
        ensures ready { self.new.ready ≡ self.old.ready }
    {
        let entry = self.rows.at(lit, i);
        if set.has(entry.blocker.negated()) {
            return Ok(Visit::Next);
        }
        if entry.id == c {
            return Ok(Visit::Next);
        }
        let Some(other) = self.other(entry.id, lit) else {
            self.rows.remove(lit, i);
            return Ok(Visit::Again);
        };
        if set.has(other.negated()) {
            return Ok(Visit::Next);
        }
        self.look(kernel, set, c, lit, i, entry.id, other)
    }

    // Looks at a clause that watches a literal of the set, and whose other watched literal has its negation not in the set.
    fn look(
        &mut self,
        kernel: &Kernel,
        set: &Queue,
        c: ClauseId,
        lit: Lit,
        i: usize,
        id: ClauseId,
        other: Lit,
    ) -> Result<Visit, NoMemory>
        requires right { AreWatchesOf kernel.now self.old }
        requires there { IsIn lit set.now }
        requires entry { (e : Entry) × (slice_get (row_of self.old.rows lit) i ≡ Some e)
            × (e.id ≡ id) }
        requires beside { id ≢ c }
        requires other { IsOtherOf self.old id lit (Some other) }
        requires new { IsIn (negation other) set.now → ⊥ }
        ensures right { AreWatchesOf kernel.now self.new }
        ensures visited { IfOk result (IsVisited kernel.now c set.now lit i self.old self.new) }
        ensures ready { self.new.ready ≡ self.old.ready }
    {
        if !kernel.live(id) {
            return Ok(Visit::Next);
        }
        let clause = kernel.lits(id);
        if clause.is_empty() {
            return Ok(Visit::Next);
        }
        let Some(new) = other_outside(clause, set, other) else {
            let lit = other.negated();
            return Ok(Visit::Gives(Gift { id, lit }));
        };
        self.rewatch(lit, i, &Entry { id, blocker: other }, new)?;
        Ok(Visit::Again)
    }
}
