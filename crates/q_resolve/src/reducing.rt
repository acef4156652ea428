//! Whether a parent reduces to a line, whose literals are marked, and what it then takes away.
ghost use Rattle.std.specs.Prelude.{◌≡◌, [], ℕ, None, OnOk};
ghost use Rattle.q_derive.specs.Traces.{AreBound};
ghost use Rattle.q_extract.specs.Rows.{said_next, AreSound, IsMore};
ghost use Rattle.q_resolve.specs.Seats.{AreSeats};
ghost use Rattle.q_resolve.specs.Reduced.{IsReduction};
ghost use Rattle.q_resolve.specs.Merging.{IsTakenFrom};

use crate::fault::Fault;
use crate::leaves::Owner;
use crate::marked::Marked;
use crate::resolving::{Away, put_away};
use crate::tests::{is_clear_before, loses, outermost_taken};
use q_certificate::Table;
use q_extract::take_away;
use q_logic::{Bound, Lit, NoMemory};

/// The fault of a reduction, if it has one.
pub fn fault_of(prefix: &[Bound], seats: &Table, marked: &Marked, parent: &[Lit]) -> Option<Fault>
    requires seats { AreSeats prefix.now seats.now.items }
    requires bound { AreBound prefix.now parent.now }
    ensures { IsReduction prefix.now parent.now marked.now result }
{
    if loses(prefix, seats, marked, parent) {
        return Some(Fault::Lost);
    }
    let at = outermost_taken(prefix, seats, marked, parent);
    if !is_clear_before(prefix, seats, at, parent) {
        return Some(Fault::Shed);
    }
    None
}

/// Takes away what is behind the outermost variable of which a literal goes. What was said of merged variables ends here.
pub fn reduce(
    away: &mut Away,
    prefix: &[Bound],
    seats: &Table,
    owner: Owner,
    marked: &Marked,
    parent: &[Lit],
) -> Result<(), NoMemory>
    requires seats { AreSeats prefix.now seats.now.items }
    requires sound { AreSound away.old.drops }
    requires bound { AreBound prefix.now parent.now }
    ensures { OnOk result (IsTakenFrom owner prefix.now parent.now marked.now away.old.drops
        away.new.drops) }
{
    let at = outermost_taken(prefix, seats, marked, parent);
    if at < prefix.len() as u64 {
        put_away(away, prefix, seats, owner, at, parent)?;
        return Ok(());
    }
    put_nothing(away)?;
    Ok(())
}

// A line that takes nothing away, if anything was said.
fn put_nothing(away: &mut Away) -> Result<(), NoMemory>
    requires { AreSound away.old.drops }
    ensures more { OnOk result (IsMore away.old.drops away.new.drops []) }
    ensures next { OnOk result ((x : ℕ) → said_next away.new.drops x ≡ None) }
{
    if away.drops.merges.is_empty() {
        return Ok(());
    }
    take_away(&mut away.drops, &[], &[])?;
    Ok(())
}
