//! Entries of an undo list, undone on graphs. A removed existential gets the constant 0, a fresh variable loses its
//! circuit. Where a clause went by its pivot, the pivot is made true wherever each outer clause has a true literal: `v or
//! h` for a positive pivot v, `v and not h` for a negative one, with h over the circuits before this entry. Each literal
//! and each clause of the list costs one gate at most.
ghost use Rattle.std.specs.Prelude.{◌≡◌, OnOk};
ghost use Rattle.q_certificate.specs.Prelude.{AreLiterals, IsUndone};
ghost use Rattle.q_rebuild.specs.TakenBack.{AreUndone};
ghost use Rattle.q_judge.specs.Entries.{entry_of};
ghost use Rattle.q_logic.specs.Prelude.{pivot as pivot_entry};

use q_aig::{Aig, constant};
use q_certificate::{Tables, all_of, look, put, raise};
use q_check::{Clauses, Undo, Undos};
use q_logic::{Lit, NoMemory};

fn undo_pivot(
    aig: &mut Aig,
    tables: &mut Tables,
    pivot: Lit,
    outer: &Clauses,
) -> Result<(), NoMemory>
    requires inputs { AreLiterals aig.old tables.old.inputs.items }
    requires circuits { AreLiterals aig.old tables.old.circuits.items }
    ensures inputs { tables.new.inputs ≡ tables.old.inputs }
    ensures undone { OnOk result
        (IsUndone aig.old aig.new tables.old.inputs.items tables.old.circuits.items
        tables.new.circuits.items (pivot_entry pivot outer.now)) }
{
    if let Some(circuit) = look(&tables.circuits, pivot.var()) {
        let all = all_of(aig, tables, outer)?;
        let raised = raise(aig, pivot.negative(), circuit, all)?;
        put(&mut tables.circuits, pivot.var(), Some(raised))?;
    }
    Ok(())
}

fn undo_entry(aig: &mut Aig, tables: &mut Tables, entry: &Undo) -> Result<(), NoMemory>
    requires inputs { AreLiterals aig.old tables.old.inputs.items }
    requires circuits { AreLiterals aig.old tables.old.circuits.items }
    ensures inputs { tables.new.inputs ≡ tables.old.inputs }
    ensures undone { OnOk result
        (IsUndone aig.old aig.new tables.old.inputs.items tables.old.circuits.items
        tables.new.circuits.items (entry_of entry.now)) }
{
    match entry {
        Undo::Removed { var } => put(&mut tables.circuits, *var, Some(constant(false))),
        Undo::Fresh { var } => put(&mut tables.circuits, *var, None),
        Undo::Pivot { pivot, outer } => undo_pivot(aig, tables, *pivot, outer),
    }
}

/// Undoes the entries from the last to the first.
pub fn take_back(aig: &mut Aig, tables: &mut Tables, undo: &Undos) -> Result<(), NoMemory>
    requires inputs { AreLiterals aig.old tables.old.inputs.items }
    requires circuits { AreLiterals aig.old tables.old.circuits.items }
    ensures inputs { tables.new.inputs ≡ tables.old.inputs }
    ensures undone { OnOk result
        (AreUndone aig.old aig.new tables.old.inputs.items tables.old.circuits.items
        tables.new.circuits.items undo.now) }
{
    let entries = undo.as_slice();
    let mut i = entries.len();
    while i > 0 {
        i -= 1;
        undo_entry(aig, tables, &entries[i])?;
    }
    Ok(())
}
