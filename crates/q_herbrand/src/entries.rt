//! Entries taken on graphs. Where a clause came by its pivot, the pivot's input becomes `v or h`, for a negative one `v and
//! not h`, with h over the circuits before this entry; a fresh variable's input becomes 0. For both the variable's slot is
//! filled, and a new slot stands for it from then on: no gate is copied. Where a universal literal left a clause, its
//! circuit is made to falsify it: by a universal pivot where h holds, in a plain drop where the outer literals are false,
//! and then those inner to it are falsified too.
ghost use Rattle.std.specs.Prelude.{◌≡◌, ◌++◌, List, Option, Some, ℕ, length, IfOk, OnOk};
ghost use Rattle.q_logic.specs.Prelude.{Literal, negation, falsum};
ghost use Rattle.q_aig.specs.Prelude.{operand_of, IsLiteral};
ghost use Rattle.q_certificate.specs.Prelude.{AreLiterals, look_at};
ghost use Rattle.q_logic.specs.Reversals.{added, turned, plain, freshened, removed};
ghost use Rattle.q_herbrand.specs.Parts.{IsNoneOf, IsLoweredOne, AreLowered};
ghost use Rattle.q_herbrand.specs.Carried.{IsCarried};
ghost use Rattle.q_herbrand.specs.Following.{IsReady, IsTaken, AreTaken};
ghost use Rattle.q_herbrand.specs.Entries.{entry_of};

use crate::reversal::{Reversal, Reversals};
use crate::slots::{Slots, fill, renew, slot_of};
use q_aig::{Aig, constant, negate};
use q_certificate::{Table, Tables, all_of, look, put, raise};
use q_logic::{Clauses, Lit, NoMemory};

// The conjunction of the negations.
fn none_of(aig: &mut Aig, tables: &Tables, clause: &[Lit]) -> Result<u64, NoMemory>
    requires inputs { AreLiterals aig.old tables.now.inputs.items }
    requires circuits { AreLiterals aig.old tables.now.circuits.items }
    ensures { IfOk result (IsNoneOf aig.old aig.new tables.now.inputs.items
        tables.now.circuits.items clause.now) }
{
    let mut none = constant(true);
    for k in clause {
        let part = tables.literal(*k);
        none = aig.and(none, negate(part))?;
    }
    Ok(none)
}

// Makes one literal false where q holds.
fn lower(aig: &mut Aig, circuits: &mut Table, lit: Lit, q: u64) -> Result<(), NoMemory>
    requires circuits { AreLiterals aig.old circuits.old.items }
    requires q { IsLiteral aig.old q }
    ensures { OnOk result ((ins : List (Option ℕ)) → AreLiterals aig.old ins →
        IsLoweredOne aig.old aig.new ins circuits.old.items circuits.new.items q lit) }
{
    if let Some(circuit) = look(circuits, lit.var()) {
        let lowered = raise(aig, !lit.negative(), circuit, q)?;
        put(circuits, lit.var(), Some(lowered))?;
    }
    Ok(())
}

// Makes literals false where q holds.
fn lower_all(aig: &mut Aig, circuits: &mut Table, lits: &[Lit], q: u64) -> Result<(), NoMemory>
    requires circuits { AreLiterals aig.old circuits.old.items }
    requires q { IsLiteral aig.old q }
    ensures { OnOk result ((ins : List (Option ℕ)) → AreLiterals aig.old ins →
        AreLowered aig.old aig.new ins circuits.old.items circuits.new.items q lits.now) }
{
    let mut i = lits.len();
    while i > 0 {
        i -= 1;
        lower(aig, circuits, lits[i], q)?;
    }
    Ok(())
}

// The pivot and the inner literals are made false where all others are.
fn take_plain(
    aig: &mut Aig,
    tables: &mut Tables,
    pivot: Lit,
    same: &[Lit],
    inner: &[Lit],
) -> Result<(), NoMemory>
    requires inputs { AreLiterals aig.old tables.old.inputs.items }
    requires circuits { AreLiterals aig.old tables.old.circuits.items }
    ensures inputs { tables.new.inputs ≡ tables.old.inputs }
    ensures carried { OnOk result
        (IsCarried aig.old aig.new tables.old.inputs.items tables.old.circuits.items
        tables.new.circuits.items (plain pivot same.now inner.now)) }
{
    let q = none_of(aig, tables, same)?;
    lower_all(aig, &mut tables.circuits, inner, q)?;
    lower(aig, &mut tables.circuits, pivot, q)?;
    Ok(())
}

// The pivot is made false where each outer clause is true.
fn take_turned(
    aig: &mut Aig,
    tables: &mut Tables,
    pivot: Lit,
    outer: &Clauses,
) -> Result<(), NoMemory>
    requires inputs { AreLiterals aig.old tables.old.inputs.items }
    requires circuits { AreLiterals aig.old tables.old.circuits.items }
    ensures inputs { tables.new.inputs ≡ tables.old.inputs }
    ensures carried { OnOk result
        (IsCarried aig.old aig.new tables.old.inputs.items tables.old.circuits.items
        tables.new.circuits.items (turned pivot outer.now)) }
{
    if let Some(circuit) = look(&tables.circuits, pivot.var()) {
        let all = all_of(aig, tables, outer)?;
        let lowered = raise(aig, !pivot.negative(), circuit, all)?;
        put(&mut tables.circuits, pivot.var(), Some(lowered))?;
    }
    Ok(())
}

// A universal that was removed is 0 before its entry.
fn take_removed(aig: &Aig, tables: &mut Tables, var: u32) -> Result<(), NoMemory>
    requires circuits { AreLiterals aig.now tables.old.circuits.items }
    ensures inputs { tables.new.inputs ≡ tables.old.inputs }
    ensures carried { OnOk result
        (IsCarried aig.now aig.now tables.old.inputs.items tables.old.circuits.items
        tables.new.circuits.items (removed var)) }
{
    put(&mut tables.circuits, var, Some(constant(false)))?;
    Ok(())
}

// A fresh variable is 0 before its entry: its slot is filled with 0.
fn take_fresh(
    aig: &mut Aig,
    tables: &mut Tables,
    slots: &mut Slots,
    var: u32,
) -> Result<(), NoMemory>
    requires { IsReady aig.old tables.old.inputs.items tables.old.circuits.items slots.old }
    ensures inputs { tables.new.inputs ≡ tables.old.inputs }
    ensures taken { OnOk result
        (IsTaken aig.old aig.new tables.old.inputs.items tables.old.circuits.items
        tables.new.circuits.items slots.old slots.new (freshened var)) }
{
    // for the proof: the contract of this call says that this is a graph
    aig.inputs();
    match slot_of(slots, var) {
        None => Ok(()),
        Some(before) => {
            let _lit = renew(aig, &mut tables.circuits, slots, var)?;
            fill(slots, before, constant(false));
            Ok(())
        }
    }
}

// The pivot is made true before its entry where each outer clause is true: its slot is filled with the circuit for that, over
// a new slot.
fn take_added(
    aig: &mut Aig,
    tables: &mut Tables,
    slots: &mut Slots,
    pivot: Lit,
    outer: &Clauses,
) -> Result<(), NoMemory>
    requires { IsReady aig.old tables.old.inputs.items tables.old.circuits.items slots.old }
    ensures inputs { tables.new.inputs ≡ tables.old.inputs }
    ensures taken { OnOk result
        (IsTaken aig.old aig.new tables.old.inputs.items tables.old.circuits.items
        tables.new.circuits.items slots.old slots.new (added pivot outer.now)) }
{
    // for the proof: the contract of this call says that this is a graph
    aig.inputs();
    match slot_of(slots, pivot.var()) {
        None => Ok(()),
        Some(before) => {
            let lit = renew(aig, &mut tables.circuits, slots, pivot.var())?;
            let all = all_of(aig, tables, outer)?;
            let to = raise(aig, pivot.negative(), lit, all)?;
            fill(slots, before, to);
            Ok(())
        }
    }
}

// Takes one entry.
fn take_entry(
    aig: &mut Aig,
    tables: &mut Tables,
    slots: &mut Slots,
    entry: &Reversal,
) -> Result<(), NoMemory>
    requires { IsReady aig.old tables.old.inputs.items tables.old.circuits.items slots.old }
    ensures inputs { tables.new.inputs ≡ tables.old.inputs }
    ensures taken { OnOk result
        (IsTaken aig.old aig.new tables.old.inputs.items tables.old.circuits.items
        tables.new.circuits.items slots.old slots.new (entry_of entry.now)) }
{
    match entry {
        Reversal::Added { pivot, outer } => take_added(aig, tables, slots, *pivot, outer),
        Reversal::Turned { pivot, outer } => take_turned(aig, tables, *pivot, outer),
        Reversal::Plain { pivot, same, inner } => {
            take_plain(aig, tables, *pivot, same.as_slice(), inner.as_slice())
        }
        Reversal::Fresh { var } => take_fresh(aig, tables, slots, *var),
        Reversal::Removed { var } => take_removed(aig, tables, *var),
    }
}

/// Takes the entries from the last to the first.
pub fn take_all(
    aig: &mut Aig,
    tables: &mut Tables,
    slots: &mut Slots,
    reversals: &Reversals,
) -> Result<(), NoMemory>
    requires { IsReady aig.old tables.old.inputs.items tables.old.circuits.items slots.old }
    ensures inputs { tables.new.inputs ≡ tables.old.inputs }
    ensures taken { OnOk result
        (AreTaken aig.old aig.new tables.old.inputs.items tables.old.circuits.items
        tables.new.circuits.items slots.old slots.new reversals.now) }
{
    let entries = reversals.as_slice();
    let mut i = entries.len();
    while i > 0 {
        i -= 1;
        take_entry(aig, tables, slots, &entries[i])?;
    }
    Ok(())
}
