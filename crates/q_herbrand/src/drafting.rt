//! The draft: the gates that the given circuits need, over slots, with all entries taken.
ghost use Rattle.std.specs.Prelude.{◌≡◌, ◌==◌, if◌then◌else◌, ℕ, [], max, None, IfOk, OnOk};
ghost use Rattle.q_certificate.specs.Prelude.{look_at};
ghost use Rattle.q_herbrand.specs.Inputs.{AreInputs};
ghost use Rattle.q_herbrand.specs.Drafted.{either, AreMerged, AreByPlaces, IsByPlaces, IsDrafted, IsCopiedInto};

use crate::entries::take_all;
use crate::inputs::reopen;
use crate::reversal::Reversals;
use crate::slots::{Slots, begin};
use q_aig::{Aig, Certificate};
use q_certificate::{Table, Tables, copy_gates, mark_cones, place_outputs, put};
use q_logic::NoMemory;
use std::alloc::Global;

/// A graph over slots: its first inputs, which are those of the row, and the circuits in it.
#[derive(Drop)]
pub struct Draft {
    pub aig: Aig,
    pub tables: Tables,
    pub slots: Slots,
}

fn first_of(first: Option<u64>, second: Option<u64>) -> Option<u64>
    ensures { result ≡ either first second }
{
    match first {
        Some(lit) => Some(lit),
        None => second,
    }
}

fn greater(first: usize, second: usize) -> usize
    ensures { result ≡ max first second }
{
    if first < second { second } else { first }
}

// Puts what there is. Nothing takes no memory.
fn put_some(row: &mut Table, at: u32, lit: Option<u64>) -> Result<(), NoMemory>
    requires { look_at row.old.items at ≡ None }
    ensures { OnOk result ((x : ℕ) → look_at row.new.items x ≡ (if x == at then lit
        else look_at row.old.items x)) }
{
    match lit {
        None => Ok(()),
        Some(_) => put(row, at, lit),
    }
}

// The circuits, and for variables that have none the inputs.
fn merge(alloc: Global, circuits: &Table, inputs: &Table) -> Result<Table, NoMemory>
    ensures { IfOk result (λ row. AreMerged circuits.now.items inputs.now.items row.items) }
{
    let mut row = Table::new(alloc);
    for place in 0..greater(circuits.len(), inputs.len()) {
        let lit = first_of(circuits.get(place), inputs.get(place));
        put_some(&mut row, place as u32, lit)?;
    }
    Ok(row)
}

// The circuits of the outputs copied, and the inputs beside them.
fn copy_into(
    alloc: Global,
    aig: &mut Aig,
    inputs: &Table,
    given: &Certificate,
) -> Result<Table, NoMemory>
    requires inputs { AreInputs aig.old.inputs inputs.now.items }
    ensures { IfOk result (λ row. IsCopiedInto aig.old aig.new inputs.now.items given.now
        row.items) }
{
    let old = given.aig();
    let outputs = given.outputs();
    let marks = mark_cones(alloc, old, outputs)?;
    let gates = copy_gates(alloc, old, &marks, outputs, aig, inputs)?;
    let circuits = place_outputs(alloc, old, outputs, inputs, &gates)?;
    let row = merge(alloc, &circuits, inputs)?;
    Ok(row)
}

// So many inputs, each named by its place.
fn places(alloc: Global, count: usize) -> Result<Aig, NoMemory>
    ensures inputs { IfOk result (λ a. AreByPlaces count a.inputs) }
    ensures gates { IfOk result (λ a. a.gates ≡ []) }
{
    let mut aig = Aig::new(alloc);
    for place in 0..count {
        let Ok(name) = u32::try_from(place) else {
            return Err(NoMemory);
        };
        aig.input(name)?;
    }
    Ok(aig)
}

// The same gates over inputs that are named by their places. The graph of before is let go.
fn by_places(alloc: Global, named: Aig) -> Result<Aig, NoMemory>
    ensures { IfOk result (IsByPlaces named) }
{
    let mut aig = places(alloc, named.inputs().len())?;
    for gate in 0..named.gates() {
        let (left, right) = named.operands(gate);
        aig.gate(left, right)?;
    }
    Ok(aig)
}

/// Copies the circuits into a draft, and takes the entries there.
pub fn make_draft(
    alloc: Global,
    opened: &Aig,
    inputs: Table,
    reversals: &Reversals,
    given: &Certificate,
) -> Result<Draft, NoMemory>
    requires inputs { AreInputs opened.now.inputs inputs.items }
    ensures { IfOk result (IsDrafted opened.now inputs.items given.now reversals.now) }
{
    let mut named = reopen(alloc, opened)?;
    let circuits = copy_into(alloc, &mut named, &inputs, given)?;
    let mut aig = by_places(alloc, named)?;
    let mut slots = begin(alloc, opened.inputs())?;
    let mut tables = Tables { inputs, circuits };
    take_all(&mut aig, &mut tables, &mut slots, reversals)?;
    Ok(Draft { aig, tables, slots })
}
