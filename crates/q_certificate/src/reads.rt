//! Whether each circuit reads only what stands before its variable. An input has as its depth the first
//! place of the prefix behind its universal, and one pass over the gates says how deep each one reads. So
//! a cone is walked only where the test fails, to name the input.
ghost use Rattle.std.specs.Prelude.{◌≡◌, ◌<◌, ◌≤◌, ℕ, List, cond, eqb, length, IfOk, IfErr, OnOk, IsTrue, true, false, slice_index, slice_index_or, MatchOption, Option, Some};
ghost use Rattle.q_logic.specs.Prelude.{Distinct, trees_of};
ghost use Rattle.q_aig.specs.Prelude.{AreDistinct, IsLiteral, net_of};
ghost use Rattle.q_aig.specs.Cones.{ReadsAt};
ghost use Rattle.q_certificate.specs.Standing.{look_at};
ghost use Rattle.q_certificate.specs.Peaks.{AreDepths, AreGateDepths};
ghost use Rattle.q_certificate.specs.Tabled.{AreCircuits, ArePlaces};
ghost use Rattle.q_certificate.specs.Refusals.{IsTooInner, AllOuter};
ghost use Rattle.q_certificate.specs.Testing.{IsFirstIn, IsReadMisfit};

use crate::error::Misfit;
use crate::inputs::{allow, nothing_allowed};
use crate::peaks::{peak_of, peaks};
use crate::table::{Table, look};
use q_aig::Certificate;
use q_logic::{Bound, NoMemory, Quant};
use std::alloc::Global;

// How deep the inputs stand, and how deep each gate reads.
#[derive(Drop)]
struct Depths {
    inputs: Vec<usize>,
    gates: Vec<usize>,
}

/// Tests that each circuit reads only what stands before its variable.
pub fn test_reads(
    alloc: Global,
    prefix: &[Bound],
    given: &mut Certificate,
    circuits: &Table,
    places: &Table,
) -> Result<(), Misfit>
    requires distinct { Distinct prefix.now }
    requires circuits { AreCircuits (net_of given.old) (trees_of given.old) circuits.now.items }
    requires inputs { AreDistinct given.old.inputs }
    requires places { ArePlaces given.old.inputs places.now.items }
    ensures unchanged { given.new ≡ given.old }
    ensures ok { OnOk result (AllOuter prefix.now given.old) }
    ensures refused { IfErr result (IsReadMisfit prefix.now given.old) }
{
    let depths = depths_of(alloc, prefix, given, places)?;
    let mut allowed = nothing_allowed(alloc, given.aig().inputs().len())?;
    if let Some((var, other)) = first_reading(
        given,
        prefix,
        circuits,
        places,
        &depths,
        &mut allowed,
    ) {
        return Err(Misfit::Reads { var, other });
    }
    Ok(())
}

fn depths_of(
    alloc: Global,
    prefix: &[Bound],
    given: &Certificate,
    places: &Table,
) -> Result<Depths, NoMemory>
    requires distinct { Distinct prefix.now }
    requires places { ArePlaces given.now.inputs places.now.items }
    ensures inputs { IfOk result (λ d. AreDepths prefix.now given.now.inputs d.inputs.items) }
    ensures gates { IfOk result (λ d. AreGateDepths (net_of given.now) d.inputs.items
        d.gates.items) }
{
    let inputs = input_depths(alloc, prefix, given.aig().inputs(), places)?;
    let gates = peaks(alloc, given.aig(), &inputs)?;
    Ok(Depths { inputs, gates })
}

fn input_depths(
    alloc: Global,
    prefix: &[Bound],
    names: &[u32],
    places: &Table,
) -> Result<Vec<usize>, NoMemory>
    requires distinct { Distinct prefix.now }
    requires names { AreDistinct names.now }
    requires places { ArePlaces names.now places.now.items }
    ensures room { IfOk result (λ ds. length ds.items ≡ length names.now) }
    ensures depths { IfOk result (λ ds. AreDepths prefix.now names.now ds.items) }
{
    let mut depths = Vec::new(alloc);
    depths.resize(names.len(), prefix.len())?;
    deepen_all(prefix, names, places, &mut depths);
    Ok(depths)
}

// Gives each universal among the inputs its depth.
fn deepen_all(prefix: &[Bound], names: &[u32], places: &Table, depths: &mut [usize])
    requires distinct { Distinct prefix.now }
    requires names { AreDistinct names.now }
    requires places { ArePlaces names.now places.now.items }
    requires room { length depths.old ≡ length names.now }
    requires deep { AreDepths prefix.now names.now depths.old }
    ensures { AreDepths prefix.now names.now depths.new }
{
    for i in 0..prefix.len() {
        match prefix[i].quant {
            Quant::Forall => deepen(places, depths, prefix[i].var, i + 1),
            Quant::Exists => {}
        }
    }
}

// Gives the input of this name its depth.
fn deepen(places: &Table, depths: &mut [usize], var: u32, depth: usize)
    requires within { (x i : ℕ) → look_at places.now.items x ≡ Some i → i < length depths.old }
    ensures { (names : List ℕ) → AreDistinct names → ArePlaces names places.now.items
        → length depths.old ≡ length names →
        (k : ℕ) → k < length names → slice_index depths.new k
        ≡ cond (eqb (slice_index names k) var) depth (slice_index depths.old k) }
{
    if let Some(i) = look(places, var) {
        depths[i as usize] = depth;
    }
}

// The first existential whose circuit reads what does not stand before it, and what it reads.
fn first_reading(
    given: &mut Certificate,
    prefix: &[Bound],
    table: &Table,
    places: &Table,
    depths: &Depths,
    allowed: &mut [bool],
) -> Option<(u32, u32)>
    requires distinct { Distinct prefix.now }
    requires circuits { AreCircuits (net_of given.old) (trees_of given.old) table.now.items }
    requires inputs { AreDistinct given.old.inputs }
    requires places { ArePlaces given.old.inputs places.now.items }
    requires depths { AreDepths prefix.now given.old.inputs depths.now.inputs.items }
    requires gates { AreGateDepths (net_of given.old) depths.now.inputs.items
        depths.now.gates.items }
    requires room { length allowed.old ≡ length given.old.inputs }
    requires fresh { (k : ℕ) → slice_index_or allowed.old k false ≡ false }
    ensures unchanged { given.new ≡ given.old }
    ensures found { MatchOption result (AllOuter prefix.now given.old)
        (λ p. IsTooInner prefix.now given.old p.0 p.1) }
{
    for i in 0..prefix.len() {
        match prefix[i].quant {
            Quant::Forall => allow(places, allowed, prefix[i].var),
            Quant::Exists => {
                if let Some(place) = reads_of(given, table, depths, prefix[i].var, i, allowed) {
                    return Some((prefix[i].var, given.aig().inputs()[place]));
                }
            }
        }
    }
    None
}

// The first input that the circuit of a variable reads and that is not allowed, where all up to this depth are.
fn reads_of(
    given: &mut Certificate,
    table: &Table,
    depths: &Depths,
    var: u32,
    depth: usize,
    allowed: &[bool],
) -> Option<usize>
    requires circuits { AreCircuits (net_of given.old) (trees_of given.old) table.now.items }
    requires gates { AreGateDepths (net_of given.old) depths.now.inputs.items
        depths.now.gates.items }
    requires room { length allowed.now ≡ length given.old.inputs }
    requires shallow { (k : ℕ) → k < length given.old.inputs → slice_index depths.now.inputs.items k
        ≤ depth →
        slice_index_or allowed.now k false ≡ true }
    ensures unchanged { given.new ≡ given.old }
    ensures found { IsFirstIn given.old var allowed.now result }
{
    let lit = look(table, var)?;
    if is_shallow(given, depths, lit, depth) {
        return None;
    }
    given.reads(lit, allowed)
}

// Whether a literal reads nothing below this depth.
fn is_shallow(given: &Certificate, depths: &Depths, lit: u64, depth: usize) -> bool
    requires lit { IsLiteral (net_of given.now) lit }
    requires gates { AreGateDepths (net_of given.now) depths.now.inputs.items
        depths.now.gates.items }
    ensures { IsTrue result → (i : ℕ) → ReadsAt (net_of given.now) lit i
        → slice_index depths.now.inputs.items i ≤ depth }
{
    peak_of(given.aig(), &depths.inputs, &depths.gates, lit) <= depth
}
