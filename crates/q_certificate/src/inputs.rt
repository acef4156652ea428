//! Whether circuits read universals of a prefix alone. Strange inputs are found by one pass over the
//! gates: each input that is not allowed weighs the more the earlier it stands, and the greatest weight
//! that the circuits read names the first.
ghost use Rattle.std.specs.Prelude.{◌≡◌, ◌<◌, ℕ, List, cond, eqb, length, IfOk, IfErr, OnOk, true, false, slice_index_or, Some, None};
ghost use Rattle.q_logic.specs.Prelude.{Distinct, trees_of};
ghost use Rattle.q_aig.specs.Prelude.{AreDistinct, IsLiteral, tree_at, net_of};
ghost use Rattle.q_certificate.specs.Standing.{look_at};
ghost use Rattle.q_certificate.specs.Peaks.{IsTop};
ghost use Rattle.q_certificate.specs.Tabled.{ArePlaces, AreAllowedBy};
ghost use Rattle.q_certificate.specs.Refusals.{NoStrangeInput};
ghost use Rattle.q_certificate.specs.Testing.{name_at, IsFirstOver, IsInputMisfit};

use crate::error::Misfit;
use crate::peaks::{greater, peak_of, peaks, strange_weights};
use crate::table::{Table, look};
use q_aig::Certificate;
use q_logic::{Bound, NoMemory, Quant};
use std::alloc::Global;

/// Tests that the circuits read universals alone.
pub fn test_inputs(
    alloc: Global,
    prefix: &[Bound],
    given: &mut Certificate,
    places: &Table,
) -> Result<(), Misfit>
    requires distinct { Distinct prefix.now }
    requires places { ArePlaces given.old.inputs places.now.items }
    ensures unchanged { given.new ≡ given.old }
    ensures ok { OnOk result (NoStrangeInput prefix.now given.old) }
    ensures refused { IfErr result (IsInputMisfit prefix.now given.old) }
{
    let allowed = universals_in(alloc, prefix, given, places)?;
    let found = first_strange_input(alloc, given, &allowed)?;
    if let Some(place) = found {
        return Err(Misfit::StrangeInput {
            var: given.aig().inputs()[place],
        });
    }
    Ok(())
}

// Which inputs are universals of the prefix.
fn universals_in(
    alloc: Global,
    prefix: &[Bound],
    given: &Certificate,
    places: &Table,
) -> Result<Vec<bool>, NoMemory>
    requires distinct { Distinct prefix.now }
    requires places { ArePlaces given.now.inputs places.now.items }
    ensures room { IfOk result (λ al. length al.items ≡ length given.now.inputs) }
    ensures allowed { IfOk result (λ al. AreAllowedBy prefix.now given.now.inputs al.items) }
{
    let names = given.aig().inputs();
    let mut allowed = nothing_allowed(alloc, names.len())?;
    allow_all(prefix, names, places, &mut allowed);
    Ok(allowed)
}

/// Nothing is allowed yet.
pub fn nothing_allowed(alloc: Global, count: usize) -> Result<Vec<bool>, NoMemory>
    ensures room { IfOk result (λ al. length al.items ≡ count) }
    ensures fresh { IfOk result (λ al. (k : ℕ) → slice_index_or al.items k false ≡ false) }
{
    let mut allowed = Vec::new(alloc);
    allowed.resize(count, false)?;
    Ok(allowed)
}

fn allow_all(prefix: &[Bound], names: &[u32], places: &Table, allowed: &mut [bool])
    requires distinct { Distinct prefix.now }
    requires names { AreDistinct names.now }
    requires places { ArePlaces names.now places.now.items }
    requires room { length allowed.old ≡ length names.now }
    requires fresh { (k : ℕ) → slice_index_or allowed.old k false ≡ false }
    ensures { AreAllowedBy prefix.now names.now allowed.new }
{
    for i in 0..prefix.len() {
        match prefix[i].quant {
            Quant::Forall => allow(places, allowed, prefix[i].var),
            Quant::Exists => {}
        }
    }
}

/// Allows the input of this name.
pub fn allow(places: &Table, allowed: &mut [bool], var: u32)
    requires within { (x i : ℕ) → look_at places.now.items x ≡ Some i → i < length allowed.old }
    ensures { (names : List ℕ) → AreDistinct names → ArePlaces names places.now.items → length allowed.old
        ≡ length names → (k : ℕ) → k < length names → slice_index_or allowed.new k false
        ≡ cond (eqb (slice_index_or names k 0) var) true (slice_index_or allowed.old k false) }
{
    if let Some(i) = look(places, var) {
        allowed[i as usize] = true;
    }
}

// The first input that some circuit reads and that is not allowed.
fn first_strange_input(
    alloc: Global,
    given: &Certificate,
    allowed: &[bool],
) -> Result<Option<usize>, NoMemory>
    requires { length allowed.now ≡ length given.now.inputs }
    ensures { IfOk result (IsFirstOver given.now (length given.now.outputs) allowed.now) }
{
    let weights = strange_weights(alloc, allowed)?;
    let top = top_peak(alloc, given, &weights)?;
    if top == 0 {
        return Ok(None);
    }
    Ok(Some(allowed.len() - top))
}

// The greatest weight of the inputs that the circuits read.
fn top_peak(alloc: Global, given: &Certificate, weights: &[usize]) -> Result<usize, NoMemory>
    requires weights { length weights.now ≡ length given.now.inputs }
    ensures { IfOk result (IsTop given.now (length given.now.outputs) weights.now) }
{
    let row = peaks(alloc, given.aig(), weights)?;
    let mut top = 0;
    for k in 0..given.outputs().len() {
        let lit = literal_at(given, k);
        let peak = peak_of(given.aig(), weights, &row, lit);
        top = greater(top, peak);
    }
    Ok(top)
}

// The literal of an output.
fn literal_at(given: &Certificate, k: usize) -> u64
    requires { k < length given.now.outputs }
    ensures there { IsLiteral (net_of given.now) result }
    ensures tree { trees_of given.now (name_at given.now k)
        ≡ Some (tree_at (net_of given.now) result) }
{
    given.outputs()[k].lit
}
