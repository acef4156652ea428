//! Whether circuits have the names of a prefix: one for each existential, and no others.
ghost use Rattle.std.specs.Prelude.{◌≡◌, ◌&&◌, map, not, IfErr, OnOk, Option, Some, None};
ghost use Rattle.q_logic.specs.Prelude.{Prefix, Distinct, is_exists, given as given_spec, CertificateView, trees_of};
ghost use Rattle.q_aig.specs.Prelude.{net_of, output_of};
ghost use Rattle.q_certificate.specs.Tabled.{AreCircuits, AreExistentials};
ghost use Rattle.q_certificate.specs.Refusals.{first_missing as first_missing_spec, first_strange as first_strange_spec};
ghost use Rattle.q_certificate.specs.Testing.{IsNameMisfit};

use crate::by_variable::existentials_of;
use crate::error::Misfit;
use crate::table::{Table, look};
use q_aig::{Certificate, Output};
use q_logic::{Bound, Quant};
use std::alloc::Global;

/// Tests that each existential has a circuit, and that each circuit is an existential's.
pub fn test_names(
    alloc: Global,
    prefix: &[Bound],
    given: &Certificate,
    circuits: &Table,
) -> Result<(), Misfit>
    requires distinct { Distinct prefix.now }
    requires circuits { AreCircuits (net_of given.now) (trees_of given.now) circuits.now.items }
    ensures missing { OnOk result (first_missing_spec prefix.now given.now ≡ None) }
    ensures strange { OnOk result (first_strange_spec prefix.now given.now.outputs ≡ None) }
    ensures refused { IfErr result (IsNameMisfit prefix.now given.now) }
{
    if let Some(var) = first_missing(prefix, circuits) {
        return Err(Misfit::MissingOutput { var });
    }
    let existentials = existentials_of(alloc, prefix)?;
    if let Some(var) = first_strange(given.outputs(), &existentials) {
        return Err(Misfit::StrangeOutput { var });
    }
    Ok(())
}

// Whether the variable is an existential without a circuit.
fn misses(bound: Bound, table: &Table) -> bool
    ensures { (c : CertificateView) → AreCircuits (net_of c) (trees_of c) table.now.items
        → result ≡ (is_exists bound.quant && not (given_spec (trees_of c bound.var))) }
{
    match bound.quant {
        Quant::Forall => false,
        Quant::Exists => look(table, bound.var).is_none(),
    }
}

// The first existential without a circuit.
fn first_missing(prefix: &[Bound], table: &Table) -> Option<u32>
    ensures { (c : CertificateView) → AreCircuits (net_of c) (trees_of c) table.now.items
        → result ≡ first_missing_spec prefix.now c }
{
    for i in 0..prefix.len() {
        if misses(prefix[i], table) {
            return Some(prefix[i].var);
        }
    }
    None
}

// The first name that is no existential.
fn first_strange(outputs: &[Output], table: &Table) -> Option<u32>
    ensures { (P : Prefix) → AreExistentials P table.now.items
        → result ≡ first_strange_spec P (map output_of outputs.now) }
{
    for i in 0..outputs.len() {
        if look(table, outputs[i].var).is_none() {
            return Some(outputs[i].var);
        }
    }
    None
}
