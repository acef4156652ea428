//! Tables by variable: the circuits of a certificate, the places of its inputs, the existentials of a
//! prefix.
ghost use Rattle.std.specs.Prelude.{IfOk};
ghost use Rattle.q_logic.specs.Prelude.{Distinct, trees_of};
ghost use Rattle.q_aig.specs.Prelude.{AreDistinct, AreOutputs, net_of};
ghost use Rattle.q_certificate.specs.Copied.{strategy_of};
ghost use Rattle.q_certificate.specs.Tabled.{AreCircuits, ArePlaces, AreExistentials};

use crate::table::{Table, put};
use q_aig::{Aig, Certificate, Output};
use q_logic::{Bound, NoMemory, Quant};
use std::alloc::Global;

/// The literal of each circuit.
pub fn circuits_of(alloc: Global, given: &Certificate) -> Result<Table, NoMemory>
    ensures { IfOk result (λ tb. AreCircuits (net_of given.now) (trees_of given.now) tb.items) }
{
    let table = table_of(alloc, given.aig(), given.outputs())?;
    Ok(table)
}

// The literal of each name: the first output that has it.
fn table_of(alloc: Global, _aig: &Aig, outputs: &[Output]) -> Result<Table, NoMemory>
    requires { AreOutputs _aig.now outputs.now }
    ensures { IfOk result (λ tb. AreCircuits _aig.now (strategy_of _aig.now outputs.now) tb.items) }
{
    let mut table = Table::new(alloc);
    let mut i = outputs.len();
    while i > 0 {
        i -= 1;
        let output = outputs[i];
        put(&mut table, output.var, Some(output.lit))?;
    }
    Ok(table)
}

/// The place of each input.
pub fn places_of(alloc: Global, names: &[u32]) -> Result<Table, NoMemory>
    requires { AreDistinct names.now }
    ensures { IfOk result (λ tb. ArePlaces names.now tb.items) }
{
    let mut table = Table::new(alloc);
    for i in 0..names.len() {
        put(&mut table, names[i], Some(i as u64))?;
    }
    Ok(table)
}

/// An entry for each existential.
pub fn existentials_of(alloc: Global, prefix: &[Bound]) -> Result<Table, NoMemory>
    requires { Distinct prefix.now }
    ensures { IfOk result (λ tb. AreExistentials prefix.now tb.items) }
{
    let mut table = Table::new(alloc);
    for bound in prefix {
        match bound.quant {
            Quant::Forall => {}
            Quant::Exists => put(&mut table, bound.var, Some(0))?,
        }
    }
    Ok(table)
}
