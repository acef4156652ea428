//! Inputs before all gates, in the order of the prefix, and names after them.
ghost use Rattle.std.specs.Prelude.{◌≡◌, [], IfOk};
ghost use Rattle.q_logic.specs.Prelude.{Distinct};
ghost use Rattle.q_certificate.specs.Standing.{AreLiterals};
ghost use Rattle.q_certificate.specs.Made.{IsOpened, IsNamed};

use crate::table::{Table, look, put};
use q_aig::{Aig, Certificate};
use q_logic::{Bound, NoMemory, Quant};
use std::alloc::Global;

/// The universals as inputs, in their order.
pub fn open_inputs(alloc: Global, aig: &mut Aig, prefix: &[Bound]) -> Result<Table, NoMemory>
    requires distinct { Distinct prefix.now }
    requires empty { aig.old ≡ record { inputs = []; gates = [] } }
    ensures { IfOk result (λ ins. IsOpened aig.new ins.items prefix.now) }
{
    let mut inputs = Table::new(alloc);
    for bound in prefix {
        match bound.quant {
            Quant::Forall => {
                let lit = aig.input(bound.var)?;
                put(&mut inputs, bound.var, Some(lit))?;
            }
            Quant::Exists => {}
        }
    }
    Ok(inputs)
}

/// The circuits of the existentials, in their order.
pub fn name_outputs(aig: Aig, prefix: &[Bound], circuits: &Table) -> Result<Certificate, NoMemory>
    requires distinct { Distinct prefix.now }
    requires literals { AreLiterals aig circuits.now.items }
    ensures { IfOk result (λ made. IsNamed aig made circuits.now.items prefix.now) }
{
    let mut certificate = Certificate::new(aig);
    for bound in prefix {
        match bound.quant {
            Quant::Forall => {}
            Quant::Exists => {
                let lit = look(circuits, bound.var).unwrap_or(0);
                certificate.name(bound.var, lit)?;
            }
        }
    }
    Ok(certificate)
}
