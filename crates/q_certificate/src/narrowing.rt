//! Circuits copied over the universals of a prefix alone: inputs in the order of the prefix, and no gate
//! that no circuit needs.
ghost use Rattle.std.specs.Prelude.{IfOk};
ghost use Rattle.q_logic.specs.Prelude.{Distinct, trees_of, Lawful};
ghost use Rattle.q_certificate.specs.Narrowed.{IsNarrowed};

use crate::copying::{copy_gates, mark_cones, place_outputs};
use crate::making::{name_outputs, open_inputs};
use q_aig::{Aig, Certificate};
use q_logic::{Bound, NoMemory};
use std::alloc::Global;

/// Copies lawful circuits, over the universals of the prefix.
pub fn narrow(alloc: Global, prefix: &[Bound], given: &Certificate) -> Result<Certificate, NoMemory>
    requires distinct { Distinct prefix.now }
    ensures { IfOk result (λ made. Lawful prefix.now (trees_of given.now)
        → IsNarrowed prefix.now given.now made) }
{
    let old = given.aig();
    let outputs = given.outputs();
    let mut aig = Aig::new(alloc);
    let inputs = open_inputs(alloc, &mut aig, prefix)?;
    let marks = mark_cones(alloc, old, outputs)?;
    let row = copy_gates(alloc, old, &marks, outputs, &mut aig, &inputs)?;
    let circuits = place_outputs(alloc, old, outputs, &inputs, &row)?;
    let made = name_outputs(aig, prefix, &circuits)?;
    Ok(made)
}
