//! The construction of circuits of the input.
ghost use Rattle.std.specs.Prelude.{List, IfOk};
ghost use Rattle.q_logic.specs.Prelude.{PrenexFormula, trees_of, Lawful, ProofStep, Run, Undos as UndosOf};
ghost use Rattle.q_rebuild.specs.Rebuilt.{IsRebuilt};

use crate::entries::take_back;
use q_aig::{Aig, Certificate};
use q_certificate::{Tables, copy_gates, mark_cones, name_outputs, open_inputs, place_outputs};
use q_check::Undos;
use q_logic::{Formula, NoMemory};
use std::alloc::Global;

/// Carries circuits back to the input, where they are lawful for an output.
pub fn carry(
    alloc: Global,
    input: &Formula,
    undo: &Undos,
    given: &Certificate,
) -> Result<Certificate, NoMemory>
    ensures { IfOk result (λ made.
        (G : PrenexFormula) → (ss : List ProofStep) → Run input.now ss G
        → UndosOf input.now ss undo.now → Lawful G.prefix (trees_of given.now)
        → IsRebuilt input.now G undo.now given.now made) }
{
    let prefix = input.prefix();
    let old = given.aig();
    let outputs = given.outputs();
    let mut aig = Aig::new(alloc);
    let inputs = open_inputs(alloc, &mut aig, prefix)?;
    let marks = mark_cones(alloc, old, outputs)?;
    let row = copy_gates(alloc, old, &marks, outputs, &mut aig, &inputs)?;
    let circuits = place_outputs(alloc, old, outputs, &inputs, &row)?;
    let mut tables = Tables { inputs, circuits };
    take_back(&mut aig, &mut tables, undo)?;
    let made = name_outputs(aig, prefix, &tables.circuits)?;
    Ok(made)
}
