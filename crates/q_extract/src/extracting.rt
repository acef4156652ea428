//! The certificate of drops.
ghost use Rattle.std.specs.Prelude.{◌≡◌, ◌≤◌, ◌+◌, length, IfOk, OnOk};
ghost use Rattle.q_logic.specs.Prelude.{Distinct, is_universal};
ghost use Rattle.q_certificate.specs.Prelude.{AreLiterals};
ghost use Rattle.q_long.specs.Decided.{AreBehind};
ghost use Rattle.q_extract.specs.Merges.{AreNodes, HavePivotsIn, merge_circuits};
ghost use Rattle.q_extract.specs.Rows.{drops_in, guards_in, AreSound};
ghost use Rattle.q_extract.specs.Built.{AreHeld, IsNext, IsExtracted, beside, cost, whole_weight};

use crate::building::decide;
use crate::drops::Drops;
use crate::guards::nothing_held;
use crate::merging::merge_nodes;
use q_aig::{Aig, Certificate};
use q_certificate::{Table, Tables, name_outputs, open_inputs, put};
use q_logic::{Bound, NoMemory, Quant};
use std::alloc::Global;

// The circuit of a variable, if it is an existential.
fn enter(
    aig: &mut Aig,
    tables: &mut Tables,
    drops: &Drops,
    nodes: &[u64],
    held: &mut Vec<Option<u64>>,
    bound: Bound,
) -> Result<(), NoMemory>
    requires inputs { AreLiterals aig.old tables.old.inputs.items }
    requires circuits { AreLiterals aig.old tables.old.circuits.items }
    requires drops { AreSound drops.now }
    requires nodes { AreNodes aig.old (merge_circuits drops.now.merges.items) nodes.now }
    requires held { AreHeld aig.old (guards_in drops.now) held.old.items }
    ensures inputs { tables.new.inputs ≡ tables.old.inputs }
    ensures next { OnOk result (IsNext aig.old aig.new tables.old.inputs.items
        tables.old.circuits.items tables.new.circuits.items (guards_in drops.now)
        held.old.items held.new.items bound (drops_in drops.now)) }
{
    match bound.quant {
        Quant::Forall => Ok(()),
        Quant::Exists => {
            let circuit = decide(aig, tables, drops, nodes, held, bound.var)?;
            put(&mut tables.circuits, bound.var, Some(circuit))?;
            Ok(())
        }
    }
}

/// The circuits of the existentials, of drops whose kept values stand before what they take away, over merges whose pivots are
/// universals.
pub fn extract(alloc: Global, prefix: &[Bound], drops: &Drops) -> Result<Certificate, NoMemory>
    requires distinct { Distinct prefix.now }
    requires sound { AreSound drops.now }
    requires behind { AreBehind prefix.now (drops_in drops.now) }
    requires pivots { HavePivotsIn (is_universal prefix.now) drops.now.merges.items }
    ensures extracted { IfOk result (IsExtracted prefix.now (drops_in drops.now)
        (length drops.now.merges.items)) }
    ensures shared { IfOk result (λ made. length made.gates ≤ whole_weight (guards_in drops.now)
        + cost beside (drops_in drops.now) + (length drops.now.merges.items
        + length drops.now.merges.items + length drops.now.merges.items)) }
{
    let mut aig = Aig::new(alloc);
    let inputs = open_inputs(alloc, &mut aig, prefix)?;
    let mut tables = Tables {
        inputs,
        circuits: Table::new(alloc),
    };
    let nodes = merge_nodes(alloc, &mut aig, &tables, &drops.merges)?;
    let mut held = nothing_held(alloc, drops.guards.len())?;
    for i in 0..prefix.len() {
        enter(&mut aig, &mut tables, drops, &nodes, &mut held, prefix[i])?;
    }
    let made = name_outputs(aig, prefix, &tables.circuits)?;
    Ok(made)
}
