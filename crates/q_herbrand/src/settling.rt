//! A graph with slots, built without them: the slots and the gates are sorted, so that each stands behind what it uses, and
//! built in this order. The work is linear in the slots and the gates.
ghost use Rattle.std.specs.Prelude.{◌≡◌, ℕ, IfOk, OnOk, length};
ghost use Rattle.q_logic.specs.Prelude.{Circuit};
ghost use Rattle.q_certificate.specs.Prelude.{look_at, AreLiterals, InputsAt, is_there};
ghost use Rattle.q_gates.specs.Gates.{gates_view};
ghost use Rattle.q_gates.specs.Uses.{IsFullOrder};
ghost use Rattle.q_herbrand.specs.Nodes.{AreNodes};
ghost use Rattle.q_herbrand.specs.Slots.{AreSlots, AreOwned, IsResolved};
ghost use Rattle.q_herbrand.specs.Settled.{AreBuilt, IsSettled, IsOrdered};

use crate::building::{Settled, build, nothing};
use crate::nodes::nodes;
use crate::slots::Slots;
use q_aig::Aig;
use q_certificate::Table;
use q_gates::{Sorted, sort_gates};
use q_logic::NoMemory;
use std::alloc::Global;

// An order of the slots and the gates in which each stands behind what it uses.
fn order(alloc: Global, draft: &Aig, slots: &Slots) -> Result<Vec<usize>, NoMemory>
    requires slots { AreSlots draft.now slots.now }
    requires resolved { (r : ℕ → Circuit) × IsResolved draft.now slots.now r }
    ensures { IfOk result (λ order. IsOrdered draft.now slots.now order.items) }
{
    // for the proof: the contract of this call says that this is a graph
    draft.inputs();
    let nodes = nodes(alloc, draft, &slots.definitions)?;
    match sort_gates(alloc, &nodes)? {
        Sorted::Order(order) => Ok(order),
        Sorted::Cycle(_) => unreachable!(),
    }
}

// Builds the nodes in their order.
fn build_all(
    draft: &Aig,
    slots: &Slots,
    inputs: &Table,
    aig: &mut Aig,
    made: &mut Settled,
    order: &[usize],
) -> Result<(), NoMemory>
    requires slots { AreSlots draft.now slots.now }
    requires owned { AreOwned draft.now.inputs inputs.now.items slots.now }
    requires inputs { AreLiterals aig.old inputs.now.items }
    requires at { InputsAt aig.old inputs.now.items (λ x. is_there (look_at inputs.now.items x)) }
    requires nothing { AreBuilt draft.now aig.old aig.old slots.now made.old order.now 0 }
    requires order { IsOrdered draft.now slots.now order.now }
    ensures { OnOk result (AreBuilt draft.now aig.old aig.new slots.now made.new order.now
        (length order.now)) }
{
    // for the proof: the contract of this call says that this is a graph
    draft.inputs();
    for at in 0..order.len() {
        build(draft, slots, inputs, aig, made, order[at])?;
    }
    Ok(())
}

/// Builds the slots and the gates of a draft into a graph that has the inputs of the row.
pub fn settle(
    alloc: Global,
    draft: &Aig,
    slots: &Slots,
    inputs: &Table,
    aig: &mut Aig,
) -> Result<Settled, NoMemory>
    requires slots { AreSlots draft.now slots.now }
    requires owned { AreOwned draft.now.inputs inputs.now.items slots.now }
    requires inputs { AreLiterals aig.old inputs.now.items }
    requires at { InputsAt aig.old inputs.now.items (λ x. is_there (look_at inputs.now.items x)) }
    requires resolved { (r : ℕ → Circuit) × IsResolved draft.now slots.now r }
    ensures { IfOk result (IsSettled draft.now aig.old aig.new slots.now) }
{
    let order = order(alloc, draft, slots)?;
    let mut made = nothing(alloc, slots.definitions.len(), draft.gates())?;
    build_all(draft, slots, inputs, aig, &mut made, &order)?;
    Ok(made)
}
