//! The slots and the gates of a graph as gates in any order, for sorting. Negations do not matter there.
ghost use Rattle.std.specs.Prelude.{◌≡◌, ◌<◌, ◌≤◌, ℕ, ◌+◌, ◌^◌, [], length, IfOk, OnOk, MatchOption, Some, None};
ghost use Rattle.q_aig.specs.Prelude.{IsLiteral, operand_of};
ghost use Rattle.q_certificate.specs.Prelude.{look_at, AreLiterals};
ghost use Rattle.q_gates.specs.Gates.{gate_view, gates_view, source_view};
ghost use Rattle.q_gates.specs.Uses.{part_of, parts_of};
ghost use Rattle.q_herbrand.specs.Nodes.{node_part, filled_part, AreNodes, AreSlotNodes, AreGateNodes};

use q_aig::{Aig, Node};
use q_gates::{Gate, Operand, Source};
use q_logic::NoMemory;
use std::alloc::Global;

// The node that a literal is made of.
fn source_of(aig: &Aig, count: u32, lit: u64) -> Source
    requires lit { IsLiteral aig.now lit }
    requires few { count + length aig.now.gates < 2 ^ 32 }
    ensures { part_of (source_view result) ≡ node_part count aig.now.inputs (operand_of lit).node }
{
    match aig.node(lit) {
        Node::Constant => Source::Constant,
        Node::Input(at) => Source::Gate(aig.inputs()[at]),
        Node::Gate(gate) => Source::Gate(count + gate as u32),
    }
}

fn filled_source(aig: &Aig, count: u32, filled: Option<u64>) -> Source
    requires lit { (l : ℕ) → filled ≡ Some l → IsLiteral aig.now l }
    requires few { count + length aig.now.gates < 2 ^ 32 }
    ensures { part_of (source_view result) ≡ filled_part count aig.now.inputs filled }
{
    match filled {
        Some(lit) => source_of(aig, count, lit),
        None => Source::Constant,
    }
}

fn gate_of(left: Source, right: Source) -> Gate
    ensures { parts_of (gate_view result)
        ≡ (part_of (source_view left), part_of (source_view right)) }
{
    let left = Operand {
        source: left,
        negated: false,
    };
    let right = Operand {
        source: right,
        negated: false,
    };
    Gate { left, right }
}

// A node for each slot.
fn push_slots(
    aig: &Aig,
    count: u32,
    definitions: &[Option<u64>],
    nodes: &mut Vec<Gate>,
) -> Result<(), NoMemory>
    requires few { count + length aig.now.gates < 2 ^ 32 }
    requires literals { AreLiterals aig.now definitions.now }
    requires none { nodes.old.items ≡ [] }
    ensures { OnOk result (AreSlotNodes aig.now count definitions.now (length definitions.now)
        (gates_view nodes.new.items)) }
{
    for slot in 0..definitions.len() {
        let left = filled_source(aig, count, definitions[slot]);
        nodes.push(gate_of(left, Source::Constant))?;
    }
    Ok(())
}

// A node for each gate.
fn push_gates(aig: &Aig, count: u32, nodes: &mut Vec<Gate>) -> Result<(), NoMemory>
    requires few { count + length aig.now.gates < 2 ^ 32 }
    ensures { OnOk result (AreGateNodes aig.now count (gates_view nodes.old.items)
        (length aig.now.gates)
        (gates_view nodes.new.items)) }
{
    for gate in 0..aig.gates() {
        let (left, right) = aig.operands(gate);
        let left = source_of(aig, count, left);
        let right = source_of(aig, count, right);
        nodes.push(gate_of(left, right))?;
    }
    Ok(())
}

// How many slots there are, if slots and gates together are few enough to be numbered.
fn count_of(aig: &Aig, slots: usize) -> Option<u32>
    ensures { MatchOption result Unit (λ n. (n ≡ slots) × (slots + length aig.now.gates < 2 ^ 32)) }
{
    let count = u32::try_from(slots).ok()?;
    let gates = u32::try_from(aig.gates()).ok()?;
    count.checked_add(gates)?;
    Some(count)
}

/// The nodes of all slots and gates. More than a `u32` numbers are not held.
pub fn nodes(alloc: Global, aig: &Aig, definitions: &[Option<u64>]) -> Result<Vec<Gate>, NoMemory>
    requires { AreLiterals aig.now definitions.now }
    ensures { IfOk result (λ made. AreNodes aig.now definitions.now (gates_view made.items)) }
{
    let Some(count) = count_of(aig, definitions.len()) else {
        return Err(NoMemory);
    };
    let mut made = Vec::new(alloc);
    push_slots(aig, count, definitions, &mut made)?;
    push_gates(aig, count, &mut made)?;
    Ok(made)
}
