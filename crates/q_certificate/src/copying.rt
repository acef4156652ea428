//! Copies of the gates that some outputs need. A pass from the last gate to the first marks the cones, one from the
//! first to the last copies what is marked through the folding `and`. Nothing is asked of a gate that no output needs.
ghost use Rattle.std.specs.Prelude.{◌≡◌, ◌<◌, ◌⊎◌, ℕ, true, false, length, slice_index_or, IfOk};
ghost use Rattle.q_logic.specs.Prelude.{IsThere, gate_at};
ghost use Rattle.q_aig.specs.Prelude.{operand_of, IsLiteral, AreOutputs};
ghost use Rattle.q_aig.specs.Nodes.{node_view};
ghost use Rattle.q_certificate.specs.Standing.{AreLiterals};
ghost use Rattle.q_certificate.specs.Copied.{IsMarked, AreMarked, copied_operand, AreCopied, IsCopy, ArePlaced};

use crate::table::{Table, look, put};
use q_aig::{Aig, Node, Output, negate};
use q_logic::NoMemory;
use std::alloc::Global;

fn mark(marks: &mut [bool], node: Node)
    requires { (g : ℕ) → node_view node ≡ gate_at g → g < length marks.old }
    ensures marked { IsMarked marks.new (node_view node) }
    ensures kept { (g : ℕ) → slice_index_or marks.old g false ≡ true
        → slice_index_or marks.new g false ≡ true }
    ensures only { (g : ℕ) → slice_index_or marks.new g false ≡ true
        → (slice_index_or marks.old g false ≡ true) ⊎ (node_view node ≡ gate_at g) }
{
    if let Node::Gate(gate) = node {
        marks[gate] = true;
    }
}

/// Marks the gates that the outputs need, and no others.
pub fn mark_cones(alloc: Global, aig: &Aig, outputs: &[Output]) -> Result<Vec<bool>, NoMemory>
    requires { AreOutputs aig.now outputs.now }
    ensures room { IfOk result (λ m. length m.items ≡ length aig.now.gates) }
    ensures marked { IfOk result (λ m. AreMarked aig.now.gates outputs.now m.items) }
{
    let mut marks = Vec::new(alloc);
    marks.resize(aig.gates(), false)?;
    mark_all(aig, outputs, &mut marks);
    Ok(marks)
}

fn mark_all(aig: &Aig, outputs: &[Output], marks: &mut [bool])
    requires outputs { AreOutputs aig.now outputs.now }
    requires room { length marks.old ≡ length aig.now.gates }
    requires unmarked { (g : ℕ) → slice_index_or marks.old g false ≡ false }
    ensures { AreMarked aig.now.gates outputs.now marks.new }
{
    for i in 0..outputs.len() {
        mark(marks, aig.node(outputs[i].lit));
    }
    let mut gate = marks.len();
    while gate > 0 {
        gate -= 1;
        if marks[gate] {
            let (left, right) = aig.operands(gate);
            mark(marks, aig.node(left));
            mark(marks, aig.node(right));
        }
    }
}

/// The literal in the copy.
pub fn translate(old: &Aig, inputs: &Table, row: &[u64], lit: u64) -> u64
    requires lit { IsLiteral old.now lit }
    requires there { IsThere (length old.now.inputs) (length row.now) (operand_of lit).node }
    ensures { operand_of result ≡ copied_operand old.now.inputs inputs.now.items row.now
        (operand_of lit) }
{
    let plain = match old.node(lit) {
        Node::Constant => 0,
        Node::Input(at) => look(inputs, old.inputs()[at]).unwrap_or(0),
        Node::Gate(gate) => row[gate],
    };
    if lit % 2 == 1 { negate(plain) } else { plain }
}

// Copies a gate.
fn copy_gate(
    old: &Aig,
    aig: &mut Aig,
    inputs: &Table,
    row: &[u64],
    gate: usize,
) -> Result<u64, NoMemory>
    requires gate { gate < length old.now.gates }
    requires row { length row.now ≡ gate }
    requires there { (g : ℕ) → IsLiteral aig.old (slice_index_or row.now g 0) }
    requires inputs { AreLiterals aig.old inputs.now.items }
    ensures { IfOk result (IsCopy old.now inputs.now.items aig.old aig.new row.now gate) }
{
    old.inputs();
    let (left, right) = old.operands(gate);
    let a = translate(old, inputs, row, left);
    let b = translate(old, inputs, row, right);
    let lit = aig.and(a, b)?;
    Ok(lit)
}

/// Copies the marked gates in their order.
pub fn copy_gates(
    alloc: Global,
    old: &Aig,
    marks: &[bool],
    outputs: &[Output],
    aig: &mut Aig,
    inputs: &Table,
) -> Result<Vec<u64>, NoMemory>
    requires room { length marks.now ≡ length old.now.gates }
    requires marked { AreMarked old.now.gates outputs.now marks.now }
    requires inputs { AreLiterals aig.old inputs.now.items }
    ensures { IfOk result (λ row. AreCopied old.now marks.now inputs.now.items aig.old aig.new row.items
        (length old.now.gates)) }
{
    let mut row = Vec::new(alloc);
    for gate in 0..old.gates() {
        if marks[gate] {
            let lit = copy_gate(old, aig, inputs, &row, gate)?;
            row.push(lit)?;
        } else {
            row.push(0)?;
        }
    }
    Ok(row)
}

/// The circuits of the outputs, in the copy.
pub fn place_outputs(
    alloc: Global,
    old: &Aig,
    outputs: &[Output],
    inputs: &Table,
    row: &[u64],
) -> Result<Table, NoMemory>
    requires outputs { AreOutputs old.now outputs.now }
    requires room { length row.now ≡ length old.now.gates }
    ensures { IfOk result (λ tb. ArePlaced old.now inputs.now.items row.now outputs.now outputs.now
        tb.items) }
{
    old.inputs();
    let mut circuits = Table::new(alloc);
    let mut i = outputs.len();
    while i > 0 {
        i -= 1;
        let output = outputs[i];
        let lit = translate(old, inputs, row, output.lit);
        put(&mut circuits, output.var, Some(lit))?;
    }
    Ok(circuits)
}
