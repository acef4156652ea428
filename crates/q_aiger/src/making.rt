//! Circuits made of what a file says.
ghost use Rattle.std.specs.Prelude.{◌≡◌, ◌<◌, ◌≤◌, ◌++◌, ◌∷◌, [], ℕ, length, map, take, IfOk, OnOk, slice_index_or};
ghost use Rattle.q_logic.specs.Prelude.{IsThere, gate_at};
ghost use Rattle.q_aig.specs.Prelude.{operand_of, net_of};
ghost use Rattle.q_aiger.specs.Symbols.{AreApart};
ghost use Rattle.q_gates.specs.Uses.{IsFullOrder};
ghost use Rattle.q_aiger.specs.Circuits.{with_names, moved_output, sorted_circuits};
ghost use Rattle.q_gates.specs.Gates.{operand_view, gate_view, gates_view};
ghost use Rattle.q_aiger.specs.Standing.{operands_view};
ghost use Rattle.q_aiger.specs.Making.{plain, output_through, AreLiterals, through, gate_through, IsInputRow, IsGateRow, first_gates, AreVariables, AreGatesThere, AreOperandsThere};

use q_aig::{Aig, Certificate, constant, negate};
use q_gates::{Gate, Operand, Source};
use q_logic::NoMemory;
use std::alloc::Global;

/// The literals of inputs, and of gates by the order of their lines.
#[derive(Drop)]
struct Rows {
    inputs: Vec<u64>,
    gates: Vec<u64>,
}

// Opens the inputs, and gives their literals.
fn open_inputs(aig: &mut Aig, names: &[u32]) -> Result<Vec<u64>, NoMemory>
    requires empty { aig.old ≡ record { inputs = []; gates = [] } }
    requires apart { AreApart names.now }
    requires variables { AreVariables names.now }
    ensures row { IfOk result (λ v. IsInputRow (length names.now) v.items) }
    ensures net { OnOk result (aig.new ≡ record { inputs = names.now; gates = [] }) }
{
    let mut row = Vec::new(aig.allocator());
    for name in names {
        let lit = aig.input(*name)?;
        row.push(lit)?;
    }
    Ok(row)
}

// The literal of an operand.
fn literal(rows: &Rows, operand: Operand) -> u64
    requires { IsThere (length rows.now.inputs.items) (length rows.now.gates.items)
        (operand_view operand).node }
    ensures { operand_of result ≡ through rows.now.inputs.items rows.now.gates.items
        (operand_view operand) }
{
    let lit = match operand.source {
        Source::Constant => constant(false),
        Source::Input(input) => rows.inputs[input as usize],
        Source::Gate(gate) => rows.gates[gate as usize],
    };
    if operand.negated { negate(lit) } else { lit }
}

// Adds one gate.
fn add_gate(aig: &mut Aig, rows: &Rows, gate: Gate) -> Result<u64, NoMemory>
    requires left { IsThere (length rows.now.inputs.items) (length rows.now.gates.items)
        (operand_view gate.left).node }
    requires right { IsThere (length rows.now.inputs.items) (length rows.now.gates.items)
        (operand_view gate.right).node }
    requires left_literal { IsThere (length aig.old.inputs) (length aig.old.gates)
        (through rows.now.inputs.items rows.now.gates.items (operand_view gate.left)).node }
    requires right_literal { IsThere (length aig.old.inputs) (length aig.old.gates)
        (through rows.now.inputs.items rows.now.gates.items (operand_view gate.right)).node }
    ensures inputs { aig.new.inputs ≡ aig.old.inputs }
    ensures gates { OnOk result (aig.new.gates ≡ aig.old.gates ++ gate_through rows.now.inputs.items
        rows.now.gates.items (gate_view gate) ∷ []) }
    ensures literal { IfOk result (λ l. operand_of l ≡ plain (gate_at (length aig.old.gates))) }
{
    aig.gate(literal(rows, gate.left), literal(rows, gate.right))
}

// Adds the gates in this order, and notes their literals.
fn add_gates(
    aig: &mut Aig,
    rows: &mut Rows,
    gates: &[Gate],
    order: &[usize],
) -> Result<(), NoMemory>
    requires order { IsFullOrder (gates_view gates.now) order.now }
    requires there { AreGatesThere (length rows.old.inputs.items) (gates_view gates.now) }
    requires inputs { IsInputRow (length aig.old.inputs) rows.old.inputs.items }
    requires room { length rows.old.gates.items ≡ length gates.now }
    requires empty { aig.old.gates ≡ [] }
    ensures inputs { OnOk result (aig.new.inputs ≡ aig.old.inputs) }
    ensures gates { OnOk result (aig.new.gates ≡ first_gates order.now (gates_view gates.now)
        (length order.now)) }
    ensures row { OnOk result (IsGateRow order.now (length order.now) rows.new.gates.items) }
    ensures room { OnOk result (length rows.new.gates.items ≡ length gates.now) }
    ensures input_row { OnOk result (rows.new.inputs ≡ rows.old.inputs) }
{
    for gate in order {
        let lit = add_gate(aig, rows, gates[*gate])?;
        rows.gates[*gate] = lit;
    }
    Ok(())
}

// Names the outputs.
fn name_outputs(
    certificate: &mut Certificate,
    rows: &Rows,
    names: &[u32],
    outputs: &[Operand],
) -> Result<(), NoMemory>
    requires none { certificate.old.outputs ≡ [] }
    requires apart { AreApart names.now }
    requires variables { AreVariables names.now }
    requires same { length names.now ≡ length outputs.now }
    requires there { AreOperandsThere (length rows.now.inputs.items) (length rows.now.gates.items)
        (operands_view outputs.now) }
    requires literals { AreLiterals (net_of certificate.old) rows.now.inputs.items
        rows.now.gates.items (operands_view outputs.now) }
    ensures inputs { certificate.new.inputs ≡ certificate.old.inputs }
    ensures gates { certificate.new.gates ≡ certificate.old.gates }
    ensures outputs { OnOk result (certificate.new.outputs
        ≡ map (output_through rows.now.inputs.items rows.now.gates.items)
        (with_names names.now (operands_view outputs.now))) }
{
    for (at, name) in names.iter().enumerate() {
        certificate.name(*name, literal(rows, outputs[at]))?;
    }
    Ok(())
}

/// The circuits of a file, with its gates in this order.
pub fn make(
    alloc: Global,
    inputs: &[u32],
    gates: &[Gate],
    order: &[usize],
    names: &[u32],
    outputs: &[Operand],
) -> Result<Certificate, NoMemory>
    requires inputs_apart { AreApart inputs.now }
    requires input_variables { AreVariables inputs.now }
    requires order { IsFullOrder (gates_view gates.now) order.now }
    requires there { AreGatesThere (length inputs.now) (gates_view gates.now) }
    requires names_apart { AreApart names.now }
    requires name_variables { AreVariables names.now }
    requires same { length names.now ≡ length outputs.now }
    requires outputs_there { AreOperandsThere (length inputs.now) (length gates.now)
        (operands_view outputs.now) }
    ensures { IfOk result (λ c. c ≡ sorted_circuits order.now (record {
      inputs = inputs.now;
      gates = gates_view gates.now;
      outputs = with_names names.now
          (operands_view outputs.now);
    })) }
{
    let mut aig = Aig::new(alloc);
    let mut rows = Rows {
        inputs: open_inputs(&mut aig, inputs)?,
        gates: Vec::new(alloc),
    };
    rows.gates.resize(gates.len(), 0)?;
    add_gates(&mut aig, &mut rows, gates, order)?;
    let mut certificate = Certificate::new(aig);
    name_outputs(&mut certificate, &rows, names, outputs)?;
    Ok(certificate)
}
