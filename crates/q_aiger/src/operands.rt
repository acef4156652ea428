//! What the literals of a file stand for.
ghost use Rattle.std.specs.Prelude.{◌≡◌, ◌<◌, ◌+◌, ◌^◌, [], length};
ghost use Rattle.q_aiger.specs.Operands.{node_in, operand_in, outputs_from, gate_with, gates_from};
ghost use Rattle.q_gates.specs.Gates.{gates_view};
ghost use Rattle.q_aiger.specs.Standing.{source_some, operand_some, operands_view, gate_some, Answers};

use crate::error::{AigerError, Cause};
use crate::items::Items;
use q_gates::{Gate, Operand, Source};
use std::alloc::Global;

// The operand of a literal, if its variable is defined.
fn operand_of(items: &Items, inputs: u32, lit: u32) -> Option<Operand>
    ensures { operand_some result ≡ operand_in inputs items.now.defined lit }
{
    let source = source_of(items, inputs, lit / 2)?;
    Some(Operand {
        source,
        negated: lit % 2 == 1,
    })
}

fn source_of(items: &Items, inputs: u32, var: u32) -> Option<Source>
    ensures { source_some result ≡ node_in inputs items.now.defined var }
{
    if var == 0 {
        return Some(Source::Constant);
    }
    let place = items.place(var)?;
    if place < inputs {
        return Some(Source::Input(place));
    }
    Some(Source::Gate(place - inputs))
}

// The gate of two literals, if their variables are defined.
fn gate_of(items: &Items, inputs: u32, pair: (u32, u32)) -> Option<Gate>
    ensures { gate_some result ≡ gate_with (operand_in inputs items.now.defined pair.0)
        (operand_in inputs items.now.defined pair.1) }
{
    let left = operand_of(items, inputs, pair.0)?;
    let right = operand_of(items, inputs, pair.1)?;
    Some(Gate { left, right })
}

fn undefined(line: u64) -> AigerError
    ensures { result ≡ AigerError.Refused line 5 }
{
    AigerError::Refused {
        line,
        cause: Cause::Undefined as u8,
    }
}

/// The outputs, of which the first stands on this line.
pub fn resolve_outputs(
    alloc: Global,
    items: &Items,
    inputs: u32,
    line: u64,
) -> Result<Vec<Operand>, AigerError>
    requires { line + length items.now.outputs < 2 ^ 64 }
    ensures { Answers result (outputs_from inputs items.now.defined line [] items.now.outputs)
        (λ v. operands_view v.items) }
{
    let mut outputs = Vec::new(alloc);
    for (at, lit) in items.outputs().iter().enumerate() {
        match operand_of(items, inputs, *lit) {
            Some(output) => outputs.push(output)?,
            None => return Err(undefined(line + at as u64)),
        }
    }
    Ok(outputs)
}

/// The gates, of which the first stands on this line.
pub fn resolve_gates(
    alloc: Global,
    items: &Items,
    inputs: u32,
    line: u64,
) -> Result<Vec<Gate>, AigerError>
    requires { line + length items.now.operands < 2 ^ 64 }
    ensures { Answers result (gates_from inputs items.now.defined line [] items.now.operands)
        (λ v. gates_view v.items) }
{
    let mut gates = Vec::new(alloc);
    for (at, pair) in items.operands().iter().enumerate() {
        match gate_of(items, inputs, *pair) {
            Some(gate) => gates.push(gate)?,
            None => return Err(undefined(line + at as u64)),
        }
    }
    Ok(gates)
}
