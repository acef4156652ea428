//! The canonical text of a certificate: only the gates in the cones of outputs, numbered on from the inputs in
//! the order in which they were made.
ghost use Rattle.std.specs.Prelude.{◌≡◌, ◌<◌, ◌≤◌, ◌++◌, ◌+◌, ◌*◌, ◌-◌, ◌^◌, ℕ, length, map, OnOk, OnErr, IfOk, slice_index_or};
ghost use Rattle.q_logic.specs.Prelude.{NamedOutput};
ghost use Rattle.q_aig.specs.Prelude.{operand_of, IsLiteral, net_of, output_of};
ghost use Rattle.q_gates.specs.Gates.{no_gate};
ghost use Rattle.q_aiger.specs.Cones.{HasCones, IsPart};
ghost use Rattle.q_aiger.specs.Writing.{number_word, number_line, header_line, input_lines, output_lines, gate_line, gate_lines, symbol_line, symbol_lines, names_of, literal_of, circuit_text, IsCanonicalBehind};
ghost use Rattle.q_text.specs.Texts.{Extends};

use crate::cones::{Cones, cones_of};
use q_aig::{Certificate, Node, Output};
use q_logic::NoMemory;
use q_text::put_count;

/// Appends the canonical text, and answers the number of gates in it.
pub fn write(certificate: &Certificate, text: &mut Vec<u8>) -> Result<u64, NoMemory>
    ensures ok { IfOk result (λ gates. IsCanonicalBehind certificate.now gates text.old.items
        text.new.items) }
    ensures err { OnErr result (text.new.items ≡ text.old.items) }
{
    let cones = cones_of(certificate)?;
    let before = text.len();
    if put_circuits(text, certificate, &cones).is_err() {
        text.truncate(before);
        return Err(NoMemory);
    }
    Ok(cones.kept.len() as u64)
}

fn put_circuits(
    text: &mut Vec<u8>,
    certificate: &Certificate,
    cones: &Cones,
) -> Result<(), NoMemory>
    requires { HasCones certificate.now cones.now.kept.items cones.now.places.items }
    ensures ok { OnOk result (text.new.items ≡ text.old.items ++ circuit_text certificate.now
        cones.now.kept.items) }
    ensures err { OnErr result (Extends text.old.items text.new.items) }
{
    let inputs = certificate.aig().inputs();
    let outputs = certificate.outputs();
    put_header(text, inputs.len(), outputs.len(), cones.kept.len())?;
    put_inputs(text, inputs.len())?;
    put_outputs(text, certificate, cones)?;
    put_gates(text, certificate, cones)?;
    put_input_symbols(text, inputs)?;
    put_output_symbols(text, outputs)?;
    Ok(())
}

fn put_header(
    text: &mut Vec<u8>,
    inputs: usize,
    outputs: usize,
    gates: usize,
) -> Result<(), NoMemory>
    requires { inputs + gates < 2 ^ 64 }
    ensures ok { OnOk result (text.new.items ≡ text.old.items ++ header_line inputs outputs gates) }
    ensures err { OnErr result (Extends text.old.items text.new.items) }
{
    text.extend_from_slice(b"aag ")?;
    put_word(text, inputs + gates)?;
    put_word(text, inputs)?;
    text.extend_from_slice(b"0 ")?;
    put_word(text, outputs)?;
    put_line(text, gates)?;
    Ok(())
}

// A number, and a space.
fn put_word(text: &mut Vec<u8>, number: usize) -> Result<(), NoMemory>
    ensures ok { OnOk result (text.new.items ≡ text.old.items ++ number_word number) }
    ensures err { OnErr result (Extends text.old.items text.new.items) }
{
    put_count(text, number)?;
    text.push(b' ')?;
    Ok(())
}

// A number, and the end of the line.
fn put_line(text: &mut Vec<u8>, number: usize) -> Result<(), NoMemory>
    ensures ok { OnOk result (text.new.items ≡ text.old.items ++ number_line number) }
    ensures err { OnErr result (Extends text.old.items text.new.items) }
{
    put_count(text, number)?;
    text.push(b'\n')?;
    Ok(())
}

fn put_inputs(text: &mut Vec<u8>, inputs: usize) -> Result<(), NoMemory>
    requires { inputs ≤ 1152921504606846976 }
    ensures ok { OnOk result (text.new.items ≡ text.old.items ++ input_lines 0 inputs) }
    ensures err { OnErr result (Extends text.old.items text.new.items) }
{
    for input in 0..inputs {
        put_line(text, 2 * (input + 1))?;
    }
    Ok(())
}

fn put_outputs(text: &mut Vec<u8>, certificate: &Certificate, cones: &Cones) -> Result<(), NoMemory>
    requires { HasCones certificate.now cones.now.kept.items cones.now.places.items }
    ensures ok { OnOk result (text.new.items ≡ text.old.items ++ output_lines
        (length certificate.now.inputs) cones.now.kept.items certificate.now.outputs) }
    ensures err { OnErr result (Extends text.old.items text.new.items) }
{
    for output in certificate.outputs() {
        put_line(text, literal(certificate, cones, output.lit))?;
    }
    Ok(())
}

fn put_gates(text: &mut Vec<u8>, certificate: &Certificate, cones: &Cones) -> Result<(), NoMemory>
    requires { HasCones certificate.now cones.now.kept.items cones.now.places.items }
    ensures ok { OnOk result (text.new.items ≡ text.old.items ++ gate_lines certificate.now.gates
        (length certificate.now.inputs) cones.now.kept.items 0 cones.now.kept.items) }
    ensures err { OnErr result (Extends text.old.items text.new.items) }
{
    let aig = certificate.aig();
    let first = aig.inputs().len() + 1;
    for (place, gate) in cones.kept.iter().enumerate() {
        let (left, right) = aig.operands(*gate);
        let left = literal(certificate, cones, left);
        let right = literal(certificate, cones, right);
        put_gate(text, 2 * (first + place), left, right)?;
    }
    Ok(())
}

// The greater operand stands first.
fn put_gate(text: &mut Vec<u8>, lit: usize, left: usize, right: usize) -> Result<(), NoMemory>
    ensures ok { OnOk result (text.new.items ≡ text.old.items ++ gate_line lit left right) }
    ensures err { OnErr result (Extends text.old.items text.new.items) }
{
    put_word(text, lit)?;
    put_word(text, left.max(right))?;
    put_line(text, left.min(right))
}

// The number of a literal in the text.
fn literal(certificate: &Certificate, cones: &Cones, lit: u64) -> usize
    requires cones { HasCones certificate.now cones.now.kept.items cones.now.places.items }
    requires lit { IsLiteral (net_of certificate.now) lit }
    requires part { IsPart certificate.now (operand_of lit).node }
    ensures { result ≡ literal_of (length certificate.now.inputs) cones.now.kept.items
        (operand_of lit) }
{
    let aig = certificate.aig();
    let inputs = aig.inputs().len();
    let number = match aig.node(lit) {
        Node::Constant => 0,
        Node::Input(input) => input + 1,
        Node::Gate(gate) => inputs + 1 + cones.places[gate],
    };
    2 * number + (lit % 2) as usize
}

fn put_input_symbols(text: &mut Vec<u8>, names: &[u32]) -> Result<(), NoMemory>
    ensures ok { OnOk result (text.new.items ≡ text.old.items ++ symbol_lines 105 0 names.now) }
    ensures err { OnErr result (Extends text.old.items text.new.items) }
{
    for (place, name) in names.iter().enumerate() {
        put_symbol(text, b'i', place, *name)?;
    }
    Ok(())
}

fn put_output_symbols(text: &mut Vec<u8>, outputs: &[Output]) -> Result<(), NoMemory>
    ensures ok { OnOk result (text.new.items ≡ text.old.items ++ symbol_lines 111 0
        (names_of (map output_of outputs.now))) }
    ensures err { OnErr result (Extends text.old.items text.new.items) }
{
    for (place, output) in outputs.iter().enumerate() {
        put_symbol(text, b'o', place, output.var)?;
    }
    Ok(())
}

fn put_symbol(text: &mut Vec<u8>, letter: u8, place: usize, name: u32) -> Result<(), NoMemory>
    ensures ok { OnOk result (text.new.items ≡ text.old.items ++ symbol_line letter place name) }
    ensures err { OnErr result (Extends text.old.items text.new.items) }
{
    text.push(letter)?;
    put_word(text, place)?;
    put_line(text, name as usize)
}
