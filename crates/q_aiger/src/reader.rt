//! Circuits of a whole file.
ghost use Rattle.std.specs.Prelude.{◌≡◌, ◌<◌, ◌≤◌, ◌+◌, ◌^◌, length, take, IfOk, IfErr, Ok, true};
ghost use Rattle.q_gates.specs.Uses.{IsFirstCycle};
ghost use Rattle.q_aiger.specs.Lines.{lines_of};
ghost use Rattle.q_aiger.specs.Headers.{header_view};
ghost use Rattle.q_aiger.specs.Items.{IsOnTheWay};
ghost use Rattle.q_aiger.specs.Symbols.{all_named};
ghost use Rattle.q_aiger.specs.Circuits.{parse, items_in, circuits_of, AreCircuits, FailsWith};
ghost use Rattle.q_aiger.specs.Grammar.{Circuits, IsNoFile};
ghost use Rattle.q_aiger.specs.Standing.{Answers};
ghost use Rattle.q_aiger.specs.Modest.{IsModest};
ghost use Rattle.q_aiger.specs.Written.{written_view, IsWritten};

use crate::body::{read_items, read_names};
use crate::error::{AigerError, Cause};
use crate::header::{Header, read_header};
use crate::items::Items;
use crate::lines::{last_line, next_line};
use crate::making::make;
use crate::operands::{resolve_gates, resolve_outputs};
use crate::symbols::Names;
use q_aig::Certificate;
use q_gates::{Gate, Operand, Sorted, sort_gates};
use std::alloc::Global;

// So many bytes a file may have.
const MOST_BYTES: usize = 1_099_511_627_776;

/// What a file says, with the gates in the order of their lines.
#[derive(Drop)]
pub struct Written {
    inputs: Names,
    names: Names,
    gates: Vec<Gate>,
    outputs: Vec<Operand>,
}

/// Reads the circuits of a file. They are given exactly where the bytes are in the grammar, and a refusal is the first
/// offence.
pub fn read(alloc: Global, bytes: &[u8]) -> Result<Certificate, AigerError>
    ensures ok { IfOk result (AreCircuits bytes.now) }
    ensures grammar { IfOk result (Circuits bytes.now) }
    ensures err { IfErr result (FailsWith bytes.now) }
    ensures no_file { IfErr result (IsNoFile bytes.now) }
{
    read_circuits(alloc, bytes)
}

// The circuits of a file, or its first offence.
fn read_circuits(alloc: Global, bytes: &[u8]) -> Result<Certificate, AigerError>
    ensures ok { IfOk result (AreCircuits bytes.now) }
    ensures err { IfErr result (FailsWith bytes.now) }
{
    let written = read_lines(alloc, bytes)?;
    sorted(alloc, bytes, &written)
}

// The circuits, with the gates in an order in which operands come first.
fn sorted(alloc: Global, _bytes: &[u8], written: &Written) -> Result<Certificate, AigerError>
    requires parsed { parse _bytes.now ≡ Ok (written_view written.now) }
    requires lawful { IsWritten written.now }
    ensures ok { IfOk result (AreCircuits _bytes.now) }
    ensures err { IfErr result (FailsWith _bytes.now) }
{
    match sort_gates(alloc, &written.gates)? {
        Sorted::Order(order) => Ok(make(
            alloc,
            written.inputs.as_slice(),
            &written.gates,
            &order,
            written.names.as_slice(),
            &written.outputs,
        )?),
        Sorted::Cycle(gate) => Err(cyclic(_bytes, written, gate)),
    }
}

// The refusal for the first gate that depends on itself.
fn cyclic(_bytes: &[u8], written: &Written, gate: usize) -> AigerError
    requires parsed { parse _bytes.now ≡ Ok (written_view written.now) }
    requires lawful { IsWritten written.now }
    requires first { IsFirstCycle (written_view written.now).gates gate }
    ensures { FailsWith _bytes.now result }
{
    let inputs = written.inputs.as_slice().len();
    let outputs = written.names.as_slice().len();
    AigerError::Refused {
        line: (2 + inputs + outputs + gate) as u64,
        cause: Cause::Cycle as u8,
    }
}

// What the lines say.
fn read_lines(alloc: Global, bytes: &[u8]) -> Result<Written, AigerError>
    ensures answer { Answers result (parse bytes.now) written_view }
    ensures lawful { IfOk result IsWritten }
{
    let Some((first, rest)) = next_line(bytes) else {
        return Err(refused(1, Cause::BadHeader as u8));
    };
    let header = match read_header(first) {
        Ok(header) => header,
        Err(cause) => return Err(refused(1, cause)),
    };
    if bytes.len() > MOST_BYTES {
        return Err(refused(last_line(front(bytes, MOST_BYTES)), Cause::Limit as u8));
    }
    read_body(alloc, header, rest, last_line(bytes))
}

// The first bytes.
fn front(bytes: &[u8], len: usize) -> &[u8]
    requires { len ≤ length bytes.now }
    ensures { result.now ≡ take len bytes.now }
{
    &bytes[..len]
}

fn refused(line: u64, cause: u8) -> AigerError
    ensures { result ≡ AigerError.Refused line cause }
{
    AigerError::Refused { line, cause }
}

// What the lines behind the header say.
fn read_body(alloc: Global, header: Header, text: &[u8], last: u64) -> Result<Written, AigerError>
    requires modest { IsModest header }
    requires few { length (lines_of text.now) < 2 ^ 62 }
    ensures answer { Answers result (items_in last (lines_of text.now) (header_view header))
        written_view }
    ensures lawful { IfOk result IsWritten }
{
    let behind = read_items(alloc, header, text, last)?;
    let mut inputs = Names::new(alloc, header.inputs as usize)?;
    let mut names = Names::new(alloc, header.outputs as usize)?;
    read_names(behind.rest, behind.line, last, &mut inputs, &mut names)?;
    resolve(alloc, header, &behind.items, inputs, names)
}

// What the literals of the file stand for.
fn resolve(
    alloc: Global,
    header: Header,
    items: &Items,
    inputs: Names,
    names: Names,
) -> Result<Written, AigerError>
    requires modest { IsModest header }
    requires counts { IsOnTheWay (header_view header) items.now 0 }
    requires inputs { length inputs ≡ header.inputs }
    requires names { length names ≡ header.outputs }
    requires inputs_named { all_named inputs ≡ true }
    requires names_named { all_named names ≡ true }
    ensures answer { Answers result (circuits_of (header_view header) items.now
        (record { inputs = inputs; outputs = names })) written_view }
    ensures lawful { IfOk result IsWritten }
{
    let first = header.inputs as u32;
    let outputs = resolve_outputs(alloc, items, first, 2 + header.inputs)?;
    let gates = resolve_gates(alloc, items, first, 2 + header.inputs + header.outputs)?;
    Ok(Written {
        inputs,
        names,
        gates,
        outputs,
    })
}
