//! The lines behind the header.
ghost use Rattle.std.specs.Prelude.{◌≡◌, ◌<◌, ◌≤◌, ◌+◌, ◌^◌, ℕ, suc, true, length, OnOk, IsTrue};
ghost use Rattle.q_aiger.specs.Lines.{words, lines_of};
ghost use Rattle.q_aiger.specs.Headers.{header_view};
ghost use Rattle.q_aiger.specs.Items.{items_of};
ghost use Rattle.q_aiger.specs.Symbols.{symbol_of, names_from, names_at_end, all_named};
ghost use Rattle.q_aiger.specs.Standing.{Answers};
ghost use Rattle.q_aiger.specs.Bodies.{behind_view, TakesLine, TakesSymbol, ReadsNames};

use crate::error::{AigerError, Cause};
use crate::header::Header;
use crate::items::Items;
use crate::lines::next_line;
use crate::symbols::{Names, Symbol, read_symbol};
use std::alloc::Global;

/// What the lines of items have said, the number of the next line, and what is left of the text.
#[derive(Drop)]
pub struct Behind<'a> {
    pub items: Items,
    pub line: u64,
    pub rest: &'a [u8],
}

/// Reads the lines of inputs, outputs and gates, of which the first is line 2; the file ends on line `last`.
pub fn read_items<'a>(
    alloc: Global,
    header: Header,
    text: &'a [u8],
    last: u64,
) -> Result<Behind<'a>, AigerError>
    requires max { header.max ≤ 268435456 }
    requires inputs { header.inputs ≤ 268435456 }
    requires outputs { header.outputs ≤ 576460752303423488 }
    requires gates { header.gates ≤ 268435456 }
    ensures answer { Answers result (items_of (header_view header) last (lines_of text.now))
        behind_view }
{
    let mut items = Items::new(alloc);
    let mut line = 2;
    let mut rest = text;
    for _ in 0..header.inputs + header.outputs + header.gates {
        rest = take_line(&mut items, header, rest, line, last)?;
        line += 1;
    }
    Ok(Behind { items, line, rest })
}

// Takes the first line of a text, and gives what stands behind it.
fn take_line<'a>(
    items: &mut Items,
    header: Header,
    text: &'a [u8],
    line: u64,
    last: u64,
) -> Result<&'a [u8], AigerError>
    requires { header.max ≤ 268435456 }
    ensures { TakesLine result (header_view header) last line items.old
        (lines_of text.now) items.new }
{
    let Some((first, rest)) = next_line(text) else {
        return Err(AigerError::Refused {
            line: last,
            cause: Cause::Unended as u8,
        });
    };
    items.take(header, first, line)?;
    Ok(rest)
}

/// Reads the symbols, of which the first may stand on this line; the file ends on line `last`.
pub fn read_names(
    text: &[u8],
    line: u64,
    last: u64,
    inputs: &mut Names,
    outputs: &mut Names,
) -> Result<(), AigerError>
    requires { line + length (lines_of text.now) < 2 ^ 64 }
    ensures names { ReadsNames result (names_from last line (record {
      inputs = inputs.old;
      outputs = outputs.old;
    }) (lines_of text.now)) inputs.new outputs.new }
    ensures inputs { OnOk result (length inputs.new ≡ length inputs.old) }
    ensures outputs { OnOk result (length outputs.new ≡ length outputs.old) }
    ensures inputs_named { OnOk result (all_named inputs.new ≡ true) }
    ensures outputs_named { OnOk result (all_named outputs.new ≡ true) }
{
    let mut at = line;
    let mut rest = text;
    while let Some((first, behind)) = next_line(rest) {
        if !take_symbol(first, at, inputs, outputs)? {
            return end_names(last, inputs, outputs);
        }
        rest = behind;
        at += 1;
    }
    end_names(last, inputs, outputs)
}

// The end of the symbols: each place has to have its name.
fn end_names(last: u64, inputs: &Names, outputs: &Names) -> Result<(), AigerError>
    ensures names { ReadsNames result (names_at_end last (record {
      inputs = inputs.now;
      outputs = outputs.now;
    })) inputs.now outputs.now }
    ensures inputs_named { OnOk result (all_named inputs.now ≡ true) }
    ensures outputs_named { OnOk result (all_named outputs.now ≡ true) }
{
    if inputs.are_all() && outputs.are_all() {
        return Ok(());
    }
    Err(AigerError::Refused {
        line: last,
        cause: Cause::BadSymbol as u8,
    })
}

// Takes a symbol line, and answers whether others may follow.
fn take_symbol(
    line: &[u8],
    at: u64,
    inputs: &mut Names,
    outputs: &mut Names,
) -> Result<bool, AigerError>
    ensures turn { TakesSymbol result at (symbol_of (words line.now)) (record {
      inputs = inputs.old;
      outputs = outputs.old;
    }) (record { inputs = inputs.new; outputs = outputs.new }) }
    ensures inputs { OnOk result (length inputs.new ≡ length inputs.old) }
    ensures outputs { OnOk result (length outputs.new ≡ length outputs.old) }
{
    match read_symbol(line) {
        Symbol::Nothing => Ok(true),
        Symbol::Comment => Ok(false),
        Symbol::Input(place, name) => {
            inputs.give(place, name, at)?;
            Ok(true)
        }
        Symbol::Output(place, name) => {
            outputs.give(place, name, at)?;
            Ok(true)
        }
        Symbol::Strange => Err(AigerError::Refused {
            line: at,
            cause: Cause::BadSymbol as u8,
        }),
    }
}
