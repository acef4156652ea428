// The canonical text of a formula: header, a line for each block, a line for each clause.
ghost use Rattle.std.specs.Prelude.{◌≡◌, ◌≤◌, ◌+◌, ◌++◌, ◌∷◌, [], OnOk, OnErr, IsOk, length, vec_len, vec_capacity, Option, Some, None, map};
ghost use Rattle.q_logic.specs.Prelude.{number_of, blocks};
ghost use Rattle.q_text.specs.Numbers.{number_text, numbers_text, line_end};
ghost use Rattle.q_dimacs.specs.Writing.{quant_text, opening, bound_text, closing, bounds_text, blocks_text, clause_text, matrix_text, greatest_bound, header_text, front_text, formula_text};
ghost use Rattle.q_text.specs.Texts.{Extends};

use q_logic::{Bound, Formula, Lit, NoMemory, Quant};
use q_text::{put_count, put_number};

/// Appends the canonical text of the formula. Where the text has room for it, it takes no memory.
pub fn write(formula: &Formula, text: &mut Vec<u8>) -> Result<(), NoMemory>
    ensures ok { OnOk result (text.new.items ≡ text.old.items ++ formula_text formula.now) }
    ensures err { OnErr result (text.new.items ≡ text.old.items) }
    ensures room { vec_len text.old + length (formula_text formula.now) ≤ vec_capacity text.old
        → IsOk result }
    ensures capacity { vec_capacity text.old ≤ vec_capacity text.new }
{
    let before = text.len();
    let written = put_formula(text, formula);
    if written.is_err() {
        text.truncate(before);
    }
    written
}

fn put_formula(text: &mut Vec<u8>, formula: &Formula) -> Result<(), NoMemory>
    ensures ok { OnOk result (text.new.items ≡ text.old.items ++ formula_text formula.now) }
    ensures err { OnErr result (Extends text.old.items text.new.items) }
    ensures room { vec_len text.old + length (formula_text formula.now) ≤ vec_capacity text.old
        → IsOk result }
    ensures capacity { vec_capacity text.old ≤ vec_capacity text.new }
{
    put_front(text, formula)?;
    put_matrix(text, formula)
}

/// Appends what stands before the clauses: the header, and a line for each block.
pub fn put_front(text: &mut Vec<u8>, formula: &Formula) -> Result<(), NoMemory>
    ensures ok { OnOk result (text.new.items ≡ text.old.items ++ front_text formula.now) }
    ensures err { OnErr result (Extends text.old.items text.new.items) }
    ensures room { vec_len text.old + length (front_text formula.now) ≤ vec_capacity text.old
        → IsOk result }
    ensures capacity { vec_capacity text.old ≤ vec_capacity text.new }
{
    put_header(text, greatest(formula.prefix()), formula.clauses())?;
    put_prefix(text, formula.prefix())
}

// The greatest variable, or 0.
fn greatest(prefix: &[Bound]) -> u32
    ensures { result ≡ greatest_bound prefix.now }
{
    let mut greatest = 0;
    for bound in prefix {
        greatest = bound.var.max(greatest);
    }
    greatest
}

fn put_header(text: &mut Vec<u8>, vars: u32, clauses: usize) -> Result<(), NoMemory>
    ensures ok { OnOk result (text.new.items ≡ text.old.items ++ header_text vars clauses) }
    ensures err { OnErr result (Extends text.old.items text.new.items) }
    ensures room { vec_len text.old + length (header_text vars clauses) ≤ vec_capacity text.old
        → IsOk result }
    ensures capacity { vec_capacity text.old ≤ vec_capacity text.new }
{
    text.extend_from_slice(b"p cnf ")?;
    put_count(text, vars as usize)?;
    text.push(b' ')?;
    put_count(text, clauses)?;
    text.push(b'\n')?;
    Ok(())
}

// A line for each block.
fn put_prefix(text: &mut Vec<u8>, prefix: &[Bound]) -> Result<(), NoMemory>
    ensures ok { OnOk result (text.new.items ≡ text.old.items ++ blocks_text (blocks prefix.now)) }
    ensures err { OnErr result (Extends text.old.items text.new.items) }
    ensures room { vec_len text.old + length (blocks_text (blocks prefix.now))
        ≤ vec_capacity text.old → IsOk result }
    ensures capacity { vec_capacity text.old ≤ vec_capacity text.new }
{
    let mut block = None;
    for bound in prefix {
        put_bound(text, block, *bound)?;
        block = Some(bound.quant);
    }
    put_closing(text, block)?;
    Ok(())
}

// The variable, in the open block or a new one.
fn put_bound(text: &mut Vec<u8>, block: Option<Quant>, bound: Bound) -> Result<(), NoMemory>
    ensures ok { OnOk result (text.new.items ≡ text.old.items ++ bound_text block bound) }
    ensures err { OnErr result (Extends text.old.items text.new.items) }
    ensures room { vec_len text.old + length (bound_text block bound) ≤ vec_capacity text.old
        → IsOk result }
    ensures capacity { vec_capacity text.old ≤ vec_capacity text.new }
{
    put_opening(text, block, bound.quant)?;
    put_number(text, bound.var as i64)?;
    text.push(b' ')?;
    Ok(())
}

fn put_opening(text: &mut Vec<u8>, block: Option<Quant>, quant: Quant) -> Result<(), NoMemory>
    ensures ok { OnOk result (text.new.items ≡ text.old.items ++ opening block quant) }
    ensures err { OnErr result (Extends text.old.items text.new.items) }
    ensures room { vec_len text.old + length (opening block quant) ≤ vec_capacity text.old
        → IsOk result }
    ensures capacity { vec_capacity text.old ≤ vec_capacity text.new }
{
    match (block, quant) {
        (None, Quant::Exists) => text.extend_from_slice(b"e ")?,
        (None, Quant::Forall) => text.extend_from_slice(b"a ")?,
        (Some(Quant::Exists), Quant::Forall) => text.extend_from_slice(b"0\na ")?,
        (Some(Quant::Forall), Quant::Exists) => text.extend_from_slice(b"0\ne ")?,
        _ => {}
    }
    Ok(())
}

fn put_closing(text: &mut Vec<u8>, block: Option<Quant>) -> Result<(), NoMemory>
    ensures ok { OnOk result (text.new.items ≡ text.old.items ++ closing block) }
    ensures err { OnErr result (Extends text.old.items text.new.items) }
    ensures room { vec_len text.old + length (closing block) ≤ vec_capacity text.old → IsOk result }
    ensures capacity { vec_capacity text.old ≤ vec_capacity text.new }
{
    if block.is_some() {
        text.extend_from_slice(b"0\n")?;
    }
    Ok(())
}

// A line for each clause.
fn put_matrix(text: &mut Vec<u8>, formula: &Formula) -> Result<(), NoMemory>
    ensures ok { OnOk result (text.new.items ≡ text.old.items ++ matrix_text formula.now.matrix) }
    ensures err { OnErr result (Extends text.old.items text.new.items) }
    ensures room { vec_len text.old + length (matrix_text formula.now.matrix)
        ≤ vec_capacity text.old → IsOk result }
    ensures capacity { vec_capacity text.old ≤ vec_capacity text.new }
{
    for at in 0..formula.clauses() {
        put_clause(text, formula.clause(at))?;
    }
    Ok(())
}

/// Appends the line of a clause.
pub fn put_clause(text: &mut Vec<u8>, lits: &[Lit]) -> Result<(), NoMemory>
    ensures ok { OnOk result (text.new.items ≡ text.old.items ++ clause_text lits.now) }
    ensures err { OnErr result (Extends text.old.items text.new.items) }
    ensures room { vec_len text.old + length (clause_text lits.now) ≤ vec_capacity text.old
        → IsOk result }
    ensures capacity { vec_capacity text.old ≤ vec_capacity text.new }
{
    for lit in lits {
        put_literal(text, *lit)?;
    }
    text.extend_from_slice(b"0\n")?;
    Ok(())
}

fn put_literal(text: &mut Vec<u8>, lit: Lit) -> Result<(), NoMemory>
    ensures ok { OnOk result (text.new.items ≡ text.old.items ++ number_text (number_of lit)) }
    ensures err { OnErr result (Extends text.old.items text.new.items) }
    ensures room { vec_len text.old + length (number_text (number_of lit)) ≤ vec_capacity text.old
        → IsOk result }
    ensures capacity { vec_capacity text.old ≤ vec_capacity text.new }
{
    put_number(text, lit.number() as i64)?;
    text.push(b' ')?;
    Ok(())
}
