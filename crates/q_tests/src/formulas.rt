// Formulas as rows write them: `a 1, e 2 3; {1 2} {-3}`, the blocks from the outermost on, then the clauses, whose ids are
// 0, 1 and so on. `nothing` is the formula without clauses and without a prefix.
use crate::trouble::Trouble;
use q_dimacs::{ReadError, read};
use q_logic::{Bound, Formula, Limits, Lit, Quant};
use std::alloc::Global;

/// The formula that a row writes.
pub(crate) fn formula_of(alloc: Global, text: &str) -> Result<Formula, Trouble> {
    let dimacs = dimacs_of(alloc, text)?;
    match read(alloc, Limits::standard(), dimacs.as_bytes()) {
        Ok(formula) => Ok(formula),
        Err(ReadError::NoMemory) => Err(Trouble::NoMemory),
        Err(ReadError::Refused { .. }) => Err(Trouble::Unreadable("a formula")),
    }
}

fn dimacs_of(alloc: Global, text: &str) -> Result<String, Trouble> {
    if text == "nothing" {
        return Ok(String::from_str(alloc, "p cnf 0 0\n")?);
    }
    let Some((blocks, clauses)) = text.split_once(';') else {
        return Err(Trouble::Unreadable("a formula without `;`"));
    };
    let count = clauses.bytes().filter(|byte| *byte == b'{').count();
    let mut dimacs = format!(in alloc; "p cnf 16777215 {count}\n")?;
    push_blocks(&mut dimacs, blocks)?;
    push_clauses(&mut dimacs, clauses)?;
    Ok(dimacs)
}

fn push_blocks(dimacs: &mut String, blocks: &str) -> Result<(), Trouble> {
    if blocks.is_empty() {
        return Ok(());
    }
    for block in blocks.split(", ") {
        dimacs.push_str(block)?;
        dimacs.push_str(" 0\n")?;
    }
    Ok(())
}

fn push_clauses(dimacs: &mut String, clauses: &str) -> Result<(), Trouble> {
    for clause in clauses.split('{').skip(1) {
        let Some((lits, _)) = clause.split_once('}') else {
            return Err(Trouble::Unreadable("a clause without `}`"));
        };
        dimacs.push_str(lits)?;
        dimacs.push_str(" 0\n")?;
    }
    Ok(())
}

/// How a row writes the formula, its clauses in ascending order.
pub(crate) fn formula_text(alloc: Global, formula: &Formula) -> Result<String, Trouble> {
    let mut text = String::new(alloc);
    if formula.prefix().is_empty() && formula.clauses() == 0 {
        text.push_str("nothing")?;
        return Ok(text);
    }
    push_prefix(&mut text, formula.prefix())?;
    text.push_str(";")?;
    push_matrix(alloc, &mut text, formula)?;
    Ok(text)
}

fn push_prefix(text: &mut String, prefix: &[Bound]) -> Result<(), Trouble> {
    let mut last = None;
    for bound in prefix {
        if last != Some(bound.quant) {
            push_block_start(text, bound.quant)?;
        }
        push_number(text, i64::from(bound.var))?;
        last = Some(bound.quant);
    }
    Ok(())
}

fn push_block_start(text: &mut String, quant: Quant) -> Result<(), Trouble> {
    if !text.is_empty() {
        text.push_str(", ")?;
    }
    match quant {
        Quant::Exists => text.push_str("e")?,
        Quant::Forall => text.push_str("a")?,
    }
    Ok(())
}

fn push_number(text: &mut String, number: i64) -> Result<(), Trouble> {
    write!(text, " {number}")?;
    Ok(())
}

fn push_matrix(alloc: Global, text: &mut String, formula: &Formula) -> Result<(), Trouble> {
    let mut clauses = Vec::new(alloc);
    for at in 0..formula.clauses() {
        clauses.push(formula.clause(at))?;
    }
    clauses.sort()?;
    for clause in clauses {
        text.push_str(" ")?;
        push_clause(text, clause)?;
    }
    Ok(())
}

/// A clause in braces.
pub(crate) fn push_clause(text: &mut String, clause: &[Lit]) -> Result<(), Trouble> {
    let mut is_first = true;
    text.push_str("{")?;
    for lit in clause {
        if !is_first {
            text.push_str(" ")?;
        }
        is_first = false;
        push_lit(text, *lit)?;
    }
    text.push_str("}")?;
    Ok(())
}

/// A literal as it is written in a clause.
pub(crate) fn push_lit(text: &mut String, lit: Lit) -> Result<(), Trouble> {
    write!(text, "{}", lit.number())?;
    Ok(())
}
