//! The canonical text of clauses: the header, and a line for each.
ghost use Rattle.std.specs.Prelude.{◌≡◌, ◌≤◌, ◌<◌, ◌^◌, ◌++◌, OnOk, OnErr, length};
ghost use Rattle.std.specs.List.{AllByRecursion};
ghost use Rattle.q_text.specs.Texts.{Extends};
ghost use Rattle.q_dimacs.specs.Building.{greatest as greatest_of, greatest_in};
ghost use Rattle.q_dimacs.specs.Writing.{header_text, matrix_text};
ghost use Rattle.q_cnf.specs.Cnf.{AreVariables, cnf_text};

use q_dimacs::put_clause;
use q_logic::{Clauses, Lit, NoMemory};
use q_text::put_count;

// The greatest variable of a clause, or 0.
fn greatest_var(clause: &[Lit]) -> u32
    ensures value { result ≡ greatest_in clause.now }
    ensures variables { AllByRecursion (λ l. (1 ≤ l.var) × (l.var < 2 ^ 31)) clause.now }
{
    let mut greatest = 0;
    for lit in clause {
        greatest = lit.var().max(greatest);
    }
    greatest
}

// The greatest variable of the clauses, or 0.
fn greatest(clauses: &Clauses) -> u32
    ensures value { result ≡ greatest_of clauses.now }
    ensures variables { AreVariables clauses.now }
{
    let mut greatest = 0;
    for at in 0..clauses.len() {
        greatest = greatest_var(clauses.clause(at)).max(greatest);
    }
    greatest
}

fn put_header(text: &mut Vec<u8>, vars: u32, clauses: usize) -> Result<(), NoMemory>
    ensures ok { OnOk result (text.new.items ≡ text.old.items ++ header_text vars clauses) }
    ensures err { OnErr result (Extends text.old.items text.new.items) }
{
    text.extend_from_slice(b"p cnf ")?;
    put_count(text, vars as usize)?;
    text.push(b' ')?;
    put_count(text, clauses)?;
    text.push(b'\n')?;
    Ok(())
}

fn put_matrix(text: &mut Vec<u8>, clauses: &Clauses) -> Result<(), NoMemory>
    ensures ok { OnOk result (text.new.items ≡ text.old.items ++ matrix_text clauses.now) }
    ensures err { OnErr result (Extends text.old.items text.new.items) }
{
    for at in 0..clauses.len() {
        put_clause(text, clauses.clause(at))?;
    }
    Ok(())
}

/// Appends the text of the clauses.
pub fn write_cnf(clauses: &Clauses, text: &mut Vec<u8>) -> Result<(), NoMemory>
    ensures ok { OnOk result (text.new.items ≡ text.old.items ++ cnf_text clauses.now) }
    ensures err { OnErr result (Extends text.old.items text.new.items) }
    ensures variables { AreVariables clauses.now }
{
    let vars = greatest(clauses);
    put_header(text, vars, clauses.len())?;
    put_matrix(text, clauses)
}
