// The line of a counterexample, which may be of any length.
ghost use Rattle.std.specs.Prelude.{◌≡◌, ◌++◌, IfOk, OnOk};
ghost use Rattle.q_run_validate.specs.ValidatedLines.{invalid_line as invalid_line_spec, literal_text};

use q_logic::{Lit, NoMemory};
use q_text::put_number;
use std::alloc::Global;

fn push_literal(text: &mut Vec<u8>, lit: Lit) -> Result<(), NoMemory>
    ensures { OnOk result (text.new.items ≡ text.old.items ++ literal_text lit) }
{
    text.push(b' ')?;
    put_number(text, i64::from(lit.number()))
}

/// A word, and a number for each literal.
pub fn invalid_line(alloc: Global, lits: &[Lit]) -> Result<Vec<u8>, NoMemory>
    ensures { IfOk result (λ text. text.items ≡ invalid_line_spec lits.now) }
{
    let mut text = Vec::new(alloc);
    text.extend_from_slice(b"invalid")?;
    for lit in lits {
        push_literal(&mut text, *lit)?;
    }
    text.push(b'\n')?;
    Ok(text)
}
