// The text of a formula goes into its file, in pieces.
ghost use Rattle.std.specs.Prelude.{◌≡◌, ◌≤◌, ◌<◌, ◌++◌, List, ℕ, length, OnOk, OnErr, IsErrOf, IfSome};
ghost use Rattle.q_io.specs.Files.{Disk, HoldsBytes, Later, MayHoldFront, RoseFor};
ghost use Rattle.q_dimacs.specs.Writing.{formula_text, matrix_text};
ghost use Rattle.q_output.specs.Outputs.{HoldsSome};

use q_dimacs::{put_clause, put_front};
use q_io::{DeviceError, Files, PIECE};
use q_logic::Formula;
use std::alloc::Global;

// Appends the pending text and clears it, where it has at least so many bytes.
fn put_piece<F: Files>(
    files: &mut F,
    name: &str,
    text: &mut Vec<u8>,
    least: usize,
) -> Result<(), DeviceError>
    requires some { 1 ≤ least }
    ensures short { OnOk result (length text.new.items < least) }
    ensures goes_on { OnOk result ((front : List ℕ) → (before : Disk) →
        HoldsSome name.now front text.old.items before (F.held files.old) →
        HoldsSome name.now front text.new.items before (F.held files.new)) }
    ensures part { OnErr result ((front : List ℕ) → (before : Disk) →
        HoldsSome name.now front text.old.items before (F.held files.old) →
        MayHoldFront name.now front before (F.held files.new)) }
    ensures cause { IsErrOf result DeviceError.Failed
        → RoseFor F.write_faults name.now files.old files.new }
    ensures later { Later F.read_faults F.write_faults files.old files.new }
{
    if text.len() < least {
        return Ok(());
    }
    files.append(name, text)?;
    text.clear();
    Ok(())
}

// The lines of the clauses, behind the text that is pending.
fn put_clauses<F: Files>(
    files: &mut F,
    name: &str,
    formula: &Formula,
    text: &mut Vec<u8>,
) -> Result<(), DeviceError>
    ensures goes_on { OnOk result
        ((front : List ℕ) → (before : Disk)
        → HoldsSome name.now front text.old.items before (F.held files.old)
        → HoldsSome name.now (front ++ matrix_text formula.now.matrix) text.new.items before
        (F.held files.new)) }
    ensures part { OnErr result ((front : List ℕ) → (before : Disk) →
        HoldsSome name.now front text.old.items before (F.held files.old) →
        MayHoldFront name.now (front ++ matrix_text formula.now.matrix) before (F.held files.new)) }
    ensures cause { IsErrOf result DeviceError.Failed
        → RoseFor F.write_faults name.now files.old files.new }
    ensures later { Later F.read_faults F.write_faults files.old files.new }
{
    for at in 0..formula.clauses() {
        put_clause(text, formula.clause(at))?;
        put_piece(files, name, text, PIECE)?;
    }
    Ok(())
}

/// Creates the file with the canonical text of the formula.
pub fn write_output<F: Files>(
    alloc: Global,
    files: &mut F,
    name: &str,
    formula: &Formula,
) -> Result<(), DeviceError>
    ensures whole { OnOk result (IfSome (F.held files.old)
        (λ disk. HoldsBytes name.now (formula_text formula.now) disk (F.held files.new))) }
    ensures part { OnErr result (IfSome (F.held files.old)
        (λ disk. MayHoldFront name.now (formula_text formula.now) disk (F.held files.new))) }
    ensures cause { IsErrOf result DeviceError.Failed
        → RoseFor F.write_faults name.now files.old files.new }
    ensures later { Later F.read_faults F.write_faults files.old files.new }
{
    let mut text = Vec::new(alloc);
    put_front(&mut text, formula)?;
    files.create(name)?;
    put_clauses(files, name, formula, &mut text)?;
    put_piece(files, name, &mut text, 1)
}
