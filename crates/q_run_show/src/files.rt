// IN is read whole, PROOF as far as it counts, and HINTED is created when the empty clause is there.
ghost use Rattle.std.specs.Prelude.{◌≡◌, IfSome, IfOk, IfErr, IsErrOf};
ghost use Rattle.q_io.specs.Files.{RoseAmong, RoseFor, bytes_at};
ghost use Rattle.q_command.specs.Checks.{input_refused, input_then};
ghost use Rattle.q_command.specs.declared.outcome.Role.TheVariants.{In};
ghost use Rattle.q_command.specs.FirstFaults.{FaultAt};
ghost use Rattle.q_command.specs.Reading.{OnlyReadsFiles};
ghost use Rattle.q_command.specs.Parts.{share_of};
ghost use Rattle.q_run_annotate.specs.AnnotatedLines.{status_of_annotated};
ghost use Rattle.q_run_disprove.specs.Disproofs.{proof_of};
ghost use Rattle.q_run_show.specs.Shows.{IsShown, NotShown, Shows, files_of, names_read, names_written};
ghost use Rattle.q_run_show.specs.Readings.{IsFault, SaysEnd};

use crate::ending::{Ending, HintedText};
use crate::names::ShowNames;
use crate::reading::read_proof;
use q_command::{InputError, Outcome, PIECE, Part, Role, Status, read_input};
use q_io::{DeviceError, Files, write_whole};
use q_logic::Formula;
use q_run_annotate::Annotated;
use std::alloc::Global;

// IN holds no formula, or can't be read.
fn refused_input(error: InputError) -> Outcome
    ensures { result ≡ input_refused In error }
{
    match error {
        InputError::Refused { line, cause } => Outcome::RefusedInput {
            role: Role::In,
            line,
            cause,
        },
        InputError::Fault => Outcome::ReadFault,
        InputError::NoMemory => Outcome::NoMemory,
    }
}

// How the reading of a proof ends, with room for its pieces.
fn judge<F: Files>(
    alloc: Global,
    files: &mut F,
    name: &str,
    formula: &Formula,
    binary: bool,
    part: Part,
) -> Ending
    ensures says { IfSome (F.held files.old) (λ disk.
        SaysEnd (share_of part) result formula.now (proof_of binary (bytes_at disk name.now))) }
    ensures fault { IsFault result → RoseFor F.read_faults name.now files.old files.new }
    ensures only_reads { OnlyReadsFiles F.Files files.old files.new }
{
    match vec![in alloc; 0u8; PIECE] {
        Ok(mut room) => read_proof(alloc, files, name, &mut room, formula, binary, part),
        Err(_) => Ending::Refused {
            why: Outcome::NoMemory,
        },
    }
}

// The text with hints, of the files as they are.
fn hint_files<F: Files>(
    alloc: Global,
    files: &mut F,
    names: ShowNames,
    binary: bool,
    part: Part,
) -> Result<HintedText, Outcome>
    ensures shown { IfOk result (λ t. IfSome (F.held files.old) (λ disk.
        IsShown (share_of part) t.steps t.text.items (files_of names.entry) binary disk)) }
    ensures refused { IfErr result (λ o. IfSome (F.held files.old)
        (NotShown (share_of part) o (files_of names.entry) binary)) }
    ensures fault { IsErrOf result Outcome.ReadFault
        → RoseAmong F.read_faults (names_read (files_of names.entry)) files.old files.new }
    ensures fault_at { IsErrOf result Outcome.ReadFault
        → FaultAt F.read_faults (input_then names.entry.input.now names.entry.proof.now)
        (F.held files.old) (F.held files.new) files.old files.new }
    ensures only_reads { OnlyReadsFiles F.Files files.old files.new }
{
    let formula = match read_input(alloc, files, names.input) {
        Ok(formula) => formula,
        Err(error) => return Err(refused_input(error)),
    };
    match judge(alloc, files, names.proof, &formula, binary, part) {
        Ending::Shown { hinted } => Ok(hinted),
        Ending::Refused { why } => Err(why),
    }
}

/// What there is to say of `annotate` of a refutation over the files of these names: all steps up to the empty clause are made, and those of
/// the part are judged and written. Where `binary` is set, what can be either is a binary proof.
pub fn show_files<F: Files>(
    alloc: Global,
    files: &mut F,
    names: ShowNames,
    binary: bool,
    part: Part,
) -> Annotated
    ensures shows { IfSome (F.held files.old) (λ disk.
        Shows (share_of part) result (files_of names.entry) binary disk (F.held files.new)) }
    ensures read_fault { status_of_annotated result ≡ Status.ReadFault
        → RoseAmong F.read_faults (names_read (files_of names.entry)) files.old files.new }
    ensures read_fault_at { status_of_annotated result ≡ Status.ReadFault
        → FaultAt F.read_faults (input_then names.entry.input.now names.entry.proof.now)
        (F.held files.old) (F.held files.new) files.old files.new }
    ensures write_fault { status_of_annotated result ≡ Status.WriteFault
        → RoseAmong F.write_faults (names_written (files_of names.entry)) files.old files.new }
{
    let hinted = match hint_files(alloc, files, names, binary, part) {
        Ok(hinted) => hinted,
        Err(why) => return Annotated::Unverified { why },
    };
    match write_whole(files, names.hinted, &hinted.text) {
        Ok(()) => Annotated::Written {
            steps: hinted.steps,
        },
        Err(DeviceError::Failed) => Annotated::WriteFault,
        Err(DeviceError::NoMemory) => Annotated::NoMemory,
    }
}
