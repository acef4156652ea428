// IN is read whole, and PROOF as far as it counts.
ghost use Rattle.std.specs.Prelude.{◌≡◌, ◌≢◌, IfSome, true, false};
ghost use Rattle.q_io.specs.Files.{RoseAmong, RoseFor, bytes_at};
ghost use Rattle.q_command.specs.Checks.{input_then};
ghost use Rattle.q_command.specs.FirstFaults.{FaultAt};
ghost use Rattle.q_command.specs.Reading.{OnlyReadsFiles};
ghost use Rattle.q_command.specs.Parts.{IsWhole, share_of};
ghost use Rattle.q_command.specs.declared.status.Status.TheVariants as status;
ghost use Rattle.q_run_disprove.specs.DisprovedLines.{status_of_disproved};
ghost use Rattle.q_run_disprove.specs.Disproofs.{files_of, names_read, refused_input as input_refused};
ghost use Rattle.q_run_disprove.specs.HintedDisproofs.{Disproves, SaysOfFiles};
ghost use Rattle.q_run_disprove.specs.JudgedReadings.{SaysOfBytes};
ghost use Rattle.q_run_disprove.specs.Readings.{IsReady};

use crate::disproved::Disproved;
use crate::form::Form;
use crate::names::DisproveNames;
use crate::reading::{Reading, read_proof};
use crate::verdict::Verdict;
use q_command::{InputError, PIECE, Part, read_input};
use q_io::Files;
use q_logic::Formula;
use std::alloc::Global;

pub(crate) fn refused_input(error: InputError) -> Disproved
    ensures { result ≡ input_refused error }
{
    match error {
        InputError::Refused { line, cause } => Disproved::RefusedInput { line, cause },
        InputError::Fault => Disproved::ReadFault,
        InputError::NoMemory => Disproved::NoMemory,
    }
}

/// How the reading of a proof ends that begins with a formula, where steps of the part are judged and counted; by hints all are.
pub(crate) fn judge<F: Files>(
    alloc: Global,
    files: &mut F,
    name: &str,
    formula: Formula,
    form: Form,
    part: Part,
) -> Verdict
    requires whole { form.keeps ≡ true → IsWhole (share_of part) }
    requires apart { form.hints ≡ true → form.keeps ≡ false }
    ensures says { IfSome (F.held files.old) (λ disk.
        SaysOfBytes form (share_of part) result formula (bytes_at disk name.now)) }
    ensures ready { IsReady result }
    ensures fault { result.outcome ≡ Disproved.ReadFault
        → RoseFor F.read_faults name.now files.old files.new }
    ensures only_reads { OnlyReadsFiles F.Files files.old files.new }
{
    let Ok(mut room) = vec![in alloc; 0u8; PIECE] else {
        return Verdict::of(Disproved::NoMemory);
    };
    match Reading::start(alloc, formula, form, part) {
        Ok(reading) => read_proof(files, name, &mut room, reading),
        Err(verdict) => verdict,
    }
}

/// What there is to say over the files of these names, where steps of the part are judged and counted. Where hints count, all steps of a
/// log with hints are judged by these.
pub(crate) fn disprove_shared<F: Files>(
    alloc: Global,
    files: &mut F,
    names: DisproveNames,
    binary: bool,
    hints: bool,
    part: Part,
) -> Disproved
    ensures says { IfSome (F.held files.old) (λ disk.
        SaysOfFiles hints binary (share_of part) result (files_of names.entry) disk) }
    ensures read_fault { status_of_disproved result ≡ status.ReadFault
        → RoseAmong F.read_faults (names_read (files_of names.entry)) files.old files.new }
    ensures read_fault_at { status_of_disproved result ≡ status.ReadFault
        → FaultAt F.read_faults (input_then names.entry.input.now names.entry.proof.now)
        (F.held files.old) (F.held files.new) files.old files.new }
    ensures write_fault { status_of_disproved result ≢ status.WriteFault }
    ensures held { F.held files.new ≡ F.held files.old }
{
    let formula = match read_input(alloc, files, names.input) {
        Ok(formula) => formula,
        Err(error) => return refused_input(error),
    };
    let form = Form {
        binary,
        keeps: false,
        hints,
    };
    let verdict = judge(alloc, files, names.proof, formula, form, part);
    verdict.outcome
}

/// What there is to say of `disprove` over the files of these names.
pub fn disprove_files<F: Files>(
    alloc: Global,
    files: &mut F,
    names: DisproveNames,
    binary: bool,
) -> Disproved
    ensures disproves { IfSome (F.held files.old) (λ disk.
        Disproves result (files_of names.entry) binary disk (F.held files.new)) }
    ensures read_fault { status_of_disproved result ≡ status.ReadFault
        → RoseAmong F.read_faults (names_read (files_of names.entry)) files.old files.new }
    ensures read_fault_at { status_of_disproved result ≡ status.ReadFault
        → FaultAt F.read_faults (input_then names.entry.input.now names.entry.proof.now)
        (F.held files.old) (F.held files.new) files.old files.new }
    ensures write_fault { status_of_disproved result ≢ status.WriteFault }
    ensures held { F.held files.new ≡ F.held files.old }
{
    disprove_shared(alloc, files, names, binary, true, Part::whole())
}
