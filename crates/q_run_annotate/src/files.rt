// IN and OUT are read whole, LOG is read once, upward, and HINTED is created when all is checked.
ghost use Rattle.std.specs.Prelude.{◌≡◌, ◌<◌, length, IfOk, IfErr, IfSome, IsErrOf};
ghost use Rattle.q_io.specs.Files.{RoseAmong};
ghost use Rattle.q_command.specs.Reading.{OnlyReadsFiles};
ghost use Rattle.q_command.specs.Checks.{IsUnverified, turns_read};
ghost use Rattle.q_command.specs.FirstFaults.{FaultAt};
ghost use Rattle.q_command.specs.Parts.{share_of};
ghost use Rattle.q_run_annotate.specs.Annotates.{Annotates, files_of, names_read, names_written, three_read};
ghost use Rattle.q_run_annotate.specs.AnnotatedParts.{AnnotatesShared, IsAnnotatedShared, NotAnnotatedShared};
ghost use Rattle.q_run_annotate.specs.AnnotatedLines.{status_of_annotated};

use crate::annotated::Annotated;
use crate::names::AnnotateNames;
use crate::reading::read_log;
use crate::scribe::HintedText;
use q_command::{Names, Outcome, PIECE, Part, Status, read_ends};
use q_io::{DeviceError, Files, write_whole};
use std::alloc::Global;

// The text with hints, read through the buffer.
fn hint_files<F: Files>(
    alloc: Global,
    files: &mut F,
    names: AnnotateNames,
    buffer: &mut [u8],
    part: Part,
) -> Result<HintedText, Outcome>
    requires room { 0 < length buffer.old }
    ensures annotated { IfOk result (λ t. IfSome (F.held files.old)
        (λ disk. IsAnnotatedShared (share_of part) (files_of names.entry) disk t.steps
        t.text.items)) }
    ensures refused { IfErr result
        (λ o. IfSome (F.held files.old)
        (NotAnnotatedShared (share_of part) o (files_of names.entry))) }
    ensures unverified { IfErr result IsUnverified }
    ensures fault { IsErrOf result Outcome.ReadFault
        → RoseAmong F.read_faults (names_read (files_of names.entry)) files.old files.new }
    ensures fault_at { IsErrOf result Outcome.ReadFault
        → FaultAt F.read_faults (turns_read (three_read (files_of names.entry)))
        (F.held files.old) (F.held files.new) files.old files.new }
    ensures only_reads { OnlyReadsFiles F.Files files.old files.new }
{
    let three = Names {
        input: names.input,
        output: names.output,
        log: names.log,
    };
    let ends = match read_ends(alloc, files, three, buffer) {
        Ok(ends) => ends,
        Err(outcome) => return Err(outcome),
    };
    read_log(alloc, files, names.log, buffer, &ends, part)
}

fn hint_with_room<F: Files>(
    alloc: Global,
    files: &mut F,
    names: AnnotateNames,
    part: Part,
) -> Result<HintedText, Outcome>
    ensures annotated { IfOk result (λ t. IfSome (F.held files.old)
        (λ disk. IsAnnotatedShared (share_of part) (files_of names.entry) disk t.steps
        t.text.items)) }
    ensures refused { IfErr result
        (λ o. IfSome (F.held files.old)
        (NotAnnotatedShared (share_of part) o (files_of names.entry))) }
    ensures unverified { IfErr result IsUnverified }
    ensures fault { IsErrOf result Outcome.ReadFault
        → RoseAmong F.read_faults (names_read (files_of names.entry)) files.old files.new }
    ensures fault_at { IsErrOf result Outcome.ReadFault
        → FaultAt F.read_faults (turns_read (three_read (files_of names.entry)))
        (F.held files.old) (F.held files.new) files.old files.new }
    ensures only_reads { OnlyReadsFiles F.Files files.old files.new }
{
    match vec![in alloc; 0u8; PIECE] {
        Ok(mut room) => hint_files(alloc, files, names, &mut room, part),
        Err(_) => Err(Outcome::NoMemory),
    }
}

/// What there is to say of a part of `annotate` over the files of these names: all steps are made, and those of the part are written.
pub fn annotate_part<F: Files>(
    alloc: Global,
    files: &mut F,
    names: AnnotateNames,
    part: Part,
) -> Annotated
    ensures annotates { IfSome (F.held files.old) (λ disk.
        AnnotatesShared (share_of part) result (files_of names.entry) disk (F.held files.new)) }
    ensures read_fault { status_of_annotated result ≡ Status.ReadFault
        → RoseAmong F.read_faults (names_read (files_of names.entry)) files.old files.new }
    ensures read_fault_at { status_of_annotated result ≡ Status.ReadFault
        → FaultAt F.read_faults (turns_read (three_read (files_of names.entry)))
        (F.held files.old) (F.held files.new) files.old files.new }
    ensures write_fault { status_of_annotated result ≡ Status.WriteFault
        → RoseAmong F.write_faults (names_written (files_of names.entry)) files.old files.new }
{
    let hinted = match hint_with_room(alloc, files, names, part) {
        Ok(hinted) => hinted,
        Err(why) => return Annotated::Unverified { why },
    };
    match write_whole(files, names.hinted, &hinted.text) {
        Ok(()) => Annotated::Written {
            steps: hinted.steps,
        },
        Err(DeviceError::Failed) => Annotated::WriteFault,
        Err(DeviceError::NoMemory) => Annotated::NoMemory,
    }
}

/// What there is to say of `annotate` over the files of these names.
pub fn annotate_files<F: Files>(alloc: Global, files: &mut F, names: AnnotateNames) -> Annotated
    ensures annotates { IfSome (F.held files.old) (λ disk.
        Annotates result (files_of names.entry) disk (F.held files.new)) }
    ensures read_fault { status_of_annotated result ≡ Status.ReadFault
        → RoseAmong F.read_faults (names_read (files_of names.entry)) files.old files.new }
    ensures read_fault_at { status_of_annotated result ≡ Status.ReadFault
        → FaultAt F.read_faults (turns_read (three_read (files_of names.entry)))
        (F.held files.old) (F.held files.new) files.old files.new }
    ensures write_fault { status_of_annotated result ≡ Status.WriteFault
        → RoseAmong F.write_faults (names_written (files_of names.entry)) files.old files.new }
{
    annotate_part(alloc, files, names, Part::whole())
}
