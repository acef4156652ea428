// A part of `disprove`: all steps are made up to the empty clause, and those of the part's own blocks are judged.
ghost use Rattle.std.specs.Prelude.{◌≡◌, ◌≢◌, IfSome};
ghost use Rattle.q_io.specs.Files.{RoseAmong};
ghost use Rattle.q_command.specs.Checks.{input_then};
ghost use Rattle.q_command.specs.FirstFaults.{FaultAt};
ghost use Rattle.q_command.specs.Devices.{devices};
ghost use Rattle.q_command.specs.Parts.{share_of};
ghost use Rattle.q_command.specs.Statuses.{status_of};
ghost use Rattle.q_command.specs.Told.{Runs};
ghost use Rattle.q_command.specs.declared.status.Status.TheVariants as status;
ghost use Rattle.q_run_disprove.specs.Disproofs.{files_of, names_read};
ghost use Rattle.q_run_disprove.specs.SharedDisproofs.{PartDisproves, told_by_part as spec_told_by_part, told_part};

use crate::disproved::Disproved;
use crate::disproving::disprove_shared;
use crate::names::DisproveNames;
use q_command::{Outcome, Part, Role, Status};
use q_io::{Files, Sink};
use std::alloc::Global;

// A part that meets nothing wrong says `verified`, since one alone does not show that the formula is false.
fn told_by_part(outcome: Disproved) -> Outcome
    ensures { result ≡ spec_told_by_part outcome }
{
    match outcome {
        Disproved::False { steps } => Outcome::Verified { steps },
        Disproved::RefusedLine { line, cause } => Outcome::RefusedLine { line, cause },
        Disproved::RefusedEnd => Outcome::RefusedEnd { cause: 11 },
        Disproved::RefusedInput { line, cause } => Outcome::RefusedInput {
            role: Role::In,
            line,
            cause,
        },
        Disproved::ReadFault => Outcome::ReadFault,
        Disproved::NoMemory => Outcome::NoMemory,
    }
}

/// What a part of `disprove` says over the files of these names. It looks at no hints.
pub fn disprove_part<F: Files>(
    alloc: Global,
    files: &mut F,
    names: DisproveNames,
    binary: bool,
    part: Part,
) -> Outcome
    ensures disproves { IfSome (F.held files.old) (λ disk.
        PartDisproves (share_of part) result (files_of names.entry) binary disk
        (F.held files.new)) }
    ensures read_fault { status_of result ≡ status.ReadFault
        → RoseAmong F.read_faults (names_read (files_of names.entry)) files.old files.new }
    ensures read_fault_at { status_of result ≡ status.ReadFault
        → FaultAt F.read_faults (input_then names.entry.input.now names.entry.proof.now)
        (F.held files.old) (F.held files.new) files.old files.new }
    ensures write_fault { status_of result ≢ status.WriteFault }
    ensures held { F.held files.new ≡ F.held files.old }
{
    told_by_part(disprove_shared(alloc, files, names, binary, false, part))
}

/// Does a part of `disprove` over the files of these names, and puts its line. Where `binary` is set, what can be either is a binary proof.
pub fn run_part<F: Files, S: Sink>(
    alloc: Global,
    files: &mut F,
    out: &mut S,
    names: DisproveNames,
    binary: bool,
    part: Part,
) -> Status
    ensures { Runs (told_part (files_of names.entry) binary part)
        (devices F.Files S.Sink files.old out.old) result
        (devices F.Files S.Sink files.new out.new) }
{
    disprove_part(alloc, files, names, binary, part).say(out)
}
