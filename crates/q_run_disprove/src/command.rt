// The commands with their lines.
ghost use Rattle.q_command.specs.Devices.{devices};
ghost use Rattle.q_command.specs.Told.{Runs};
ghost use Rattle.q_run_disprove.specs.Certifying.{files_of as certify_files_of, told as told_certified};
ghost use Rattle.q_run_disprove.specs.Disproofs.{files_of};
ghost use Rattle.q_run_disprove.specs.HintedDisproofs.{told};

use crate::certifying::certify_files;
use crate::disproving::disprove_files;
use crate::names::{CertifyNames, DisproveNames};
use q_command::Status;
use q_io::{Files, Sink};
use std::alloc::Global;

/// Does `disprove` over the files of these names, and puts its line. Where `binary` is set, what can be either is a binary proof.
pub fn run<F: Files, S: Sink>(
    alloc: Global,
    files: &mut F,
    out: &mut S,
    names: DisproveNames,
    binary: bool,
) -> Status
    ensures { Runs (told (files_of names.entry) binary)
        (devices F.Files S.Sink files.old out.old) result
        (devices F.Files S.Sink files.new out.new) }
{
    disprove_files(alloc, files, names, binary).say(out)
}

/// Does `disprove` with circuits over the files of these names, and puts its line. Where `binary` is set, what can be either is a binary
/// proof.
pub fn run_certified<F: Files, S: Sink>(
    alloc: Global,
    files: &mut F,
    out: &mut S,
    names: CertifyNames,
    binary: bool,
) -> Status
    ensures { Runs (told_certified (certify_files_of names.entry) binary)
        (devices F.Files S.Sink files.old out.old) result
        (devices F.Files S.Sink files.new out.new) }
{
    certify_files(alloc, files, names, binary).say(out)
}
