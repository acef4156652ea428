// The command with its line.
ghost use Rattle.q_command.specs.Devices.{devices};
ghost use Rattle.q_command.specs.Told.{Runs};
ghost use Rattle.q_run_refute.specs.Refutes.{files_of, told};

use crate::names::RefuteNames;
use crate::refute::refute_files;
use q_command::Status;
use q_io::{Files, Sink};
use std::alloc::Global;

/// Does `refute` over the files of these names, and puts its line.
pub fn run<F: Files, S: Sink>(
    alloc: Global,
    files: &mut F,
    out: &mut S,
    names: RefuteNames,
) -> Status
    ensures { Runs (told (files_of names.entry))
        (devices F.Files S.Sink files.old out.old) result
        (devices F.Files S.Sink files.new out.new) }
{
    refute_files(alloc, files, names).say(out)
}
