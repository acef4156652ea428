// The command with its line.
ghost use Rattle.q_command.specs.Devices.{devices};
ghost use Rattle.q_command.specs.Told.{Runs};
ghost use Rattle.q_run_apply.specs.Applications.{files_of, told};

use crate::applying::apply_files;
use crate::names::ApplyNames;
use q_command::Status;
use q_io::{Files, Sink};
use std::alloc::Global;

/// Does `apply` over the files of these names, and puts its line.
pub fn run<F: Files, S: Sink>(
    alloc: Global,
    files: &mut F,
    out: &mut S,
    names: ApplyNames,
) -> Status
    ensures { Runs (told (files_of names.entry))
        (devices F.Files S.Sink files.old out.old) result
        (devices F.Files S.Sink files.new out.new) }
{
    apply_files(alloc, files, names).say(out)
}
