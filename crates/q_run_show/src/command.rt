// The command with its line.
ghost use Rattle.q_command.specs.Devices.{devices};
ghost use Rattle.q_command.specs.Told.{Runs};
ghost use Rattle.q_run_show.specs.Shows.{files_of, told};

use crate::files::show_files;
use crate::names::ShowNames;
use q_command::{Part, Status};
use q_io::{Files, Sink};
use std::alloc::Global;

/// Does `annotate` of a refutation, or a part of it, over the files of these names, and puts its line. Where `binary` is set, what can be
/// either is a binary proof.
pub fn run<F: Files, S: Sink>(
    alloc: Global,
    files: &mut F,
    out: &mut S,
    names: ShowNames,
    binary: bool,
    part: Part,
) -> Status
    ensures { Runs (told (files_of names.entry) binary part)
        (devices F.Files S.Sink files.old out.old) result
        (devices F.Files S.Sink files.new out.new) }
{
    show_files(alloc, files, names, binary, part).say(out)
}
