// The command with its line, whole and in part.
ghost use Rattle.q_command.specs.Devices.{devices};
ghost use Rattle.q_command.specs.Told.{Runs};
ghost use Rattle.q_run_annotate.specs.Annotates.{files_of, told};
ghost use Rattle.q_run_annotate.specs.AnnotatedParts.{told as told_part};

use crate::files::{annotate_files, annotate_part};
use crate::names::AnnotateNames;
use q_command::{Part, Status};
use q_io::{Files, Sink};
use std::alloc::Global;

/// Does `annotate` over the files of these names, and puts its line.
pub fn run<F: Files, S: Sink>(
    alloc: Global,
    files: &mut F,
    out: &mut S,
    names: AnnotateNames,
) -> Status
    ensures { Runs (told (files_of names.entry))
        (devices F.Files S.Sink files.old out.old) result
        (devices F.Files S.Sink files.new out.new) }
{
    annotate_files(alloc, files, names).say(out)
}

/// Does a part of `annotate` over the files of these names, and puts its line.
pub fn run_part<F: Files, S: Sink>(
    alloc: Global,
    files: &mut F,
    out: &mut S,
    names: AnnotateNames,
    part: Part,
) -> Status
    ensures { Runs (told_part (files_of names.entry) part)
        (devices F.Files S.Sink files.old out.old) result
        (devices F.Files S.Sink files.new out.new) }
{
    annotate_part(alloc, files, names, part).say(out)
}
