//! The command with its line.
ghost use Rattle.q_command.specs.Devices.{devices};
ghost use Rattle.q_command.specs.Told.{Runs};
ghost use Rattle.q_run_miter.specs.Mitering.{files_of, told};

use crate::mitering::miter_files;
use crate::names::MiterNames;
use q_command::Status;
use q_encode::Side;
use q_io::{Files, Sink};
use std::alloc::Global;

/// Does `miter` over the files of these names, and puts its line.
pub fn run<F: Files, S: Sink>(
    alloc: Global,
    files: &mut F,
    out: &mut S,
    names: MiterNames,
    side: Side,
) -> Status
    ensures { Runs (told (files_of names.entry) side)
        (devices F.Files S.Sink files.old out.old) result
        (devices F.Files S.Sink files.new out.new) }
{
    miter_files(alloc, files, names, side).say(out)
}
