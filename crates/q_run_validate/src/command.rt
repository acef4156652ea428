// The command with its line.
ghost use Rattle.q_command.specs.Devices.{devices};
ghost use Rattle.q_command.specs.Told.{Runs};
ghost use Rattle.q_run_validate.specs.Validates.{files_of, told};

use crate::names::ValidateNames;
use crate::validating::validate_files;
use q_command::Status;
use q_io::{Files, Sink};
use std::alloc::Global;

/// Does `validate` over the files of these names, and puts its line.
pub fn run<F: Files, S: Sink>(
    alloc: Global,
    files: &mut F,
    out: &mut S,
    names: ValidateNames,
    budget: Option<u64>,
) -> Status
    ensures { Runs (told (files_of names.entry) budget)
        (devices F.Files S.Sink files.old out.old) result
        (devices F.Files S.Sink files.new out.new) }
{
    validate_files(alloc, files, names, budget).say(out)
}
