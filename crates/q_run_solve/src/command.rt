// The command with its line.
ghost use Rattle.std.specs.Prelude.{◌≢◌};
ghost use Rattle.q_command.specs.Devices.{devices};
ghost use Rattle.q_command.specs.Told.{Runs};
ghost use Rattle.q_run_solve.specs.Solves.{files_of, told};

use crate::names::SolveNames;
use crate::solve::solve_files;
use q_command::Status;
use q_io::{Files, Sink};
use q_sched::Guide;
use std::alloc::Global;

/// Does `solve` over the files of these names, and puts its line.
pub fn run<F: Files, S: Sink>(
    alloc: Global,
    files: &mut F,
    out: &mut S,
    names: SolveNames,
    budget: Option<u64>,
    guides: Vec<Box<dyn Guide>>,
) -> Status
    requires output_log { names.output.now ≢ names.log.now }
    requires output_cert { names.output.now ≢ names.cert.now }
    requires log_cert { names.log.now ≢ names.cert.now }
    ensures { Runs (told (files_of names.entry) budget)
        (devices F.Files S.Sink files.old out.old) result
        (devices F.Files S.Sink files.new out.new) }
{
    solve_files(alloc, files, names, budget, guides).say(out)
}
