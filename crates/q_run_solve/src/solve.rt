//! `solve`: IN is read, the work is done in memory, LOG and OUT are written, and then the search and CERT follow.
ghost use Rattle.std.specs.Prelude.{◌≡◌, ◌≢◌, [], ◌∷◌, IfSome, OnOk, OnErr, IsErrOf};
ghost use Rattle.q_logic.specs.Prelude.{standard};
ghost use Rattle.q_dimacs.specs.Dimacs.{Dimacs};
ghost use Rattle.q_io.specs.Files.{RoseAmong, Later, bytes_at};
ghost use Rattle.q_command.specs.FirstFaults.{FaultAt};
ghost use Rattle.q_command.specs.declared.status.Status.TheVariants as status;
ghost use Rattle.q_run_solve.specs.SolvedLines.{status_of_solved};
ghost use Rattle.q_run_solve.specs.Reduces.{IsReducedTo, HoldsBoth, MayHoldBoth, out_name, log_name, turns_of_both};
ghost use Rattle.q_run_solve.specs.Solves.{Solves, files_of, refusal_of, names_read, names_written, turns_written};

use crate::concluding::{conclude, unwritten};
use crate::leaving::{text_of, write_both};
use crate::names::SolveNames;
use crate::reducing::{Reduced, reduce};
use crate::solved::Solved;
use q_command::{InputError, read_input};
use q_io::{DeviceError, Files};
use q_sched::Guide;
use std::alloc::Global;

fn refused(error: InputError) -> Solved
    ensures { result ≡ refusal_of error }
{
    match error {
        InputError::Refused { line, cause } => Solved::RefusedInput { line, cause },
        InputError::Fault => Solved::ReadFault,
        InputError::NoMemory => Solved::NoMemory,
    }
}

/// What there is to say of `solve` over the files of these names. The guides are asked which target is tried next.
pub fn solve_files<F: Files>(
    alloc: Global,
    files: &mut F,
    names: SolveNames,
    budget: Option<u64>,
    guides: Vec<Box<dyn Guide>>,
) -> Solved
    requires output_log { names.output.now ≢ names.log.now }
    requires output_cert { names.output.now ≢ names.cert.now }
    requires log_cert { names.log.now ≢ names.cert.now }
    ensures solves { IfSome (F.held files.old) (λ disk.
        Solves result (files_of names.entry) budget disk (F.held files.new)) }
    ensures read_fault { status_of_solved result ≡ status.ReadFault
        → RoseAmong F.read_faults (names_read (files_of names.entry)) files.old files.new }
    ensures write_fault { status_of_solved result ≡ status.WriteFault
        → RoseAmong F.write_faults (names_written (files_of names.entry)) files.old files.new }
    ensures write_fault_at { status_of_solved result ≡ status.WriteFault
        → FaultAt F.write_faults (turns_written (files_of names.entry)) (F.held files.old)
        (F.held files.new) files.old files.new }
{
    let formula = match read_input(alloc, files, names.input) {
        Ok(formula) => formula,
        Err(error) => return refused(error),
    };
    match reduce(alloc, formula, guides) {
        Ok(reduced) => settle(alloc, files, names, budget, &reduced),
        Err(_) => Solved::NoMemory,
    }
}

// Writes LOG and OUT, and then searches.
fn settle<F: Files>(
    alloc: Global,
    files: &mut F,
    names: SolveNames,
    budget: Option<u64>,
    reduced: &Reduced,
) -> Solved
    requires output_log { names.output.now ≢ names.log.now }
    requires output_cert { names.output.now ≢ names.cert.now }
    requires log_cert { names.log.now ≢ names.cert.now }
    requires made { IsReducedTo reduced.now.checked.from reduced.now }
    ensures settles { IfSome (F.held files.old) (λ disk.
        Dimacs standard (bytes_at disk names.entry.input.now) reduced.now.checked.from
        → Solves result (files_of names.entry) budget disk (F.held files.new)) }
    ensures reading { status_of_solved result ≡ status.ReadFault → ⊥ }
    ensures cause { status_of_solved result ≡ status.WriteFault
        → RoseAmong F.write_faults (names_written (files_of names.entry)) files.old files.new }
    ensures cause_at { status_of_solved result ≡ status.WriteFault
        → IfSome (F.held files.old) (λ disk.
        Dimacs standard (bytes_at disk names.entry.input.now) reduced.now.checked.from)
        → FaultAt F.write_faults (turns_written (files_of names.entry)) (F.held files.old)
        (F.held files.new) files.old files.new }
{
    match leave(files, names, reduced) {
        Ok(()) => conclude(alloc, files, names.cert, &reduced.checked, budget),
        Err(error) => unwritten(error),
    }
}

// Writes LOG and OUT.
fn leave<F: Files>(files: &mut F, names: SolveNames, reduced: &Reduced) -> Result<(), DeviceError>
    requires { names.output.now ≢ names.log.now }
    ensures whole { OnOk result
        (IfSome (F.held files.old) (λ disk.
        HoldsBoth names.entry.output.now names.entry.log.now (bytes_at reduced.now.memory out_name)
        (bytes_at reduced.now.memory log_name) disk (F.held files.new))) }
    ensures part { OnErr result
        (IfSome (F.held files.old) (λ disk.
        MayHoldBoth names.entry.output.now names.entry.log.now
        (bytes_at reduced.now.memory out_name) (bytes_at reduced.now.memory log_name) disk
        (F.held files.new))) }
    ensures cause { IsErrOf result DeviceError.Failed
        → RoseAmong F.write_faults (names.entry.output.now ∷ names.entry.log.now ∷ []) files.old
        files.new }
    ensures cause_at { IsErrOf result DeviceError.Failed
        → FaultAt F.write_faults (turns_of_both names.entry.output.now names.entry.log.now
        (bytes_at reduced.now.memory log_name)) (F.held files.old) (F.held files.new) files.old
        files.new }
    ensures later { Later F.read_faults F.write_faults files.old files.new }
{
    let out_text = text_of(&reduced.memory, "OUT");
    let log_text = text_of(&reduced.memory, "LOG");
    write_both(files, names.output, names.log, out_text, log_text)
}
