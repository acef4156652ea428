// IN is read whole, LOG as it is made, and OUT is created when all steps are made.
ghost use Rattle.std.specs.Prelude.{◌≡◌, IfOk, IfErr, IfSome, IsErrOf};
ghost use Rattle.q_io.specs.Files.{RoseAmong, RoseFor, bytes_at};
ghost use Rattle.q_command.specs.Checks.{input_then};
ghost use Rattle.q_command.specs.FirstFaults.{FaultAt};
ghost use Rattle.q_command.specs.Reading.{OnlyReadsFiles};
ghost use Rattle.q_command.specs.declared.status.Status.TheVariants as status;
ghost use Rattle.q_run_apply.specs.AppliedLines.{status_of_applied};
ghost use Rattle.q_run_apply.specs.Applications.{Says, files_of, names_read, names_written};
ghost use Rattle.q_run_apply.specs.Readings.{HasMade, IsMade, IsReached, IsRefusal, LogRefuses, Refused, Reaches, outcome_of, refused_input as input_refused};

use crate::applied::Applied;
use crate::names::ApplyNames;
use crate::reading::{Made, Reading, read_log};
use q_command::{InputError, read_input};
use q_io::{DeviceError, Files, PIECE};
use q_logic::{Formula, NoMemory};
use q_output::write_output;
use std::alloc::Global;

/// The formula to which the whole steps of a log lead, how many they are, and the line on which the log breaks off, if it does.
#[derive(Drop)]
struct Reached {
    formula: Formula,
    steps: u64,
    broken: Option<u64>,
}

fn refused_input(error: InputError) -> Applied
    ensures is { result ≡ input_refused error }
    ensures refusal { IsRefusal result }
{
    match error {
        InputError::Refused { line, cause } => Applied::RefusedInput { line, cause },
        InputError::Fault => Applied::ReadFault,
        InputError::NoMemory => Applied::NoMemory,
    }
}

// The formula behind the steps that are made.
fn formula_behind(alloc: Global, made: &Made) -> Result<Reached, NoMemory>
    ensures reaches { IfOk result (Reaches made.now) }
{
    match made.maker.formula(alloc) {
        Ok(formula) => Ok(Reached {
            formula,
            steps: made.maker.steps(),
            broken: made.broken,
        }),
        Err(NoMemory) => Err(NoMemory),
    }
}

// The steps of the log, made from the formula on.
fn make_log<F: Files>(
    alloc: Global,
    files: &mut F,
    name: &str,
    formula: Formula,
) -> Result<Made, Applied>
    ensures made { IfOk result (λ m. IfSome (F.held files.old)
        (λ disk. IsMade formula (bytes_at disk name.now) m)) }
    ensures refused { IfErr result (λ o. IfSome (F.held files.old)
        (λ disk. LogRefuses o formula (bytes_at disk name.now))) }
    ensures refusal { IfErr result IsRefusal }
    ensures fault { IsErrOf result Applied.ReadFault
        → RoseFor F.read_faults name.now files.old files.new }
    ensures only_reads { OnlyReadsFiles F.Files files.old files.new }
{
    let Ok(mut room) = vec![in alloc; 0u8; PIECE] else {
        return Err(Applied::NoMemory);
    };
    match Reading::start(alloc, formula) {
        Ok(reading) => read_log(files, name, &mut room, reading),
        Err(_) => Err(Applied::NoMemory),
    }
}

// The steps of LOG, made from the formula of IN on.
fn make_steps<F: Files>(alloc: Global, files: &mut F, names: ApplyNames) -> Result<Made, Applied>
    ensures made { IfOk result (λ m. IfSome (F.held files.old)
        (λ disk. HasMade (files_of names.entry) disk m)) }
    ensures refused { IfErr result (λ o. IfSome (F.held files.old)
        (λ disk. Refused o (files_of names.entry) disk)) }
    ensures refusal { IfErr result IsRefusal }
    ensures fault { IsErrOf result Applied.ReadFault
        → RoseAmong F.read_faults (names_read (files_of names.entry)) files.old files.new }
    ensures fault_at { IsErrOf result Applied.ReadFault
        → FaultAt F.read_faults (input_then names.entry.input.now names.entry.log.now)
        (F.held files.old) (F.held files.new) files.old files.new }
    ensures only_reads { OnlyReadsFiles F.Files files.old files.new }
{
    match read_input(alloc, files, names.input) {
        Ok(formula) => make_log(alloc, files, names.log, formula),
        Err(error) => Err(refused_input(error)),
    }
}

// The formula to which the steps of LOG lead. The checker is let go, so that its memory is free.
fn reach<F: Files>(alloc: Global, files: &mut F, names: ApplyNames) -> Result<Reached, Applied>
    ensures reached { IfOk result (λ r. IfSome (F.held files.old)
        (λ disk. IsReached (files_of names.entry) disk r)) }
    ensures refused { IfErr result (λ o. IfSome (F.held files.old)
        (λ disk. Refused o (files_of names.entry) disk)) }
    ensures refusal { IfErr result IsRefusal }
    ensures fault { IsErrOf result Applied.ReadFault
        → RoseAmong F.read_faults (names_read (files_of names.entry)) files.old files.new }
    ensures fault_at { IsErrOf result Applied.ReadFault
        → FaultAt F.read_faults (input_then names.entry.input.now names.entry.log.now)
        (F.held files.old) (F.held files.new) files.old files.new }
    ensures only_reads { OnlyReadsFiles F.Files files.old files.new }
{
    match make_steps(alloc, files, names) {
        Ok(made) => match formula_behind(alloc, &made) {
            Ok(reached) => Ok(reached),
            Err(NoMemory) => Err(Applied::NoMemory),
        },
        Err(outcome) => Err(outcome),
    }
}

// What there is to say of so many steps, once the formula is written.
fn written(steps: u64, broken: Option<u64>) -> Applied
    ensures { result ≡ outcome_of steps broken }
{
    match broken {
        None => Applied::Whole { steps },
        Some(line) => Applied::Broken { steps, line },
    }
}

/// What there is to say of `apply` over the files of these names.
pub fn apply_files<F: Files>(alloc: Global, files: &mut F, names: ApplyNames) -> Applied
    ensures applies { IfSome (F.held files.old) (λ disk.
        Says result (files_of names.entry) disk (F.held files.new)) }
    ensures read_fault { status_of_applied result ≡ status.ReadFault
        → RoseAmong F.read_faults (names_read (files_of names.entry)) files.old files.new }
    ensures read_fault_at { status_of_applied result ≡ status.ReadFault
        → FaultAt F.read_faults (input_then names.entry.input.now names.entry.log.now)
        (F.held files.old) (F.held files.new) files.old files.new }
    ensures write_fault { status_of_applied result ≡ status.WriteFault
        → RoseAmong F.write_faults (names_written (files_of names.entry)) files.old files.new }
{
    let reached = match reach(alloc, files, names) {
        Ok(reached) => reached,
        Err(outcome) => return outcome,
    };
    match write_output(alloc, files, names.output, &reached.formula) {
        Ok(()) => written(reached.steps, reached.broken),
        Err(DeviceError::Failed) => Applied::WriteFault,
        Err(DeviceError::NoMemory) => Applied::NoMemory,
    }
}
