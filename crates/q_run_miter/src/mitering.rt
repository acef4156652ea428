//! IN is read, then CERT; then the circuits are tested, then their clauses are made, and at last OUT is written.
ghost use Rattle.std.specs.Prelude.{◌≡◌, IfOk, IfErr, IfSome};
ghost use Rattle.q_io.specs.Files.{RoseAmong, RoseFor};
ghost use Rattle.q_command.specs.Checks.{input_then};
ghost use Rattle.q_command.specs.FirstFaults.{FaultAt};
ghost use Rattle.q_command.specs.declared.status.Status.TheVariants as status;
ghost use Rattle.q_run_miter.specs.MiteredLines.{status_of_mitered};
ghost use Rattle.q_run_miter.specs.Mitering.{AreMade, CircuitsFail, Miters, Puts, failed_write as write_failed, files_of, refused_circuits as circuits_refused, refused_input as input_refused, refused_text as text_refused, names_read, names_written};

use crate::mitered::Mitered;
use crate::names::MiterNames;
use q_aig::Certificate;
use q_certificate::{Misfit, fitting_circuits_are_lawful, test};
use q_cnf::write_cnf;
use q_command::{CircuitsError, InputError, Unfit, read_circuits, read_input};
use q_encode::{EncodeError, Side, encode, turn};
use q_io::{DeviceError, Files, write_whole};
use q_logic::{Clauses, Formula};
use std::alloc::Global;

fn refused_input(error: InputError) -> Mitered
    ensures { result ≡ input_refused error }
{
    match error {
        InputError::Refused { line, cause } => Mitered::RefusedInput { line, cause },
        InputError::Fault => Mitered::ReadFault,
        InputError::NoMemory => Mitered::NoMemory,
    }
}

fn refused_text(error: CircuitsError) -> Mitered
    ensures { result ≡ text_refused error }
{
    match error {
        CircuitsError::Refused { line, cause } => Mitered::RefusedText { line, cause },
        CircuitsError::Fault => Mitered::ReadFault,
        CircuitsError::NoMemory => Mitered::NoMemory,
    }
}

fn unfit(why: Unfit) -> Mitered
    ensures { result ≡ Mitered.RefusedCircuits why }
{
    Mitered::RefusedCircuits { why }
}

fn refused_circuits(error: Misfit) -> Mitered
    ensures { result ≡ circuits_refused error }
{
    match error {
        Misfit::MissingOutput { var } => unfit(Unfit::MissingOutput { var }),
        Misfit::StrangeOutput { var } => unfit(Unfit::StrangeOutput { var }),
        Misfit::StrangeInput { var } => unfit(Unfit::StrangeInput { var }),
        Misfit::Reads { var, other } => unfit(Unfit::Reads { var, input: other }),
        Misfit::NoMemory => Mitered::NoMemory,
    }
}

fn unwritten(error: DeviceError) -> Mitered
    ensures { result ≡ write_failed error }
{
    match error {
        DeviceError::Failed => Mitered::WriteFault,
        DeviceError::NoMemory => Mitered::NoMemory,
    }
}

// The clauses of circuits that fit.
fn make_clauses(
    alloc: Global,
    side: Side,
    formula: &Formula,
    given: &mut Certificate,
) -> Result<Clauses, Mitered>
    ensures made { IfOk result (AreMade side formula.now given.old) }
    ensures refused { IfErr result (λ o. CircuitsFail o side formula.now given.old) }
{
    let Ok(prefix) = turn(alloc, side, formula.prefix()) else {
        return Err(Mitered::NoMemory);
    };
    match test(alloc, &prefix, given) {
        Ok(()) => {}
        Err(error) => return Err(refused_circuits(error)),
    }
    fitting_circuits_are_lawful(given);
    match encode(alloc, side, formula, given) {
        Ok(clauses) => Ok(clauses),
        Err(EncodeError::TooLarge) => Err(Mitered::TooLarge),
        Err(EncodeError::NoMemory) => Err(Mitered::NoMemory),
    }
}

// Creates OUT with the text of the clauses.
fn write_miter<F: Files>(alloc: Global, files: &mut F, output: &str, clauses: &Clauses) -> Mitered
    ensures puts { IfSome (F.held files.old)
        (λ disk. Puts result clauses.now output.now disk (F.held files.new)) }
    ensures cause { status_of_mitered result ≡ status.WriteFault
        → RoseFor F.write_faults output.now files.old files.new }
    ensures reading { status_of_mitered result ≡ status.ReadFault → ⊥ }
{
    let mut text = Vec::new(alloc);
    let Ok(()) = write_cnf(clauses, &mut text) else {
        return Mitered::NoMemory;
    };
    match write_whole(files, output, &text) {
        Ok(()) => Mitered::Written {
            clauses: clauses.len() as u64,
        },
        Err(error) => unwritten(error),
    }
}

/// What there is to say of `miter` over the files of these names.
pub fn miter_files<F: Files>(alloc: Global, files: &mut F, names: MiterNames, side: Side) -> Mitered
    ensures miters { IfSome (F.held files.old) (λ disk.
        Miters result side (files_of names.entry) disk (F.held files.new)) }
    ensures read_fault { status_of_mitered result ≡ status.ReadFault
        → RoseAmong F.read_faults (names_read (files_of names.entry)) files.old files.new }
    ensures read_fault_at { status_of_mitered result ≡ status.ReadFault
        → FaultAt F.read_faults (input_then names.entry.input.now names.entry.cert.now)
        (F.held files.old) (F.held files.new) files.old files.new }
    ensures write_fault { status_of_mitered result ≡ status.WriteFault
        → RoseAmong F.write_faults (names_written (files_of names.entry)) files.old files.new }
{
    let formula = match read_input(alloc, files, names.input) {
        Ok(formula) => formula,
        Err(error) => return refused_input(error),
    };
    let mut given = match read_circuits(alloc, files, names.cert) {
        Ok(given) => given,
        Err(error) => return refused_text(error),
    };
    match make_clauses(alloc, side, &formula, &mut given) {
        Ok(clauses) => write_miter(alloc, files, names.output, &clauses),
        Err(outcome) => outcome,
    }
}
