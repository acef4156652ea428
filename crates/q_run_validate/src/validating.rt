// IN is read, then CERT, then the circuits are judged.
ghost use Rattle.std.specs.Prelude.{◌≡◌, ◌≢◌, IfSome};
ghost use Rattle.q_io.specs.Files.{RoseAmong};
ghost use Rattle.q_command.specs.Checks.{input_then};
ghost use Rattle.q_command.specs.FirstFaults.{FaultAt};
ghost use Rattle.q_command.specs.declared.status.Status.TheVariants as status;
ghost use Rattle.q_run_validate.specs.ValidatedLines.{status_of_validated};
ghost use Rattle.q_run_validate.specs.Validates.{files_of, Judges, Validates, refused_circuits as circuits_refused, refused_input as input_refused, refused_text as text_refused, names_read};

use crate::names::ValidateNames;
use crate::text::invalid_line;
use crate::validated::Validated;
use q_aig::Certificate;
use q_command::{CircuitsError, InputError, Unfit, read_circuits, read_input};
use q_io::Files;
use q_logic::{Formula, Lits};
use q_validate::{Answer, ValidateError, validate};
use std::alloc::Global;

fn refused_input(error: InputError) -> Validated
    ensures { result ≡ input_refused error }
{
    match error {
        InputError::Refused { line, cause } => Validated::RefusedInput { line, cause },
        InputError::Fault => Validated::ReadFault,
        InputError::NoMemory => Validated::NoMemory,
    }
}

fn refused_text(error: CircuitsError) -> Validated
    ensures { result ≡ text_refused error }
{
    match error {
        CircuitsError::Refused { line, cause } => Validated::RefusedText { line, cause },
        CircuitsError::Fault => Validated::ReadFault,
        CircuitsError::NoMemory => Validated::NoMemory,
    }
}

fn unfit(why: Unfit) -> Validated
    ensures { result ≡ Validated.RefusedCircuits why }
{
    Validated::RefusedCircuits { why }
}

fn refused_circuits(error: ValidateError) -> Validated
    ensures { result ≡ circuits_refused error }
{
    match error {
        ValidateError::MissingOutput { var } => unfit(Unfit::MissingOutput { var }),
        ValidateError::StrangeOutput { var } => unfit(Unfit::StrangeOutput { var }),
        ValidateError::StrangeInput { var } => unfit(Unfit::StrangeInput { var }),
        ValidateError::Reads { var, universal } => unfit(Unfit::Reads {
            var,
            input: universal,
        }),
        ValidateError::NoMemory => Validated::NoMemory,
    }
}

// What there is to say of circuits of a formula.
fn judge(
    alloc: Global,
    formula: &Formula,
    given: &mut Certificate,
    budget: Option<u64>,
) -> Validated
    ensures { Judges result formula.now given.old budget }
{
    match validate(alloc, formula, given, budget) {
        Ok(Answer::Valid) => Validated::Valid,
        Ok(Answer::Invalid(lits)) => match invalid_line(alloc, lits.as_slice()) {
            Ok(text) => Validated::Invalid { text },
            Err(_) => Validated::NoMemory,
        },
        Ok(Answer::Unknown) => Validated::Unknown,
        Err(error) => refused_circuits(error),
    }
}

/// What there is to say of `validate` over the files of these names.
pub fn validate_files<F: Files>(
    alloc: Global,
    files: &mut F,
    names: ValidateNames,
    budget: Option<u64>,
) -> Validated
    ensures validates { IfSome (F.held files.old) (λ disk.
        Validates result (files_of names.entry) budget disk (F.held files.new)) }
    ensures read_fault { status_of_validated result ≡ status.ReadFault
        → RoseAmong F.read_faults (names_read (files_of names.entry)) files.old files.new }
    ensures read_fault_at { status_of_validated result ≡ status.ReadFault
        → FaultAt F.read_faults (input_then names.entry.input.now names.entry.cert.now)
        (F.held files.old) (F.held files.new) files.old files.new }
    ensures write_fault { status_of_validated result ≢ status.WriteFault }
    ensures held { F.held files.new ≡ F.held files.old }
{
    let formula = match read_input(alloc, files, names.input) {
        Ok(formula) => formula,
        Err(error) => return refused_input(error),
    };
    let mut given = match read_circuits(alloc, files, names.cert) {
        Ok(given) => given,
        Err(error) => return refused_text(error),
    };
    judge(alloc, &formula, &mut given, budget)
}
