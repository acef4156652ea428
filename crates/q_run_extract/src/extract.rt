//! `extract` over files: IN, then TRACE, then the judgement, in this order. The first refusal, fault or want of memory
//! decides. CERT is created once all refusals are past.
ghost use Rattle.std.specs.Prelude.{◌≡◌, ◌≢◌, IfOk, IfSome};
ghost use Rattle.q_io.specs.Files.{RoseAmong, RoseFor};
ghost use Rattle.q_command.specs.Checks.{input_then};
ghost use Rattle.q_command.specs.FirstFaults.{FaultAt};
ghost use Rattle.q_command.specs.declared.status.Status.TheVariants as status;
ghost use Rattle.q_run_extract.specs.ExtractedLines.{status_of_extracted};
ghost use Rattle.q_run_extract.specs.Extracts.{Extracts, IsJudged, Puts, Settles, claim_of, failed_write as write_failed, files_of, names_read, names_written, refused_input as input_refused, refused_trace as trace_refused, said, written_as};

use crate::extracted::Extracted;
use crate::names::ExtractNames;
use crate::trace_file::{TraceFault, read_trace};
use q_aig::Certificate;
use q_command::{InputError, read_input, write_circuits};
use q_io::{DeviceError, Files};
use q_logic::{Formula, NoMemory};
use q_qrp::{Trace, Verdict};
use q_resolve::{Judged, certify, refute};
use std::alloc::Global;

/// What a verdict claims of a formula.
#[derive(Clone, Copy)]
pub enum Claim {
    True,
    False,
}

fn refused_input(error: InputError) -> Extracted
    ensures { result ≡ input_refused error }
{
    match error {
        InputError::Refused { line, cause } => Extracted::RefusedInput { line, cause },
        InputError::Fault => Extracted::ReadFault,
        InputError::NoMemory => Extracted::NoMemory,
    }
}

fn refused_trace(error: TraceFault) -> Extracted
    ensures { result ≡ trace_refused error }
{
    match error {
        TraceFault::Refused { line, cause } => Extracted::RefusedTrace { line, cause },
        TraceFault::Fault => Extracted::ReadFault,
        TraceFault::NoMemory => Extracted::NoMemory,
    }
}

fn unwritten(error: DeviceError) -> Extracted
    ensures { result ≡ write_failed error }
{
    match error {
        DeviceError::Failed => Extracted::WriteFault,
        DeviceError::NoMemory => Extracted::NoMemory,
    }
}

fn claim_of(verdict: Verdict) -> Option<Claim>
    ensures { result ≡ claim_of verdict }
{
    match verdict {
        Verdict::Sat => Some(Claim::True),
        Verdict::Unsat => Some(Claim::False),
        Verdict::Unknown => None,
    }
}

fn written(claim: Claim, gates: u64) -> Extracted
    ensures { result ≡ written_as claim gates }
{
    match claim {
        Claim::True => Extracted::True { gates },
        Claim::False => Extracted::False { gates },
    }
}

fn judge(alloc: Global, formula: &Formula, trace: &Trace, claim: Claim) -> Result<Judged, NoMemory>
    ensures { IfOk result (IsJudged claim formula.now trace.now) }
{
    match claim {
        Claim::True => certify(alloc, formula, trace),
        Claim::False => refute(alloc, formula, trace),
    }
}

// Creates CERT with the text of the circuits.
fn write_certificate<F: Files>(
    alloc: Global,
    files: &mut F,
    cert: &str,
    made: &Certificate,
    claim: Claim,
) -> Extracted
    ensures puts { IfSome (F.held files.old)
        (λ disk. Puts result claim made.now cert.now disk (F.held files.new)) }
    ensures reading { result ≢ Extracted.ReadFault }
    ensures cause { result ≡ Extracted.WriteFault
        → RoseFor F.write_faults cert.now files.old files.new }
{
    match write_circuits(alloc, files, cert, made) {
        Ok(gates) => written(claim, gates),
        Err(error) => unwritten(error),
    }
}

// What comes of a formula and a trace.
fn settle<F: Files>(
    alloc: Global,
    files: &mut F,
    cert: &str,
    formula: &Formula,
    trace: &Trace,
) -> Extracted
    ensures settles { IfSome (F.held files.old)
        (λ disk. Settles result formula.now trace.now cert.now disk (F.held files.new)) }
    ensures reading { result ≢ Extracted.ReadFault }
    ensures cause { result ≡ Extracted.WriteFault
        → RoseFor F.write_faults cert.now files.old files.new }
{
    let claim = match claim_of(trace.verdict()) {
        Some(claim) => claim,
        None => return Extracted::Unknown,
    };
    match judge(alloc, formula, trace, claim) {
        Ok(Judged::Proved(made)) => write_certificate(alloc, files, cert, &made, claim),
        Ok(Judged::Refused { line, cause }) => Extracted::RefusedTrace { line, cause },
        Err(_) => Extracted::NoMemory,
    }
}

/// What there is to say of `extract` over the files of these names.
pub fn extract_files<F: Files>(alloc: Global, files: &mut F, names: ExtractNames) -> Extracted
    ensures extracts { IfSome (F.held files.old) (λ disk.
        Extracts result (files_of names.entry) disk (F.held files.new)) }
    ensures read_fault { status_of_extracted result ≡ status.ReadFault
        → RoseAmong F.read_faults (names_read (files_of names.entry)) files.old files.new }
    ensures read_fault_at { status_of_extracted result ≡ status.ReadFault
        → FaultAt F.read_faults (input_then names.entry.input.now names.entry.trace.now)
        (F.held files.old) (F.held files.new) files.old files.new }
    ensures write_fault { status_of_extracted result ≡ status.WriteFault
        → RoseAmong F.write_faults (names_written (files_of names.entry)) files.old files.new }
{
    let formula = match read_input(alloc, files, names.input) {
        Ok(formula) => formula,
        Err(error) => return refused_input(error),
    };
    let trace = match read_trace(alloc, files, names.trace) {
        Ok(trace) => trace,
        Err(error) => return refused_trace(error),
    };
    settle(alloc, files, names.cert, &formula, &trace)
}
