//! `disprove` with circuits: the proof is judged to the empty clause first, and CERT is created then.
ghost use Rattle.std.specs.Prelude.{◌≡◌, ℕ, List, IfSome};
ghost use Rattle.q_io.specs.Files.{RoseAmong, RoseFor};
ghost use Rattle.q_command.specs.Checks.{input_then};
ghost use Rattle.q_command.specs.FirstFaults.{FaultAt};
ghost use Rattle.q_command.specs.declared.status.Status.TheVariants as status;
ghost use Rattle.q_run_disprove.specs.CertifiedLines.{status_of_certified};
ghost use Rattle.q_run_disprove.specs.Certifying.{Certifies, files_of, names_read, names_written};
ghost use Rattle.q_run_disprove.specs.Settling.{Puts, Settles, SettlesAll, failed_write as write_failed};
ghost use Rattle.q_run_disprove.specs.Notes.{ReachEmpty};
ghost use Rattle.q_run_disprove.specs.Readings.{IsReady};

use crate::certified::Certified;
use crate::disproved::Disproved;
use crate::disproving::{judge, refused_input};
use crate::form::Form;
use crate::names::CertifyNames;
use crate::notes::Notes;
use crate::verdict::Verdict;
use q_aig::Certificate;
use q_command::{Part, read_input, write_circuits};
use q_herbrand::disprove;
use q_io::{DeviceError, Files};
use std::alloc::Global;

fn unwritten(error: DeviceError) -> Certified
    ensures { result ≡ write_failed error }
{
    match error {
        DeviceError::Failed => Certified::WriteFault,
        DeviceError::NoMemory => Certified::NoMemory,
    }
}

// Creates CERT with the text of the circuits.
fn write_certificate<F: Files>(
    alloc: Global,
    files: &mut F,
    cert: &str,
    steps: u64,
    made: &Certificate,
) -> Certified
    ensures puts { IfSome (F.held files.old)
        (λ disk. Puts result steps made.now cert.now disk (F.held files.new)) }
    ensures reading { status_of_certified result ≡ status.ReadFault → ⊥ }
    ensures cause { status_of_certified result ≡ status.WriteFault
        → RoseFor F.write_faults cert.now files.old files.new }
{
    match write_circuits(alloc, files, cert, made) {
        Ok(_) => Certified::False { steps },
        Err(error) => unwritten(error),
    }
}

// What there is to say where so many steps lead to the empty clause.
fn certify<F: Files>(
    alloc: Global,
    files: &mut F,
    cert: &str,
    steps: u64,
    notes: Notes,
) -> Certified
    requires { ReachEmpty notes }
    ensures settles { IfSome (F.held files.old)
        (λ disk. Settles notes steps result cert.now disk (F.held files.new)) }
    ensures reading { status_of_certified result ≡ status.ReadFault → ⊥ }
    ensures cause { status_of_certified result ≡ status.WriteFault
        → RoseFor F.write_faults cert.now files.old files.new }
{
    match notes {
        Notes::Kept { formula, trail } => match disprove(alloc, &formula, trail.take()) {
            Ok(made) => write_certificate(alloc, files, cert, steps, &made),
            Err(_) => Certified::NoMemory,
        },
        Notes::Extended { line } => Certified::Extended { line },
        Notes::Unkept => Certified::NoMemory,
    }
}

// What there is to say of a proof that is read.
fn settle<F: Files>(alloc: Global, files: &mut F, cert: &str, verdict: Verdict) -> Certified
    requires { IsReady verdict }
    ensures settles { IfSome (F.held files.old) (λ disk.
        SettlesAll verdict.outcome verdict.notes result cert.now disk (F.held files.new)) }
    ensures reading { status_of_certified result ≡ status.ReadFault
        → verdict.outcome ≡ Disproved.ReadFault }
    ensures reads_nothing { status_of_certified result ≡ status.ReadFault
        → (name : List ℕ) → F.read_faults files.new name ≡ F.read_faults files.old name }
    ensures cause { status_of_certified result ≡ status.WriteFault
        → RoseFor F.write_faults cert.now files.old files.new }
{
    let Verdict { outcome, notes } = verdict;
    match outcome {
        Disproved::False { steps } => certify(alloc, files, cert, steps, notes),
        why => Certified::Undisproved { why },
    }
}

/// What there is to say of `disprove` with circuits over the files of these names. Where `binary` is set, what can be either is a binary
/// proof.
pub fn certify_files<F: Files>(
    alloc: Global,
    files: &mut F,
    names: CertifyNames,
    binary: bool,
) -> Certified
    ensures certifies { IfSome (F.held files.old) (λ disk.
        Certifies result (files_of names.entry) binary disk (F.held files.new)) }
    ensures read_fault { status_of_certified result ≡ status.ReadFault
        → RoseAmong F.read_faults (names_read (files_of names.entry)) files.old files.new }
    ensures read_fault_at { status_of_certified result ≡ status.ReadFault
        → FaultAt F.read_faults (input_then names.entry.input.now names.entry.proof.now)
        (F.held files.old) (F.held files.new) files.old files.new }
    ensures write_fault { status_of_certified result ≡ status.WriteFault
        → RoseAmong F.write_faults (names_written (files_of names.entry)) files.old files.new }
{
    let formula = match read_input(alloc, files, names.input) {
        Ok(formula) => formula,
        Err(error) => {
            return Certified::Undisproved {
                why: refused_input(error),
            };
        }
    };
    let form = Form {
        binary,
        keeps: true,
        hints: false,
    };
    let verdict = judge(alloc, files, names.proof, formula, form, Part::whole());
    settle(alloc, files, names.cert, verdict)
}
