//! `refute` over files: the log with its end, then its extended drops, then the circuits, then the work, in this order.
//! The first refusal, fault or want of memory decides. CERT is created once all refusals are past.
ghost use Rattle.std.specs.Prelude.{◌≡◌, IfOk, IfErr, IfSome, IsErrOf, true};
ghost use Rattle.q_io.specs.Files.{RoseAmong, RoseFor, bytes_at};
ghost use Rattle.q_command.specs.FirstFaults.{FaultAt};
ghost use Rattle.q_command.specs.Reading.{OnlyReadsFiles};
ghost use Rattle.q_logic.specs.Reversals.{Reversals as ReversalsOf};
ghost use Rattle.q_command.specs.Logs.{steps_of};
ghost use Rattle.q_command.specs.Taken.{AreRun, entries_of};
ghost use Rattle.q_run_refute.specs.Refutes.{AreCarried, CircuitsFail, FaultsReading, IsOfCircuits, Puts, Refutes, failed_write as write_failed, files_of, no_circuits as circuits_missing, refused_circuits as circuits_refused, not_reversed as reversed_not, names_read, names_written, turns_read};
ghost use Rattle.q_run_refute.specs.Reversing.{IsUnreversed};
ghost use Rattle.q_run_refute.specs.RefutedLines.{status_of_refuted};

use crate::names::RefuteNames;
use crate::refuted::Refuted;
use crate::reversing::{Unreversed, reversals_of};
use q_aig::Certificate;
use q_command::{
    Checked, CircuitsError, Keep, Names, Status, Unfit, read_circuits, verify, write_circuits,
};
use q_herbrand::{HerbrandError, Reversals, refute};
use q_io::{DeviceError, Files};
use std::alloc::Global;

fn no_circuits(error: CircuitsError) -> Refuted
    ensures is { result ≡ circuits_missing error }
    ensures of_circuits { IsOfCircuits result }
{
    match error {
        CircuitsError::Refused { line, cause } => Refuted::RefusedText { line, cause },
        CircuitsError::Fault => Refuted::ReadFault,
        CircuitsError::NoMemory => Refuted::NoMemory,
    }
}

fn unfit(why: Unfit) -> Refuted
    ensures { result ≡ Refuted.RefusedCircuits why }
{
    Refuted::RefusedCircuits { why }
}

fn refused_circuits(error: HerbrandError) -> Refuted
    ensures is { result ≡ circuits_refused error }
    ensures of_circuits { IsOfCircuits result }
{
    match error {
        HerbrandError::MissingOutput { var } => unfit(Unfit::MissingOutput { var }),
        HerbrandError::StrangeOutput { var } => unfit(Unfit::StrangeOutput { var }),
        HerbrandError::StrangeInput { var } => unfit(Unfit::StrangeInput { var }),
        HerbrandError::Reads { var, existential } => unfit(Unfit::Reads {
            var,
            input: existential,
        }),
        HerbrandError::TrueOutput => Refuted::TrueOutput,
        HerbrandError::NoMemory => Refuted::NoMemory,
    }
}

fn not_reversed(error: Unreversed) -> Refuted
    ensures { result ≡ reversed_not error }
{
    match error {
        Unreversed::Extended { line } => Refuted::Extended { line },
        Unreversed::NoMemory => Refuted::NoMemory,
    }
}

fn unwritten(error: DeviceError) -> Refuted
    ensures is { result ≡ write_failed error }
    ensures writing { FaultsReading result → ⊥ }
{
    match error {
        DeviceError::Failed => Refuted::WriteFault,
        DeviceError::NoMemory => Refuted::NoMemory,
    }
}

// The reversals of the log's steps.
fn reverse(alloc: Global, checked: &Checked) -> Result<Reversals, Unreversed>
    requires { AreRun true checked.now.from checked.now.to checked.now.taken.items }
    ensures reversals { IfOk result
        (ReversalsOf checked.now.from (steps_of (entries_of checked.now.taken.items))) }
    ensures refused { IfErr result
        (IsUnreversed checked.now.from (entries_of checked.now.taken.items)) }
{
    reversals_of(alloc, &checked.from, &checked.taken)
}

// The circuits of OUT, carried back to IN.
fn carry_back<F: Files>(
    alloc: Global,
    files: &mut F,
    herbrand: &str,
    checked: &Checked,
    reversals: &Reversals,
) -> Result<Certificate, Refuted>
    requires run { AreRun true checked.now.from checked.now.to checked.now.taken.items }
    requires reversals { ReversalsOf checked.now.from
        (steps_of (entries_of checked.now.taken.items)) reversals.now }
    ensures carried { IfOk result (λ made. IfSome (F.held files.old)
        (λ disk. AreCarried checked.now reversals.now (bytes_at disk herbrand.now) made)) }
    ensures refused { IfErr result (λ o. IfSome (F.held files.old)
        (λ disk. CircuitsFail o checked.now.to (bytes_at disk herbrand.now))) }
    ensures of_circuits { IfErr result IsOfCircuits }
    ensures fault { IsErrOf result Refuted.ReadFault
        → RoseFor F.read_faults herbrand.now files.old files.new }
    ensures only_reads { OnlyReadsFiles F.Files files.old files.new }
{
    let mut given = match read_circuits(alloc, files, herbrand) {
        Ok(given) => given,
        Err(error) => return Err(no_circuits(error)),
    };
    match refute(alloc, &checked.from, &checked.to, reversals, &mut given) {
        Ok(made) => Ok(made),
        Err(error) => Err(refused_circuits(error)),
    }
}

// Creates CERT with the text of the circuits.
fn write_certificate<F: Files>(
    alloc: Global,
    files: &mut F,
    cert: &str,
    made: &Certificate,
) -> Refuted
    ensures puts { IfSome (F.held files.old)
        (λ disk. Puts result made.now cert.now disk (F.held files.new)) }
    ensures writing { FaultsReading result → ⊥ }
    ensures cause { result ≡ Refuted.WriteFault
        → RoseFor F.write_faults cert.now files.old files.new }
{
    match write_circuits(alloc, files, cert, made) {
        Ok(gates) => Refuted::Written { gates },
        Err(error) => unwritten(error),
    }
}

// The parts of the work, in their order.
fn refute_in_order<F: Files>(alloc: Global, files: &mut F, names: RefuteNames) -> Refuted
    ensures refutes { IfSome (F.held files.old) (λ disk.
        Refutes result (files_of names.entry) disk (F.held files.new)) }
    ensures read_fault { FaultsReading result
        → RoseAmong F.read_faults (names_read (files_of names.entry)) files.old files.new }
    ensures read_fault_at { FaultsReading result
        → FaultAt F.read_faults (turns_read (files_of names.entry))
        (F.held files.old) (F.held files.new) files.old files.new }
    ensures write_fault { result ≡ Refuted.WriteFault
        → RoseFor F.write_faults names.entry.cert.now files.old files.new }
{
    let three = Names {
        input: names.input,
        output: names.output,
        log: names.log,
    };
    let keep = Keep {
        undo: false,
        steps: true,
    };
    let checked = match verify(alloc, files, three, keep) {
        Ok(checked) => checked,
        Err(why) => return Refuted::Unverified { why },
    };
    let reversals = match reverse(alloc, &checked) {
        Ok(reversals) => reversals,
        Err(error) => return not_reversed(error),
    };
    match carry_back(alloc, files, names.herbrand, &checked, &reversals) {
        Ok(made) => write_certificate(alloc, files, names.cert, &made),
        Err(outcome) => outcome,
    }
}

/// What there is to say of `refute` over the files of these names.
pub fn refute_files<F: Files>(alloc: Global, files: &mut F, names: RefuteNames) -> Refuted
    ensures refutes { IfSome (F.held files.old) (λ disk.
        Refutes result (files_of names.entry) disk (F.held files.new)) }
    ensures read_fault { status_of_refuted result ≡ Status.ReadFault
        → RoseAmong F.read_faults (names_read (files_of names.entry)) files.old files.new }
    ensures read_fault_at { status_of_refuted result ≡ Status.ReadFault
        → FaultAt F.read_faults (turns_read (files_of names.entry))
        (F.held files.old) (F.held files.new) files.old files.new }
    ensures write_fault { status_of_refuted result ≡ Status.WriteFault
        → RoseAmong F.write_faults (names_written (files_of names.entry)) files.old files.new }
{
    let refuted = refute_in_order(alloc, files, names);
    refuted
}
