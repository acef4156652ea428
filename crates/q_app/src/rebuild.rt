// `rebuild`: the log is checked as by `check`, with what it leaves to undo; then the circuits of OUT are read and
// carried back, and the circuits of IN are written. Nothing is created before all refusals are past.
ghost use Rattle.std.specs.Prelude.{◌≡◌, IfOk, IfErr, IfSome, IsErrOf, true};
ghost use Rattle.q_io.specs.Files.{RoseAmong, RoseFor, bytes_at};
ghost use Rattle.q_command.specs.FirstFaults.{FaultAt};
ghost use Rattle.q_command.specs.Reading.{OnlyReadsFiles};
ghost use Rattle.q_command.specs.Checks.{LeadsBack};
ghost use Rattle.q_app.specs.Commands.{five_of};
ghost use Rattle.q_app.specs.Rebuilds.{AreCarried, CircuitsFail, FaultsReading, IsOfCircuits, Puts, Rebuilds, failed_write as write_failed, no_circuits, refused_circuits as circuits_refused, names_read, turns_read};

use crate::rebuild_words::RebuildNames;
use crate::rebuilt::Rebuilt;
use q_aig::Certificate;
use q_command::{
    Checked, CircuitsError, Keep, Names, Unfit, read_circuits, verify, write_circuits,
};
use q_io::{DeviceError, Files};
use q_rebuild::{RebuildError, rebuild};
use std::alloc::Global;

fn unread(error: CircuitsError) -> Rebuilt
    ensures is { result ≡ no_circuits error }
    ensures of_circuits { IsOfCircuits result }
{
    match error {
        CircuitsError::Refused { line, cause } => Rebuilt::RefusedText { line, cause },
        CircuitsError::Fault => Rebuilt::ReadFault,
        CircuitsError::NoMemory => Rebuilt::NoMemory,
    }
}

fn unfit(why: Unfit) -> Rebuilt
    ensures { result ≡ Rebuilt.RefusedCircuits why }
{
    Rebuilt::RefusedCircuits { why }
}

fn refused_circuits(error: RebuildError) -> Rebuilt
    ensures is { result ≡ circuits_refused error }
    ensures of_circuits { IsOfCircuits result }
{
    match error {
        RebuildError::MissingOutput { var } => unfit(Unfit::MissingOutput { var }),
        RebuildError::StrangeOutput { var } => unfit(Unfit::StrangeOutput { var }),
        RebuildError::StrangeInput { var } => unfit(Unfit::StrangeInput { var }),
        RebuildError::Reads { var, universal } => unfit(Unfit::Reads {
            var,
            input: universal,
        }),
        RebuildError::FalseOutput => Rebuilt::FalseOutput,
        RebuildError::NoMemory => Rebuilt::NoMemory,
    }
}

fn unwritten(error: DeviceError) -> Rebuilt
    ensures is { result ≡ write_failed error }
    ensures writing { FaultsReading result → ⊥ }
{
    match error {
        DeviceError::Failed => Rebuilt::WriteFault,
        DeviceError::NoMemory => Rebuilt::NoMemory,
    }
}

// The circuits of OUT, carried back to IN.
fn carry_back<F: Files>(
    alloc: Global,
    files: &mut F,
    skolem: &str,
    checked: &Checked,
) -> Result<Certificate, Rebuilt>
    requires run { LeadsBack true checked.now.from checked.now.to checked.now.undo }
    ensures carried { IfOk result (λ made. IfSome (F.held files.old)
        (λ disk. AreCarried checked.now (bytes_at disk skolem.now) made)) }
    ensures refused { IfErr result (λ o. IfSome (F.held files.old)
        (λ disk. CircuitsFail o checked.now.to (bytes_at disk skolem.now))) }
    ensures of_circuits { IfErr result IsOfCircuits }
    ensures fault { IsErrOf result Rebuilt.ReadFault
        → RoseFor F.read_faults skolem.now files.old files.new }
    ensures only_reads { OnlyReadsFiles F.Files files.old files.new }
{
    let mut given = match read_circuits(alloc, files, skolem) {
        Ok(given) => given,
        Err(error) => return Err(unread(error)),
    };
    match rebuild(alloc, &checked.from, &checked.to, &checked.undo, &mut given) {
        Ok(made) => Ok(made),
        Err(error) => Err(refused_circuits(error)),
    }
}

// Creates CERT with the text of the circuits.
fn write_certificate<F: Files>(
    alloc: Global,
    files: &mut F,
    cert: &str,
    made: &Certificate,
) -> Rebuilt
    ensures puts { IfSome (F.held files.old)
        (λ disk. Puts result made.now cert.now disk (F.held files.new)) }
    ensures writing { FaultsReading result → ⊥ }
    ensures cause { result ≡ Rebuilt.WriteFault
        → RoseFor F.write_faults cert.now files.old files.new }
{
    match write_circuits(alloc, files, cert, made) {
        Ok(gates) => Rebuilt::Written { gates },
        Err(error) => unwritten(error),
    }
}

/// What there is to say of `rebuild` over the files of these names.
pub(crate) fn rebuild_files<F: Files>(alloc: Global, files: &mut F, names: RebuildNames) -> Rebuilt
    ensures rebuilds { IfSome (F.held files.old) (λ disk.
        Rebuilds result (five_of names.entry) disk (F.held files.new)) }
    ensures read_fault { FaultsReading result
        → RoseAmong F.read_faults (names_read (five_of names.entry)) files.old files.new }
    ensures read_fault_at { FaultsReading result
        → FaultAt F.read_faults (turns_read (five_of names.entry))
        (F.held files.old) (F.held files.new) files.old files.new }
    ensures write_fault { result ≡ Rebuilt.WriteFault
        → RoseFor F.write_faults names.entry.cert.now files.old files.new }
{
    let three = Names {
        input: names.input,
        output: names.output,
        log: names.log,
    };
    let keep = Keep {
        undo: true,
        steps: false,
    };
    let checked = match verify(alloc, files, three, keep) {
        Ok(checked) => checked,
        Err(why) => return Rebuilt::Unverified { why },
    };
    match carry_back(alloc, files, names.skolem, &checked) {
        Ok(made) => write_certificate(alloc, files, names.cert, &made),
        Err(outcome) => outcome,
    }
}
