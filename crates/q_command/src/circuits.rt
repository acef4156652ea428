// The circuits of a file, and the file of circuits.
ghost use Rattle.std.specs.Prelude.{◌≡◌, IfOk, IfErr, IfSome, IsErrOf};
ghost use Rattle.q_io.specs.Files.{RoseFor, bytes_at};
ghost use Rattle.q_command.specs.Reading.{OnlyReadsFiles};
ghost use Rattle.q_aiger.specs.Circuits.{AreCircuits};
ghost use Rattle.q_command.specs.Texts.{HoldsCircuits, IsNoText, LeavesCircuits, failed_read, refused_text};

use crate::whole_file::read_whole;
use q_aig::Certificate;
use q_aiger::{AigerError, read, write};
use q_io::{DeviceError, Files, write_whole};
use std::alloc::Global;

/// Why a file gives no circuits.
#[derive(Clone, Copy, Debug, PartialEq, Eq)]
pub enum CircuitsError {
    Refused { line: u64, cause: u8 },
    Fault,
    NoMemory,
}

fn unread(error: DeviceError) -> CircuitsError
    ensures { result ≡ failed_read error }
{
    match error {
        DeviceError::Failed => CircuitsError::Fault,
        DeviceError::NoMemory => CircuitsError::NoMemory,
    }
}

fn refusal(error: AigerError) -> CircuitsError
    ensures { result ≡ refused_text error }
{
    match error {
        AigerError::Refused { line, cause } => CircuitsError::Refused { line, cause },
        AigerError::NoMemory => CircuitsError::NoMemory,
    }
}

/// The circuits of a file.
pub fn read_circuits<F: Files>(
    alloc: Global,
    files: &mut F,
    name: &str,
) -> Result<Certificate, CircuitsError>
    ensures circuits { IfOk result (λ given. IfSome (F.held files.old)
        (λ disk. AreCircuits (bytes_at disk name.now) given)) }
    ensures refused { IfErr result (λ e. IfSome (F.held files.old)
        (λ disk. IsNoText e (bytes_at disk name.now))) }
    ensures fault { IsErrOf result CircuitsError.Fault
        → RoseFor F.read_faults name.now files.old files.new }
    ensures only_reads { OnlyReadsFiles F.Files files.old files.new }
{
    let text = match read_whole(alloc, files, name) {
        Ok(text) => text,
        Err(error) => return Err(unread(error)),
    };
    match read(alloc, &text) {
        Ok(given) => Ok(given),
        Err(error) => Err(refusal(error)),
    }
}

/// Creates a file with the canonical text of circuits; so many gates are written.
pub fn write_circuits<F: Files>(
    alloc: Global,
    files: &mut F,
    name: &str,
    made: &Certificate,
) -> Result<u64, DeviceError>
    ensures written { IfOk result (λ gates. IfSome (F.held files.old)
        (λ disk. HoldsCircuits made.now gates name.now disk (F.held files.new))) }
    ensures left { IfErr result (λ e. IfSome (F.held files.old)
        (λ disk. LeavesCircuits e made.now name.now disk (F.held files.new))) }
    ensures fault { IsErrOf result DeviceError.Failed
        → RoseFor F.write_faults name.now files.old files.new }
{
    let mut text = Vec::new(alloc);
    let gates = match write(made, &mut text) {
        Ok(gates) => gates,
        Err(_) => return Err(DeviceError::NoMemory),
    };
    match write_whole(files, name, &text) {
        Ok(()) => Ok(gates),
        Err(error) => Err(error),
    }
}
