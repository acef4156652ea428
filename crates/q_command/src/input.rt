// A formula file is read whole, in pieces.
ghost use Rattle.std.specs.Prelude.{◌≡◌, ◌≤◌, ◌<◌, ◌+◌, List, ℕ, length, IfOk, IfErr, IfSome, IsErrOf};
ghost use Rattle.q_logic.specs.Prelude.{standard, IsInLimits, IsProper};
ghost use Rattle.q_io.specs.Files.{RoseFor, bytes_at};
ghost use Rattle.q_command.specs.Reading.{OnlyReadsFiles};
ghost use Rattle.q_dimacs.specs.Dimacs.{Dimacs};
ghost use Rattle.q_dimacs.specs.Scanning.{HasRead};
ghost use Rattle.q_command.specs.Inputs.{HasFed, HasFront, IsReading, IsRefused, device_error, read_error};

use q_dimacs::{ReadError, Reader};
use q_io::{DeviceError, Files, PIECE};
use q_logic::{Formula, Limits};
use std::alloc::Global;

/// Why there is no formula.
#[derive(Clone, Copy, Debug, PartialEq, Eq)]
pub enum InputError {
    Refused { line: u64, cause: u8 },
    Fault,
    NoMemory,
}

fn device_failure(error: DeviceError) -> InputError
    ensures { result ≡ device_error error }
{
    match error {
        DeviceError::Failed => InputError::Fault,
        DeviceError::NoMemory => InputError::NoMemory,
    }
}

fn refusal(error: ReadError) -> InputError
    ensures { result ≡ read_error error }
{
    match error {
        ReadError::Refused { line, cause } => InputError::Refused { line, cause },
        ReadError::NoMemory => InputError::NoMemory,
    }
}

// Reads the next piece of a file, and feeds it.
fn feed_piece<F: Files>(
    files: &mut F,
    name: &str,
    at: u64,
    buffer: &mut [u8],
    reader: &mut Reader,
) -> Result<usize, InputError>
    requires place { at ≤ 1099511627776 }
    requires room { 0 < length buffer.old }
    requires reading { IsReading at reader.old }
    ensures reading { IfOk result (λ n. IsReading (at + n) reader.new) }
    ensures fed { IfOk result (λ n. IfSome (F.held files.old)
        (λ disk. HasFed (bytes_at disk name.now) at n reader.old reader.new)) }
    ensures refused { IfErr result (λ e. IfSome (F.held files.old)
        (λ disk. HasFront (bytes_at disk name.now) at reader.old →
        IsRefused e (bytes_at disk name.now))) }
    ensures fault { IsErrOf result InputError.Fault
        → RoseFor F.read_faults name.now files.old files.new }
    ensures only_reads { OnlyReadsFiles F.Files files.old files.new }
{
    let count = match files.read(name, at, buffer) {
        Ok(count) => count,
        Err(error) => return Err(device_failure(error)),
    };
    match reader.feed(&buffer[..count]) {
        Ok(()) => Ok(count),
        Err(error) => Err(refusal(error)),
    }
}

fn finish(reader: Reader) -> Result<Formula, InputError>
    ensures formula { IfOk result (λ f. (bytes : List ℕ) → HasRead standard bytes reader →
        Dimacs standard bytes f) }
    ensures proper { IfOk result IsProper }
    ensures limits { IfOk result (λ f. (bytes : List ℕ) → HasRead standard bytes reader →
        IsInLimits standard f) }
    ensures refused { IfErr result (λ e. (bytes : List ℕ) → HasRead standard bytes reader →
        IsRefused e bytes) }
    ensures fault { IsErrOf result InputError.Fault → ⊥ }
{
    match reader.finish() {
        Ok(formula) => Ok(formula),
        Err(error) => Err(refusal(error)),
    }
}

/// The formula of a file, read through a buffer.
pub(crate) fn read_formula<F: Files>(
    alloc: Global,
    files: &mut F,
    name: &str,
    buffer: &mut [u8],
) -> Result<Formula, InputError>
    requires room { 0 < length buffer.old }
    ensures formula { IfOk result (λ f. IfSome (F.held files.old)
        (λ disk. Dimacs standard (bytes_at disk name.now) f)) }
    ensures proper { IfOk result IsProper }
    ensures limits { IfOk result (λ f. IsInLimits standard f) }
    ensures refused { IfErr result (λ e. IfSome (F.held files.old)
        (λ disk. IsRefused e (bytes_at disk name.now))) }
    ensures fault { IsErrOf result InputError.Fault
        → RoseFor F.read_faults name.now files.old files.new }
    ensures only_reads { OnlyReadsFiles F.Files files.old files.new }
{
    let mut reader = match Reader::new(alloc, Limits::standard()) {
        Ok(reader) => reader,
        Err(_) => return Err(InputError::NoMemory),
    };
    let mut at = 0u64;
    loop {
        match feed_piece(files, name, at, buffer, &mut reader) {
            Ok(0) => return finish(reader),
            Ok(count) => at += count as u64,
            Err(error) => return Err(error),
        }
    }
}

/// The formula of a file, by the limits of the program.
pub fn read_input<F: Files>(alloc: Global, files: &mut F, name: &str) -> Result<Formula, InputError>
    ensures formula { IfOk result (λ f. IfSome (F.held files.old)
        (λ disk. Dimacs standard (bytes_at disk name.now) f)) }
    ensures proper { IfOk result IsProper }
    ensures limits { IfOk result (λ f. IsInLimits standard f) }
    ensures refused { IfErr result (λ e. IfSome (F.held files.old)
        (λ disk. IsRefused e (bytes_at disk name.now))) }
    ensures fault { IsErrOf result InputError.Fault
        → RoseFor F.read_faults name.now files.old files.new }
    ensures only_reads { OnlyReadsFiles F.Files files.old files.new }
{
    match vec![in alloc; 0u8; PIECE] {
        Ok(mut room) => read_formula(alloc, files, name, &mut room),
        Err(_) => Err(InputError::NoMemory),
    }
}
