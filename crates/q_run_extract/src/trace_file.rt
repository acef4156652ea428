// A trace is read whole, in pieces, and not behind its verdict.
ghost use Rattle.std.specs.Prelude.{◌≡◌, ◌≤◌, ◌<◌, ◌+◌, List, ℕ, length, true, false, IfOk, IfErr, IfSome, IsErrOf};
ghost use Rattle.q_io.specs.Files.{RoseFor, bytes_at};
ghost use Rattle.q_command.specs.Reading.{OnlyReadsFiles};
ghost use Rattle.q_qrp.specs.Scanning.{HasRead, has_finished};
ghost use Rattle.q_qrp.specs.Offences.{ReadsOn, TraceOf};
ghost use Rattle.q_run_extract.specs.TraceFiles.{HasFed, HasFront, IsReading, IsRefused, device_error, trace_error};

use q_io::{DeviceError, Files, PIECE};
use q_qrp::{Trace, TraceError, TraceReader};
use std::alloc::Global;

/// How many bytes a trace may have up to its verdict.
const MOST: u64 = 1_099_511_627_776;

/// Why there is no trace.
#[derive(Clone, Copy, Debug, PartialEq, Eq)]
pub enum TraceFault {
    Refused { line: u64, cause: u8 },
    Fault,
    NoMemory,
}

fn device_failure(error: DeviceError) -> TraceFault
    ensures { result ≡ device_error error }
{
    match error {
        DeviceError::Failed => TraceFault::Fault,
        DeviceError::NoMemory => TraceFault::NoMemory,
    }
}

fn refusal(error: TraceError) -> TraceFault
    ensures { result ≡ trace_error error }
{
    match error {
        TraceError::Refused { line, cause } => TraceFault::Refused { line, cause },
        TraceError::NoMemory => TraceFault::NoMemory,
    }
}

// The bytes of a piece, or 0 where the verdict has come.
fn counted(reader: &TraceReader, count: usize) -> usize
    ensures last { has_finished reader.now.standing ≡ true → (result ≡ 0)
        × ((rest : List ℕ) → ReadsOn reader.now rest reader.now) }
    ensures others { has_finished reader.now.standing ≡ false → result ≡ count }
{
    if reader.is_finished() {
        return 0;
    }
    count
}

// Reads the next piece of a file, and feeds it: how many bytes it has, or 0 where nothing more is to be read.
fn feed_piece<F: Files>(
    files: &mut F,
    name: &str,
    at: u64,
    buffer: &mut [u8],
    reader: &mut TraceReader,
) -> Result<usize, TraceFault>
    requires place { at ≤ 1099511627776 }
    requires room { 0 < length buffer.old }
    requires reading { IsReading at reader.old }
    ensures reading { IfOk result (λ n. 0 < n → IsReading (at + n) reader.new) }
    ensures fed { IfOk result (λ n. IfSome (F.held files.old)
        (λ disk. HasFed (bytes_at disk name.now) at n reader.old reader.new)) }
    ensures refused { IfErr result (λ e. IfSome (F.held files.old)
        (λ disk. HasFront (bytes_at disk name.now) at reader.old →
        IsRefused e (bytes_at disk name.now))) }
    ensures fault { IsErrOf result TraceFault.Fault
        → RoseFor F.read_faults name.now files.old files.new }
    ensures only_reads { OnlyReadsFiles F.Files files.old files.new }
{
    let count = match files.read(name, at, buffer) {
        Ok(count) => count,
        Err(error) => return Err(device_failure(error)),
    };
    match reader.feed(&buffer[..count]) {
        Ok(()) => Ok(counted(reader, count)),
        Err(error) => Err(refusal(error)),
    }
}

fn finish(reader: TraceReader) -> Result<Trace, TraceFault>
    ensures trace { IfOk result (λ t. (bytes : List ℕ) → HasRead 1099511627776 bytes reader →
        TraceOf 1099511627776 bytes t) }
    ensures refused { IfErr result (λ e. (bytes : List ℕ) → HasRead 1099511627776 bytes reader →
        IsRefused e bytes) }
    ensures fault { IsErrOf result TraceFault.Fault → ⊥ }
{
    match reader.finish() {
        Ok(trace) => Ok(trace),
        Err(error) => Err(refusal(error)),
    }
}

fn read_through<F: Files>(
    alloc: Global,
    files: &mut F,
    name: &str,
    buffer: &mut [u8],
) -> Result<Trace, TraceFault>
    requires room { 0 < length buffer.old }
    ensures trace { IfOk result (λ t. IfSome (F.held files.old)
        (λ disk. TraceOf 1099511627776 (bytes_at disk name.now) t)) }
    ensures refused { IfErr result (λ e. IfSome (F.held files.old)
        (λ disk. IsRefused e (bytes_at disk name.now))) }
    ensures fault { IsErrOf result TraceFault.Fault
        → RoseFor F.read_faults name.now files.old files.new }
    ensures only_reads { OnlyReadsFiles F.Files files.old files.new }
{
    let mut reader = TraceReader::new(alloc, MOST);
    let mut at = 0u64;
    loop {
        match feed_piece(files, name, at, buffer, &mut reader) {
            Ok(0) => return finish(reader),
            Ok(count) => at += count as u64,
            Err(error) => return Err(error),
        }
    }
}

/// The trace of a file.
pub fn read_trace<F: Files>(alloc: Global, files: &mut F, name: &str) -> Result<Trace, TraceFault>
    ensures trace { IfOk result (λ t. IfSome (F.held files.old)
        (λ disk. TraceOf 1099511627776 (bytes_at disk name.now) t)) }
    ensures refused { IfErr result (λ e. IfSome (F.held files.old)
        (λ disk. IsRefused e (bytes_at disk name.now))) }
    ensures fault { IsErrOf result TraceFault.Fault
        → RoseFor F.read_faults name.now files.old files.new }
    ensures only_reads { OnlyReadsFiles F.Files files.old files.new }
{
    match vec![in alloc; 0u8; PIECE] {
        Ok(mut room) => read_through(alloc, files, name, &mut room),
        Err(_) => Err(TraceFault::NoMemory),
    }
}
