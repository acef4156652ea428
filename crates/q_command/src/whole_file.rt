// Files that are read whole.
ghost use Rattle.std.specs.Prelude.{◌≡◌, ◌≤◌, ◌<◌, length, true, IfOk, IfSome, IsErrOf};
ghost use Rattle.q_io.specs.Files.{RoseFor, bytes_at};
ghost use Rattle.q_command.specs.Reading.{OnlyReadsFiles};
ghost use Rattle.q_command.specs.Texts.{HasAppended, HasLineEnd, IsTextOf};

use q_io::{DeviceError, Files, LAST_PLACE, PIECE};
use std::alloc::Global;

// Puts the next piece of a file behind the text.
fn append_piece<F: Files>(
    files: &mut F,
    name: &str,
    at: u64,
    buffer: &mut [u8],
    text: &mut Vec<u8>,
) -> Result<usize, DeviceError>
    requires room { 0 < length buffer.old }
    requires place { at ≤ 1099511627776 }
    ensures count { IfOk result (λ n. n ≤ length buffer.old) }
    ensures appended { IfOk result (λ n. IfSome (F.held files.old)
        (λ disk. HasAppended (bytes_at disk name.now) at n text.old.items text.new.items)) }
    ensures fault { IsErrOf result DeviceError.Failed
        → RoseFor F.read_faults name.now files.old files.new }
    ensures only_reads { OnlyReadsFiles F.Files files.old files.new }
{
    let count = files.read(name, at, buffer)?;
    text.extend_from_slice(&buffer[..count])?;
    Ok(count)
}

fn has_line_end(text: &[u8]) -> bool
    ensures { result ≡ true → HasLineEnd text.now }
{
    for i in 0..text.len() {
        if text[i] == b'\n' {
            return true;
        }
    }
    false
}

// The front of a file that is longer than any file may be. Where its first line does not end in it, what that line
// says is not known.
fn long_front(text: Vec<u8>) -> Result<Vec<u8>, DeviceError>
    ensures front { IfOk result (λ front. (front.items ≡ text.items) × HasLineEnd text.items) }
    ensures fault { IsErrOf result DeviceError.Failed → ⊥ }
{
    if has_line_end(&text) {
        return Ok(text);
    }
    Err(DeviceError::NoMemory)
}

// What there is of a file, read through the buffer.
fn read_through<F: Files>(
    alloc: Global,
    files: &mut F,
    name: &str,
    buffer: &mut [u8],
) -> Result<Vec<u8>, DeviceError>
    requires room { 0 < length buffer.old }
    requires small { length buffer.old ≤ PIECE }
    ensures bytes { IfOk result (λ text. IfSome (F.held files.old)
        (λ disk. IsTextOf (bytes_at disk name.now) text.items)) }
    ensures fault { IsErrOf result DeviceError.Failed
        → RoseFor F.read_faults name.now files.old files.new }
    ensures only_reads { OnlyReadsFiles F.Files files.old files.new }
{
    let mut text = Vec::new(alloc);
    let mut at = 0u64;
    while at <= LAST_PLACE {
        match append_piece(files, name, at, buffer, &mut text) {
            Ok(0) => return Ok(text),
            Ok(count) => at += count as u64,
            Err(error) => return Err(error),
        }
    }
    long_front(text)
}

/// All bytes of a file; of one that is longer than any file may be so many that its length is told by them.
pub fn read_whole<F: Files>(
    alloc: Global,
    files: &mut F,
    name: &str,
) -> Result<Vec<u8>, DeviceError>
    ensures bytes { IfOk result (λ text. IfSome (F.held files.old)
        (λ disk. IsTextOf (bytes_at disk name.now) text.items)) }
    ensures fault { IsErrOf result DeviceError.Failed
        → RoseFor F.read_faults name.now files.old files.new }
    ensures only_reads { OnlyReadsFiles F.Files files.old files.new }
{
    let mut room = vec![in alloc; 0u8; PIECE]?;
    read_through(alloc, files, name, &mut room)
}
