// Files of the real disk and standard output, as the traits of this crate have them. No contract can say what a disk holds: these
// adapters tell no content, and what they do is shown by tests.
ghost use Rattle.std.specs.Prelude.{◌≡◌, ◌↔◌, ◌≤◌, List, ℕ, None, IfOk, OnOk, length};
ghost use Rattle.std.specs.Io.KnownBytes.{Appends};
ghost use Rattle.std.specs.IoError.{error_kind};
ghost use Rattle.q_logic.specs.Prelude.{Rose};

use crate::error::DeviceError;
use crate::files::{Files, Sink};
use std::fs::{File, OpenOptions};
use std::io;
use std::io::{ErrorKind, Print, Read, Seek, SeekFrom, Write};
use std::marker::Model;

// A file that is open, under its name.
#[derive(Drop)]
struct Open<F: Drop> {
    name: String,
    file: F,
    // where it goes on; 0 for a file that is written, which goes on at its end
    place: u64,
}

impl<F: Drop> Open<F> {
    // Whether this is the file of that name, and goes on at that place.
    fn stands_at(&self, name: &str, place: u64) -> bool {
        self.place == place && self.name.as_str() == name
    }
}

/// The files of the real disk. It tells no content.
///
/// The file that was read last stays open, and is read on where it stands: a file whose pieces are asked for in their order is
/// never sought, so it may be a pipe. The file that was created or extended last stays open too.
#[derive(Drop)]
pub struct DiskFiles<'a, R: std::rt::Files + AllocGlobal> {
    rt: &'a R,
    reading: Option<Open<R::File>>,
    writing: Option<Open<R::File>>,
    read_failures: u64,
    write_failures: u64,
}

impl<'a, R: std::rt::Files + AllocGlobal> Model for DiskFiles<'a, R> {
    ghost use Rattle.q_io.specs.Files.{FaultCounts};

    ghost Value = { FaultCounts };

    ghost view = { λ d. record { read = d.read_failures; write = d.write_failures } };
}

impl<'a, R: std::rt::Files + AllocGlobal> DiskFiles<'a, R> {
    pub fn new(rt: &'a R) -> DiskFiles<'a, R>
        ensures { result ≡ record { read = 0; write = 0 } }
    {
        DiskFiles {
            rt,
            reading: None,
            writing: None,
            read_failures: 0,
            write_failures: 0,
        }
    }
}

// Opens a file to be read from a place on. The first place needs no seeking.
fn open_at<R: std::rt::Files + AllocGlobal>(
    rt: &R,
    name: &str,
    place: u64,
) -> io::Result<Open<R::File>> {
    let held = String::from_str(rt.alloc(), name)?;
    let mut file = File::open(rt, name)?;
    if place > 0 {
        file.seek(SeekFrom::Start(place))?;
    }
    Ok(Open {
        name: held,
        file,
        place,
    })
}

// Takes the file that is open, if it is the one of that name and goes on at that place.
fn take_open<F: Drop>(slot: &mut Option<Open<F>>, name: &str, place: u64) -> Option<Open<F>> {
    match slot.take() {
        Some(open) if open.stands_at(name, place) => Some(open),
        _ => None,
    }
}

// Reads bytes of a file, which stays open behind them. After an error no file is open.
fn read_on<R: std::rt::Files + AllocGlobal>(
    rt: &R,
    slot: &mut Option<Open<R::File>>,
    name: &str,
    at: u64,
    buf: &mut [u8],
) -> io::Result<usize>
    ensures { IfOk result (λ n. n ≤ length buf.old) }
{
    let mut open = match take_open(slot, name, at) {
        Some(open) => open,
        None => open_at(rt, name, at)?,
    };
    let count = open.file.read(buf)?;
    open.place = at.saturating_add(count as u64);
    *slot = Some(open);
    Ok(count)
}

// Makes or empties a file, which stays open.
fn create_anew<R: std::rt::Files + AllocGlobal>(
    rt: &R,
    slot: &mut Option<Open<R::File>>,
    name: &str,
) -> io::Result<()> {
    *slot = None;
    let held = String::from_str(rt.alloc(), name)?;
    let file = File::create(rt, name)?;
    *slot = Some(Open {
        name: held,
        file,
        place: 0,
    });
    Ok(())
}

// Opens a file to be extended.
fn open_end<R: std::rt::Files + AllocGlobal>(rt: &R, name: &str) -> io::Result<Open<R::File>> {
    let held = String::from_str(rt.alloc(), name)?;
    let file = OpenOptions::new().append(true).create(true).open(rt, name)?;
    Ok(Open {
        name: held,
        file,
        place: 0,
    })
}

// Puts bytes behind a file's, which stays open.
fn append_on<R: std::rt::Files + AllocGlobal>(
    rt: &R,
    slot: &mut Option<Open<R::File>>,
    name: &str,
    bytes: &[u8],
) -> io::Result<()> {
    let mut open = match take_open(slot, name, 0) {
        Some(open) => open,
        None => open_end(rt, name)?,
    };
    write_all(&mut open.file, bytes)?;
    *slot = Some(open);
    Ok(())
}

// Writes all the bytes. A write that takes none of those that are left is an error.
fn write_all<W: Write>(out: &mut W, bytes: &[u8]) -> io::Result<()>
    ensures { OnOk result (Appends (W.contents out.old) (W.contents out.new) bytes.now) }
{
    let mut rest = bytes;
    while !rest.is_empty() {
        let count = out.write(rest)?;
        if count == 0 {
            return Err(io::Error::from(ErrorKind::WriteZero));
        }
        rest = &rest[count..];
    }
    Ok(())
}

// What a call answers for an error: memory may be wanting for a name, or in the system; all else is counted as a failure.
fn counted(error: &io::Error, failures: &mut u64) -> DeviceError
    ensures cause { result ≡ DeviceError.Failed → Rose failures.old failures.new }
    ensures memory { result ≡ DeviceError.NoMemory ↔ error_kind error.now ≡ ErrorKind.OutOfMemory }
    ensures later { failures.old ≤ failures.new }
{
    if error.kind() == ErrorKind::OutOfMemory {
        return DeviceError::NoMemory;
    }
    *failures = failures.saturating_add(1);
    DeviceError::Failed
}

impl<'a, R: std::rt::Files + AllocGlobal> Files for DiskFiles<'a, R> {
    ghost held = { λ _. None };

    ghost read_faults = { λ d _. d.read };

    ghost write_faults = { λ d _. d.write };

    fn read(&mut self, name: &str, at: u64, buf: &mut [u8]) -> Result<usize, DeviceError> {
        match read_on(self.rt, &mut self.reading, name, at, buf) {
            Ok(count) => Ok(count),
            Err(error) => Err(counted(&error, &mut self.read_failures)),
        }
    }

    fn create(&mut self, name: &str) -> Result<(), DeviceError> {
        match create_anew(self.rt, &mut self.writing, name) {
            Ok(()) => Ok(()),
            Err(error) => Err(counted(&error, &mut self.write_failures)),
        }
    }

    fn append(&mut self, name: &str, bytes: &[u8]) -> Result<(), DeviceError> {
        match append_on(self.rt, &mut self.writing, name, bytes) {
            Ok(()) => Ok(()),
            Err(error) => Err(counted(&error, &mut self.write_failures)),
        }
    }
}

/// Standard output. It tells no content.
#[derive(Drop)]
pub struct StdSink<'a, R: Print> {
    rt: &'a R,
    failures: u64,
}

impl<'a, R: Print> Model for StdSink<'a, R> {
    ghost use Rattle.std.specs.Prelude.{ℕ};

    ghost Value = { ℕ };

    ghost view = { λ s. s.failures };
}

impl<'a, R: Print> StdSink<'a, R> {
    pub fn new(rt: &'a R) -> StdSink<'a, R>
        ensures { result ≡ 0 }
    {
        StdSink { rt, failures: 0 }
    }
}

impl<'a, R: Print> Sink for StdSink<'a, R> {
    ghost written = { λ _. None };

    ghost faults = { λ s. s };

    ghost wants = { λ _. 0 };

    fn put(&mut self, bytes: &[u8]) -> Result<(), DeviceError> {
        match write_all(&mut io::writer(self.rt), bytes) {
            Ok(()) => Ok(()),
            Err(_) => {
                self.failures = self.failures.saturating_add(1);
                Err(DeviceError::Failed)
            }
        }
    }
}
