//! Files whose bytes are counted on a board, and whose faults it names.
ghost use Rattle.std.specs.Prelude.{◌≡◌};

use crate::board::Board;
use q_io::{DeviceError, Files};

/// These files, with what was read and written noted, and what failed said.
#[derive(Drop)]
pub(crate) struct Watched<'a, F: Files + Drop> {
    files: F,
    board: &'a Board,
}

impl<'a, F: Files + Drop> Watched<'a, F> {
    pub(crate) fn new(files: F, board: &'a Board) -> Watched<'a, F>
        ensures { result.files ≡ files }
    {
        Watched { files, board }
    }
}

impl<'a, F: Files + Drop> Files for Watched<'a, F> {
    ghost held = { λ w. F.held w.files };

    ghost read_faults = { λ w name. F.read_faults w.files name };

    ghost write_faults = { λ w name. F.write_faults w.files name };

    fn read(&mut self, name: &str, at: u64, buf: &mut [u8]) -> Result<usize, DeviceError> {
        let result = self.files.read(name, at, buf);
        match result {
            Ok(count) => self.board.note_read(name, at.saturating_add(count as u64)),
            // a file that can't be opened is named before the program starts
            Err(DeviceError::Failed) if at > 0 => self.board.say_read_fault(name, at),
            Err(_) => {}
        }
        result
    }

    fn create(&mut self, name: &str) -> Result<(), DeviceError> {
        self.board.note_made();
        self.files.create(name)
    }

    fn append(&mut self, name: &str, bytes: &[u8]) -> Result<(), DeviceError> {
        let result = self.files.append(name, bytes);
        match result {
            Ok(()) => self.board.note_written(bytes),
            Err(DeviceError::Failed) => self.board.say_write_fault(name),
            Err(DeviceError::NoMemory) => {}
        }
        result
    }
}
