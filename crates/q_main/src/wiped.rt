//! Standard output, where it shares its terminal with the lines of a board.

use crate::board::Board;
use crate::explained::explain;
use std::cell::RefCell;
use std::fmt::Display;
use std::io;

// So many bytes of a line are remembered; a line that is explained is shorter.
const LONGEST: usize = 96;

// The front of what was printed.
#[derive(Drop)]
struct Front {
    bytes: [u8; LONGEST],
    len: usize,
}

/// Prints, and takes the line of progress away first.
#[derive(Drop)]
pub(crate) struct Wiped<'a> {
    rt: &'a HostRuntime,
    board: &'a Board,
    printed: RefCell<Front>,
}

impl<'a> Wiped<'a> {
    pub(crate) fn new(rt: &'a HostRuntime, board: &'a Board) -> Wiped<'a> {
        let printed = RefCell::new(Front {
            bytes: [0; LONGEST],
            len: 0,
        });
        Wiped { rt, board, printed }
    }

    // Remembers what was printed; of several lines the last.
    fn remember(&self, bytes: &[u8]) {
        let Ok(mut front) = self.printed.try_borrow_mut() else {
            return;
        };
        for byte in bytes {
            let ended = front.len > 0
                && front.len <= LONGEST
                && front.bytes[front.len - 1] == b'\n';
            if ended {
                front.len = 0;
            }
            let at = front.len;
            if at < LONGEST {
                front.bytes[at] = *byte;
                front.len = at + 1;
            }
        }
    }

    /// Says on standard error what the last line means, where it is a refusal by a command.
    pub(crate) fn explain(&self, command: &str) {
        let Ok(front) = self.printed.try_borrow() else {
            return;
        };
        if front.len > LONGEST {
            return;
        }
        if let Ok(line) = std::str::from_utf8(&front.bytes[..front.len]) {
            explain(self.rt, command, line);
        }
    }
}

impl<'a> Print for Wiped<'a> {
    fn print<D: Display + Drop>(&self, value: D) -> io::Result<()> {
        self.board.wipe();
        self.rt.print(value)
    }

    fn println<D: Display + Drop>(&self, value: D) -> io::Result<()> {
        self.board.wipe();
        self.rt.println(value)
    }

    fn write_all(&self, bytes: &[u8]) -> io::Result<()> {
        self.board.wipe();
        self.remember(bytes);
        self.rt.write_all(bytes)
    }

    fn write_some(&self, bytes: &[u8]) -> io::Result<usize> {
        self.board.wipe();
        let result = self.rt.write_some(bytes);
        match result {
            Ok(count) if count <= bytes.len() => self.remember(&bytes[..count]),
            Ok(_) => {}
            Err(_) => self.board.say_print_fault(),
        }
        result
    }
}
