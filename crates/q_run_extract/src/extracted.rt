//! What there is to say at the end of `extract`: its status and its line.
ghost use Rattle.std.specs.Prelude.{◌≡◌};
ghost use Rattle.q_command.specs.Sinks.{IsSaid, view_sink};
ghost use Rattle.q_run_extract.specs.ExtractedLines.{line_of_extracted, status_of_extracted};

use q_command::{Line, Status, number_line, place, put, words_line};
use q_io::Sink;

/// What there is to say at the end of `extract`.
#[derive(Clone, Copy, Debug, PartialEq, Eq)]
pub enum Extracted {
    /// The trace proves the formula true, and its Skolem functions are written, with so many gates.
    True { gates: u64 },
    /// The trace proves the formula false, and its Herbrand functions are written, with so many gates.
    False { gates: u64 },
    /// The solver did not know.
    Unknown,
    /// The trace is no proof: its first offence, or its first line that doesn't follow.
    RefusedTrace { line: u64, cause: u8 },
    /// IN is no formula.
    RefusedInput { line: u64, cause: u8 },
    ReadFault,
    WriteFault,
    NoMemory,
}

impl Extracted {
    pub fn status(&self) -> Status
        ensures { result ≡ status_of_extracted self.now }
    {
        match self {
            Extracted::True { .. } => Status::True,
            Extracted::False { .. } => Status::False,
            Extracted::Unknown => Status::Unknown,
            Extracted::RefusedTrace { .. } => Status::LogRefused,
            Extracted::RefusedInput { .. } => Status::InputRefused,
            Extracted::ReadFault => Status::ReadFault,
            Extracted::WriteFault => Status::WriteFault,
            Extracted::NoMemory => Status::NoMemory,
        }
    }

    fn line(&self) -> Line
        ensures { result.bytes ≡ line_of_extracted self.now }
    {
        match *self {
            Extracted::True { gates } => number_line("true ", gates),
            Extracted::False { gates } => number_line("false ", gates),
            Extracted::Unknown => words_line("unknown\n"),
            Extracted::RefusedTrace { line, cause } => place("refused line ", line, cause),
            Extracted::RefusedInput { line, cause } => place("input IN line ", line, cause),
            Extracted::ReadFault => words_line("read fault\n"),
            Extracted::WriteFault => words_line("write fault\n"),
            Extracted::NoMemory => words_line("no memory\n"),
        }
    }

    /// Puts the line.
    pub fn say<S: Sink>(&self, out: &mut S) -> Status
        ensures { IsSaid (line_of_extracted self.now) (status_of_extracted self.now) result
            (view_sink S.Sink out.old) (view_sink S.Sink out.new) }
    {
        put(out, self.status(), self.line().as_str().as_bytes())
    }
}
