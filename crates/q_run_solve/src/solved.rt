//! The outcome of `solve`: its status and its line.
ghost use Rattle.std.specs.Prelude.{◌≡◌};
ghost use Rattle.q_command.specs.Sinks.{IsSaid, view_sink};
ghost use Rattle.q_run_solve.specs.SolvedLines.{line_of_solved, status_of_solved};

use q_command::{Line, Status, number_line, place, put, words_line};
use q_io::Sink;

/// What there is to say at the end of `solve`.
#[derive(Clone, Copy, Debug, PartialEq, Eq)]
pub enum Solved {
    /// The formula is true, and its certificate is written, with so many gates.
    True { gates: u64 },
    /// The formula is false.
    False,
    /// The budget of decisions is spent.
    Unknown,
    /// The file is no formula.
    RefusedInput { line: u64, cause: u8 },
    ReadFault,
    WriteFault,
    NoMemory,
}

impl Solved {
    pub fn status(&self) -> Status
        ensures { result ≡ status_of_solved self.now }
    {
        match self {
            Solved::True { .. } => Status::True,
            Solved::False => Status::False,
            Solved::Unknown => Status::Unknown,
            Solved::RefusedInput { .. } => Status::InputRefused,
            Solved::ReadFault => Status::ReadFault,
            Solved::WriteFault => Status::WriteFault,
            Solved::NoMemory => Status::NoMemory,
        }
    }

    fn line(&self) -> Line
        ensures { result.bytes ≡ line_of_solved self.now }
    {
        match *self {
            Solved::True { gates } => number_line("true ", gates),
            Solved::False => words_line("false\n"),
            Solved::Unknown => words_line("unknown\n"),
            Solved::RefusedInput { line, cause } => place("input IN line ", line, cause),
            Solved::ReadFault => words_line("read fault\n"),
            Solved::WriteFault => words_line("write fault\n"),
            Solved::NoMemory => words_line("no memory\n"),
        }
    }

    /// Puts the line of the outcome.
    pub fn say<S: Sink>(&self, out: &mut S) -> Status
        ensures { IsSaid (line_of_solved self.now) (status_of_solved self.now) result
            (view_sink S.Sink out.old) (view_sink S.Sink out.new) }
    {
        put(out, self.status(), self.line().as_str().as_bytes())
    }
}
