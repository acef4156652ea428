//! What there is to say at the end of `apply`: its status and its line.
ghost use Rattle.std.specs.Prelude.{◌≡◌};
ghost use Rattle.q_command.specs.Sinks.{IsSaid, view_sink};
ghost use Rattle.q_run_apply.specs.AppliedLines.{line_of_applied, status_of_applied};

use q_command::{Line, Status, number_line, numbers_line, place, put, words_line};
use q_io::Sink;

/// What there is to say at the end of `apply`.
#[derive(Clone, Copy, Debug, PartialEq, Eq)]
pub enum Applied {
    /// OUT holds the formula behind all steps of LOG, which are so many.
    Whole { steps: u64 },
    /// LOG breaks off on this line, and OUT holds the formula behind its whole steps, which are so many.
    Broken { steps: u64, line: u64 },
    /// A line of LOG is no step, or its step can't be made.
    RefusedLine { line: u64, cause: u8 },
    /// IN is no formula.
    RefusedInput { line: u64, cause: u8 },
    ReadFault,
    WriteFault,
    NoMemory,
}

impl Applied {
    pub fn status(&self) -> Status
        ensures { result ≡ status_of_applied self.now }
    {
        match self {
            Applied::Whole { .. } => Status::Done,
            Applied::Broken { .. } => Status::Done,
            Applied::RefusedLine { .. } => Status::LogRefused,
            Applied::RefusedInput { .. } => Status::InputRefused,
            Applied::ReadFault => Status::ReadFault,
            Applied::WriteFault => Status::WriteFault,
            Applied::NoMemory => Status::NoMemory,
        }
    }

    fn line(&self) -> Line
        ensures { result.bytes ≡ line_of_applied self.now }
    {
        match *self {
            Applied::Whole { steps } => number_line("applied ", steps),
            Applied::Broken { steps, line } => {
                numbers_line("applied ", steps, " broken line ", line)
            }
            Applied::RefusedLine { line, cause } => place("refused line ", line, cause),
            Applied::RefusedInput { line, cause } => place("input IN line ", line, cause),
            Applied::ReadFault => words_line("read fault\n"),
            Applied::WriteFault => words_line("write fault\n"),
            Applied::NoMemory => words_line("no memory\n"),
        }
    }

    /// Puts the line.
    pub fn say<S: Sink>(&self, out: &mut S) -> Status
        ensures { IsSaid (line_of_applied self.now) (status_of_applied self.now) result
            (view_sink S.Sink out.old) (view_sink S.Sink out.new) }
    {
        put(out, self.status(), self.line().as_str().as_bytes())
    }
}
