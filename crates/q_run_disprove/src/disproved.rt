//! What there is to say at the end of `disprove`: its status and its line.
ghost use Rattle.std.specs.Prelude.{◌≡◌};
ghost use Rattle.q_command.specs.Sinks.{IsSaid, view_sink};
ghost use Rattle.q_run_disprove.specs.DisprovedLines.{line_of_disproved, status_of_disproved};

use q_command::{Line, Status, number_line, place, put, words_line};
use q_io::Sink;

/// What there is to say at the end of `disprove`.
#[derive(Clone, Copy, Debug, PartialEq, Eq)]
pub enum Disproved {
    /// The formula is false: so many steps lead to the empty clause.
    False { steps: u64 },
    /// Before the empty clause a line of the proof is no step, or its step may not be made.
    RefusedLine { line: u64, cause: u8 },
    /// The proof ends without the empty clause.
    RefusedEnd,
    /// IN is no formula.
    RefusedInput { line: u64, cause: u8 },
    ReadFault,
    NoMemory,
}

impl Disproved {
    pub fn status(&self) -> Status
        ensures { result ≡ status_of_disproved self.now }
    {
        match self {
            Disproved::False { .. } => Status::False,
            Disproved::RefusedLine { .. } => Status::LogRefused,
            Disproved::RefusedEnd => Status::LogRefused,
            Disproved::RefusedInput { .. } => Status::InputRefused,
            Disproved::ReadFault => Status::ReadFault,
            Disproved::NoMemory => Status::NoMemory,
        }
    }

    pub(crate) fn line(&self) -> Line
        ensures { result.bytes ≡ line_of_disproved self.now }
    {
        match *self {
            Disproved::False { steps } => number_line("false ", steps),
            Disproved::RefusedLine { line, cause } => place("refused line ", line, cause),
            Disproved::RefusedEnd => number_line("refused end cause ", 11),
            Disproved::RefusedInput { line, cause } => place("input IN line ", line, cause),
            Disproved::ReadFault => words_line("read fault\n"),
            Disproved::NoMemory => words_line("no memory\n"),
        }
    }

    /// Puts the line.
    pub fn say<S: Sink>(&self, out: &mut S) -> Status
        ensures { IsSaid (line_of_disproved self.now) (status_of_disproved self.now) result
            (view_sink S.Sink out.old) (view_sink S.Sink out.new) }
    {
        put(out, self.status(), self.line().as_str().as_bytes())
    }
}
