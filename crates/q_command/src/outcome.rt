//! The outcome of a check of a log. Commands that check one first hold it in their own outcome, and say its line.
ghost use Rattle.std.specs.Prelude.{◌≡◌};
ghost use Rattle.q_command.specs.Statuses.{status_of};
ghost use Rattle.q_command.specs.Lines.{line_of};
ghost use Rattle.q_command.specs.Sinks.{IsSaid, view_sink};

use crate::line::{Line, number_line, place, put, words_line};
use crate::status::Status;
use q_io::Sink;

/// An operand that holds a formula.
#[derive(Clone, Copy, Debug, PartialEq, Eq)]
pub enum Role {
    In,
    Out,
}

/// What there is to say of three files at the end of `check`.
#[derive(Clone, Copy, Debug, PartialEq, Eq)]
pub enum Outcome {
    /// The log is a run from the formula of IN to that of OUT.
    Verified { steps: u64 },
    /// A line of the log is no step, or its step is not valid.
    RefusedLine { line: u64, cause: u8 },
    /// The steps are valid and do not end in the formula of OUT.
    RefusedEnd { cause: u8 },
    /// A file is no formula.
    RefusedInput { role: Role, line: u64, cause: u8 },
    ReadFault,
    NoMemory,
}

impl Outcome {
    pub fn status(&self) -> Status
        ensures { result ≡ status_of self.now }
    {
        match self {
            Outcome::Verified { .. } => Status::Done,
            Outcome::RefusedLine { .. } => Status::LogRefused,
            Outcome::RefusedEnd { .. } => Status::LogRefused,
            Outcome::RefusedInput { .. } => Status::InputRefused,
            Outcome::ReadFault => Status::ReadFault,
            Outcome::NoMemory => Status::NoMemory,
        }
    }

    pub fn line(&self) -> Line
        ensures { result.bytes ≡ line_of self.now }
    {
        match *self {
            Outcome::Verified { steps } => number_line("verified ", steps),
            Outcome::RefusedLine { line, cause } => place("refused line ", line, cause),
            Outcome::RefusedEnd { cause } => number_line("refused end cause ", u64::from(cause)),
            Outcome::RefusedInput { role, line, cause } => match role {
                Role::In => place("input IN line ", line, cause),
                Role::Out => place("input OUT line ", line, cause),
            },
            Outcome::ReadFault => words_line("read fault\n"),
            Outcome::NoMemory => words_line("no memory\n"),
        }
    }

    /// Puts the line of the outcome.
    pub fn say<S: Sink>(&self, out: &mut S) -> Status
        ensures { IsSaid (line_of self.now) (status_of self.now) result
            (view_sink S.Sink out.old) (view_sink S.Sink out.new) }
    {
        put(out, self.status(), self.line().as_str().as_bytes())
    }
}
