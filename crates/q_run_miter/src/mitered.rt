//! What there is to say at the end of `miter`: its status and its line.
ghost use Rattle.std.specs.Prelude.{◌≡◌};
ghost use Rattle.q_command.specs.Sinks.{IsSaid, view_sink};
ghost use Rattle.q_run_miter.specs.MiteredLines.{line_of_mitered, status_of_mitered};

use q_command::{Line, Status, Unfit, number_line, place, put, words_line};
use q_io::Sink;

/// What there is to say at the end of `miter`.
#[derive(Clone, Copy, Debug, PartialEq, Eq)]
pub enum Mitered {
    /// OUT is written, with so many clauses.
    Written { clauses: u64 },
    /// IN is no formula.
    RefusedInput { line: u64, cause: u8 },
    /// CERT is no text of circuits.
    RefusedText { line: u64, cause: u8 },
    /// The circuits are none of the formula.
    RefusedCircuits { why: Unfit },
    /// The clauses would pass a limit.
    TooLarge,
    ReadFault,
    WriteFault,
    NoMemory,
}

impl Mitered {
    pub fn status(&self) -> Status
        ensures { result ≡ status_of_mitered self.now }
    {
        match self {
            Mitered::Written { .. } => Status::Done,
            Mitered::RefusedInput { .. } => Status::InputRefused,
            Mitered::RefusedText { .. } => Status::CircuitsRefused,
            Mitered::RefusedCircuits { .. } => Status::CircuitsRefused,
            Mitered::TooLarge => Status::CircuitsRefused,
            Mitered::ReadFault => Status::ReadFault,
            Mitered::WriteFault => Status::WriteFault,
            Mitered::NoMemory => Status::NoMemory,
        }
    }

    fn line(&self) -> Line
        ensures { result.bytes ≡ line_of_mitered self.now }
    {
        match *self {
            Mitered::Written { clauses } => number_line("written ", clauses),
            Mitered::RefusedInput { line, cause } => place("input IN line ", line, cause),
            Mitered::RefusedText { line, cause } => place("circuits line ", line, cause),
            Mitered::RefusedCircuits { why } => why.line(),
            Mitered::TooLarge => words_line("circuits too large\n"),
            Mitered::ReadFault => words_line("read fault\n"),
            Mitered::WriteFault => words_line("write fault\n"),
            Mitered::NoMemory => words_line("no memory\n"),
        }
    }

    /// Puts the line.
    pub fn say<S: Sink>(&self, out: &mut S) -> Status
        ensures { IsSaid (line_of_mitered self.now) (status_of_mitered self.now) result
            (view_sink S.Sink out.old) (view_sink S.Sink out.new) }
    {
        put(out, self.status(), self.line().as_str().as_bytes())
    }
}
