//! The outcome of `rebuild`: its status and its line.
ghost use Rattle.std.specs.Prelude.{◌≡◌};
ghost use Rattle.q_command.specs.Sinks.{IsSaid, view_sink};
ghost use Rattle.q_app.specs.RebuiltLines.{line_of_rebuilt, status_of_rebuilt};

use q_command::{Line, Outcome, Status, Unfit, number_line, place, put, words_line};
use q_io::Sink;

/// What there is to say at the end of `rebuild`.
#[derive(Clone, Copy, Debug, PartialEq, Eq)]
pub enum Rebuilt {
    /// The certificate is written, with so many gates.
    Written { gates: u64 },
    /// The log is not verified.
    Unverified { why: Outcome },
    /// The file is no text of circuits.
    RefusedText { line: u64, cause: u8 },
    /// The circuits are none of the formula of OUT.
    RefusedCircuits { why: Unfit },
    FalseOutput,
    ReadFault,
    WriteFault,
    NoMemory,
}

impl Rebuilt {
    pub fn status(&self) -> Status
        ensures { result ≡ status_of_rebuilt self.now }
    {
        match self {
            Rebuilt::Written { .. } => Status::Done,
            Rebuilt::Unverified { why } => why.status(),
            Rebuilt::RefusedText { .. } => Status::CircuitsRefused,
            Rebuilt::RefusedCircuits { .. } => Status::CircuitsRefused,
            Rebuilt::FalseOutput => Status::CircuitsRefused,
            Rebuilt::ReadFault => Status::ReadFault,
            Rebuilt::WriteFault => Status::WriteFault,
            Rebuilt::NoMemory => Status::NoMemory,
        }
    }

    fn line(&self) -> Line
        ensures { result.bytes ≡ line_of_rebuilt self.now }
    {
        match *self {
            Rebuilt::Written { gates } => number_line("rebuilt ", gates),
            Rebuilt::Unverified { why } => why.line(),
            Rebuilt::RefusedText { line, cause } => place("circuits line ", line, cause),
            Rebuilt::RefusedCircuits { why } => why.line(),
            Rebuilt::FalseOutput => words_line("circuits of a false output\n"),
            Rebuilt::ReadFault => words_line("read fault\n"),
            Rebuilt::WriteFault => words_line("write fault\n"),
            Rebuilt::NoMemory => words_line("no memory\n"),
        }
    }

    /// Puts the line of the outcome.
    pub(crate) fn say<S: Sink>(&self, out: &mut S) -> Status
        ensures { IsSaid (line_of_rebuilt self.now) (status_of_rebuilt self.now) result
            (view_sink S.Sink out.old) (view_sink S.Sink out.new) }
    {
        put(out, self.status(), self.line().as_str().as_bytes())
    }
}
