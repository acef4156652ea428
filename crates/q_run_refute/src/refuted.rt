//! What there is to say at the end of `refute`: its status and its line.
ghost use Rattle.std.specs.Prelude.{◌≡◌};
ghost use Rattle.q_command.specs.Sinks.{IsSaid, view_sink};
ghost use Rattle.q_run_refute.specs.RefutedLines.{line_of_refuted, status_of_refuted};

use q_command::{Line, Outcome, Status, Unfit, number_line, place, put, words_line};
use q_io::Sink;

/// What there is to say at the end of `refute`.
#[derive(Clone, Copy, Debug, PartialEq, Eq)]
pub enum Refuted {
    /// The certificate is written, with so many gates.
    Written { gates: u64 },
    /// The log is not verified.
    Unverified { why: Outcome },
    /// The first extended drop of the log begins on this line.
    Extended { line: u64 },
    /// The file is no text of circuits.
    RefusedText { line: u64, cause: u8 },
    /// The circuits are none of the formula of OUT: outputs are its universals, and inputs existentials before them.
    RefusedCircuits { why: Unfit },
    /// The formula of OUT has no clause.
    TrueOutput,
    ReadFault,
    WriteFault,
    NoMemory,
}

impl Refuted {
    pub fn status(&self) -> Status
        ensures { result ≡ status_of_refuted self.now }
    {
        match self {
            Refuted::Written { .. } => Status::Done,
            Refuted::Unverified { why } => why.status(),
            Refuted::Extended { .. } => Status::Extended,
            Refuted::RefusedText { .. } => Status::CircuitsRefused,
            Refuted::RefusedCircuits { .. } => Status::CircuitsRefused,
            Refuted::TrueOutput => Status::CircuitsRefused,
            Refuted::ReadFault => Status::ReadFault,
            Refuted::WriteFault => Status::WriteFault,
            Refuted::NoMemory => Status::NoMemory,
        }
    }

    fn line(&self) -> Line
        ensures { result.bytes ≡ line_of_refuted self.now }
    {
        match *self {
            Refuted::Written { gates } => number_line("refuted ", gates),
            Refuted::Unverified { why } => why.line(),
            Refuted::Extended { line } => number_line("extended line ", line),
            Refuted::RefusedText { line, cause } => place("circuits line ", line, cause),
            Refuted::RefusedCircuits { why } => why.line(),
            Refuted::TrueOutput => words_line("circuits of a true output\n"),
            Refuted::ReadFault => words_line("read fault\n"),
            Refuted::WriteFault => words_line("write fault\n"),
            Refuted::NoMemory => words_line("no memory\n"),
        }
    }

    /// Puts the line.
    pub fn say<S: Sink>(&self, out: &mut S) -> Status
        ensures { IsSaid (line_of_refuted self.now) (status_of_refuted self.now) result
            (view_sink S.Sink out.old) (view_sink S.Sink out.new) }
    {
        put(out, self.status(), self.line().as_str().as_bytes())
    }
}
