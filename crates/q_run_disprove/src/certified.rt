//! What there is to say at the end of `disprove` with circuits: its status and its line.
ghost use Rattle.std.specs.Prelude.{◌≡◌};
ghost use Rattle.q_command.specs.Sinks.{IsSaid, view_sink};
ghost use Rattle.q_run_disprove.specs.CertifiedLines.{line_of_certified, status_of_certified};

use crate::disproved::Disproved;
use q_command::{Line, Status, number_line, put, words_line};
use q_io::Sink;

/// What there is to say at the end of `disprove` with circuits.
#[derive(Clone, Copy, Debug, PartialEq, Eq)]
pub enum Certified {
    /// The formula is false: so many steps lead to the empty clause, and the circuits are written.
    False { steps: u64 },
    /// The formula is false, but the first extended drop before the empty clause stands on this line.
    Extended { line: u64 },
    /// The formula is not shown to be false.
    Undisproved { why: Disproved },
    WriteFault,
    NoMemory,
}

impl Certified {
    pub fn status(&self) -> Status
        ensures { result ≡ status_of_certified self.now }
    {
        match self {
            Certified::False { .. } => Status::False,
            Certified::Extended { .. } => Status::Extended,
            Certified::Undisproved { why } => why.status(),
            Certified::WriteFault => Status::WriteFault,
            Certified::NoMemory => Status::NoMemory,
        }
    }

    fn line(&self) -> Line
        ensures { result.bytes ≡ line_of_certified self.now }
    {
        match *self {
            Certified::False { steps } => number_line("false ", steps),
            Certified::Extended { line } => number_line("extended line ", line),
            Certified::Undisproved { why } => why.line(),
            Certified::WriteFault => words_line("write fault\n"),
            Certified::NoMemory => words_line("no memory\n"),
        }
    }

    /// Puts the line.
    pub fn say<S: Sink>(&self, out: &mut S) -> Status
        ensures { IsSaid (line_of_certified self.now) (status_of_certified self.now) result
            (view_sink S.Sink out.old) (view_sink S.Sink out.new) }
    {
        put(out, self.status(), self.line().as_str().as_bytes())
    }
}
