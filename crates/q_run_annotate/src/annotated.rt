//! The outcome of `annotate`: its status and its line.
ghost use Rattle.std.specs.Prelude.{◌≡◌};
ghost use Rattle.q_command.specs.Sinks.{IsSaid, view_sink};
ghost use Rattle.q_run_annotate.specs.AnnotatedLines.{line_of_annotated, status_of_annotated};

use q_command::{Line, Outcome, Status, number_line, put, words_line};
use q_io::Sink;

/// What there is to say at the end of `annotate`.
#[derive(Clone, Copy, Debug, PartialEq, Eq)]
pub enum Annotated {
    /// The log with hints is written, with so many steps.
    Written { steps: u64 },
    /// The log is not verified.
    Unverified { why: Outcome },
    WriteFault,
    NoMemory,
}

impl Annotated {
    pub fn status(&self) -> Status
        ensures { result ≡ status_of_annotated self.now }
    {
        match self {
            Annotated::Written { .. } => Status::Done,
            Annotated::Unverified { why } => why.status(),
            Annotated::WriteFault => Status::WriteFault,
            Annotated::NoMemory => Status::NoMemory,
        }
    }

    fn line(&self) -> Line
        ensures { result.bytes ≡ line_of_annotated self.now }
    {
        match *self {
            Annotated::Written { steps } => number_line("annotated ", steps),
            Annotated::Unverified { why } => why.line(),
            Annotated::WriteFault => words_line("write fault\n"),
            Annotated::NoMemory => words_line("no memory\n"),
        }
    }

    /// Puts the line of the outcome.
    pub fn say<S: Sink>(&self, out: &mut S) -> Status
        ensures { IsSaid (line_of_annotated self.now) (status_of_annotated self.now) result
            (view_sink S.Sink out.old) (view_sink S.Sink out.new) }
    {
        put(out, self.status(), self.line().as_str().as_bytes())
    }
}
