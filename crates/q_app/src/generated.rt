//! The outcome of `gen`: its status and its line.
ghost use Rattle.std.specs.Prelude.{◌≡◌};
ghost use Rattle.q_command.specs.Sinks.{IsSaid, view_sink};
ghost use Rattle.q_app.specs.Generating.{line_of_generated, status_of_generated};

use q_command::{Line, Status, number_line, put, words_line};
use q_io::Sink;

/// What there is to say at the end of `gen`.
#[derive(Clone, Copy, Debug, PartialEq, Eq)]
pub enum Generated {
    /// The formula is written, with so many clauses.
    Written { size: u32 },
    WriteFault,
    NoMemory,
}

impl Generated {
    pub fn status(&self) -> Status
        ensures { result ≡ status_of_generated self.now }
    {
        match self {
            Generated::Written { .. } => Status::Done,
            Generated::WriteFault => Status::WriteFault,
            Generated::NoMemory => Status::NoMemory,
        }
    }

    fn line(&self) -> Line
        ensures { result.bytes ≡ line_of_generated self.now }
    {
        match *self {
            Generated::Written { size } => number_line("generated ", u64::from(size)),
            Generated::WriteFault => words_line("write fault\n"),
            Generated::NoMemory => words_line("no memory\n"),
        }
    }

    /// Puts the line of the outcome.
    pub(crate) fn say<S: Sink>(&self, out: &mut S) -> Status
        ensures { IsSaid (line_of_generated self.now) (status_of_generated self.now) result
            (view_sink S.Sink out.old) (view_sink S.Sink out.new) }
    {
        put(out, self.status(), self.line().as_str().as_bytes())
    }
}
