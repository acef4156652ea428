//! The outcome of `simplify`: its status and its line.
ghost use Rattle.std.specs.Prelude.{◌≡◌};
ghost use Rattle.q_command.specs.Sinks.{IsSaid, view_sink};
ghost use Rattle.q_app.specs.Statuses.{status_of_ending, status_of_simplified};
ghost use Rattle.q_app.specs.Lines.{line_of_report, line_of_simplified};

use q_command::{Line, Status, numbers_line, place, put, words_line};
use q_io::Sink;
use q_simplify::{Ending, Report};

/// What there is to say at the end of `simplify`.
#[derive(Clone, Copy, Debug, PartialEq, Eq)]
pub enum Simplified {
    /// The result and the log are written.
    Written { report: Report },
    /// The file is no formula.
    RefusedInput { line: u64, cause: u8 },
    ReadFault,
    WriteFault,
    NoMemory,
}

fn status_of(ending: Ending) -> Status
    ensures { result ≡ status_of_ending ending }
{
    match ending {
        Ending::Settled => Status::Done,
        Ending::True => Status::True,
        Ending::False => Status::False,
        Ending::Spent => Status::Spent,
        Ending::Stopped => Status::Spent,
    }
}

impl Simplified {
    pub fn status(&self) -> Status
        ensures { result ≡ status_of_simplified self.now }
    {
        match self {
            Simplified::Written { report } => status_of(report.ending),
            Simplified::RefusedInput { .. } => Status::InputRefused,
            Simplified::ReadFault => Status::ReadFault,
            Simplified::WriteFault => Status::WriteFault,
            Simplified::NoMemory => Status::NoMemory,
        }
    }

    fn line(&self) -> Line
        ensures { result.bytes ≡ line_of_simplified self.now }
    {
        match *self {
            Simplified::Written { report } => measures(report),
            Simplified::RefusedInput { line, cause } => place("input IN line ", line, cause),
            Simplified::ReadFault => words_line("read fault\n"),
            Simplified::WriteFault => words_line("write fault\n"),
            Simplified::NoMemory => words_line("no memory\n"),
        }
    }

    /// Puts the line of the outcome.
    pub(crate) fn say<S: Sink>(&self, out: &mut S) -> Status
        ensures { IsSaid (line_of_simplified self.now) (status_of_simplified self.now) result
            (view_sink S.Sink out.old) (view_sink S.Sink out.new) }
    {
        put(out, self.status(), self.line().as_str().as_bytes())
    }
}

fn measures(report: Report) -> Line
    ensures { result.bytes ≡ line_of_report report }
{
    match report.ending {
        Ending::Settled => numbers_line("settled ", report.before, " ", report.after),
        Ending::True => numbers_line("true ", report.before, " ", report.after),
        Ending::False => numbers_line("false ", report.before, " ", report.after),
        Ending::Spent => numbers_line("spent ", report.before, " ", report.after),
        Ending::Stopped => numbers_line("stopped ", report.before, " ", report.after),
    }
}
