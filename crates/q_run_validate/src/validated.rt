//! The outcome of `validate`: its status and its line. The line of a counterexample is made before it is put, since it may
//! be of any length and want memory (`text`).
ghost use Rattle.std.specs.Prelude.{◌≡◌};
ghost use Rattle.q_command.specs.Sinks.{IsSaid, view_sink};
ghost use Rattle.q_run_validate.specs.ValidatedLines.{line_of_validated, status_of_validated};

use q_command::{Status, Unfit, place, put};
use q_io::Sink;

/// What there is to say at the end of `validate`.
#[derive(Drop)]
pub enum Validated {
    /// The circuits are Skolem functions of the formula.
    Valid,
    /// They are not, and this line tells the universals where some clause is false.
    Invalid { text: Vec<u8> },
    /// The budget was spent before the end.
    Unknown,
    /// IN is no formula.
    RefusedInput { line: u64, cause: u8 },
    /// CERT is no text of circuits.
    RefusedText { line: u64, cause: u8 },
    /// The circuits are none of the formula.
    RefusedCircuits { why: Unfit },
    ReadFault,
    NoMemory,
}

impl Validated {
    pub fn status(&self) -> Status
        ensures { result ≡ status_of_validated self.now }
    {
        match self {
            Validated::Valid => Status::Done,
            Validated::Invalid { .. } => Status::Invalid,
            Validated::Unknown => Status::Unknown,
            Validated::RefusedInput { .. } => Status::InputRefused,
            Validated::RefusedText { .. } => Status::CircuitsRefused,
            Validated::RefusedCircuits { .. } => Status::CircuitsRefused,
            Validated::ReadFault => Status::ReadFault,
            Validated::NoMemory => Status::NoMemory,
        }
    }

    /// Puts the line of the outcome.
    pub fn say<S: Sink>(&self, out: &mut S) -> Status
        ensures { IsSaid (line_of_validated self.now) (status_of_validated self.now) result
            (view_sink S.Sink out.old) (view_sink S.Sink out.new) }
    {
        let status = self.status();
        match self {
            Validated::Valid => put(out, status, b"valid\n"),
            Validated::Invalid { text } => put(out, status, text),
            Validated::Unknown => put(out, status, b"unknown\n"),
            Validated::RefusedInput { line, cause } => {
                let words = place("input IN line ", *line, *cause);
                put(out, status, words.as_str().as_bytes())
            }
            Validated::RefusedText { line, cause } => {
                let words = place("circuits line ", *line, *cause);
                put(out, status, words.as_str().as_bytes())
            }
            Validated::RefusedCircuits { why } => put(out, status, why.line().as_str().as_bytes()),
            Validated::ReadFault => put(out, status, b"read fault\n"),
            Validated::NoMemory => put(out, status, b"no memory\n"),
        }
    }
}
