//! A resolution proof as a program holds it: one row of literals, and for each line what else it says.
ghost use Rattle.std.specs.Prelude.{◌≡◌, ◌<◌, length, slice_get, Some};
ghost use Rattle.q_logic.specs.Prelude.{ArePairs};
ghost use Rattle.q_qrp.specs.Lines.{AreRising, IsBefore, row_of, lines_of, literals_of};

use q_logic::{Clauses, Lit};
use std::marker::Model;

/// What a solver says of the formula at the end of its trace.
#[derive(Clone, Copy, Debug, PartialEq, Eq)]
pub enum Verdict {
    Sat,
    Unsat,
    Unknown,
}

/// The numbers of the lines from which a line follows.
#[derive(Clone, Copy, Debug, PartialEq, Eq)]
pub enum Antecedents {
    Zero,
    One(u32),
    Two(u32, u32),
}

/// A line of a proof without its literals: its number, the line of the text where it begins, and its antecedents.
#[derive(Clone, Copy)]
pub struct Row {
    pub id: u32,
    pub place: u64,
    pub antecedents: Antecedents,
}

/// The lines of a trace in their order, the verdict, and the line of the text where it stands.
#[derive(Drop)]
pub struct Trace {
    rows: Vec<Row>,
    terms: Clauses,
    verdict: Verdict,
    place: u64,
}

impl Model for Trace {
    ghost use Rattle.std.specs.Prelude.{◌≡◌, length};
    ghost use Rattle.q_logic.specs.Prelude.{ArePairs};
    ghost use Rattle.q_qrp.specs.Lines.{IsBefore, Proof, lines_of};

    ghost Value = { Proof };

    ghost view = { λ t. record {
      lines = lines_of t.rows.items t.terms;
      verdict = t.verdict;
      place = t.place;
    } };

    ghost invariant = { λ t. (length t.rows.items ≡ length t.terms) × ArePairs IsBefore t.rows.items };
}

impl Trace {
    pub(crate) fn new(rows: Vec<Row>, terms: Clauses, verdict: Verdict, place: u64) -> Trace
        requires even { length rows.items ≡ length terms }
        requires rising { ArePairs IsBefore rows.items }
        ensures { result ≡ record {
          lines = lines_of rows.items terms;
          verdict = verdict;
          place = place;
        } }
    {
        Trace {
            rows,
            terms,
            verdict,
            place,
        }
    }

    pub fn verdict(&self) -> Verdict
        ensures { result ≡ self.now.verdict }
    {
        self.verdict
    }

    /// The line of the text where the verdict stands.
    pub fn place(&self) -> u64
        ensures { result ≡ self.now.place }
    {
        self.place
    }

    /// The number of lines of the proof.
    pub fn len(&self) -> usize
        ensures { result ≡ length self.now.lines }
    {
        self.rows.len()
    }

    /// What a line says besides its literals.
    pub fn row(&self, at: usize) -> Row
        requires { at < length self.now.lines }
        ensures { Some result ≡ row_of (slice_get self.now.lines at) }
    {
        self.rows[at]
    }

    /// The literals of a line, in the order of the text.
    pub fn literals(&self, at: usize) -> &[Lit]
        requires { at < length self.now.lines }
        ensures { Some result.now ≡ literals_of (slice_get self.now.lines at) }
    {
        self.terms.clause(at)
    }

    /// A law on each trace: the numbers of its lines rise.
    pub fn rises(&self)
        ensures { AreRising self.now.lines }
    {
        let _ = &self.rows;
    }
}
