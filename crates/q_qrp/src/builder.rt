// What the words of a trace give, word by word.
ghost use Rattle.std.specs.Prelude.{◌≡◌, ◌<◌, ◌^◌, IfOk, Ok, false};
ghost use Rattle.q_qrp.specs.declared.builder.Place.{Place};
ghost use Rattle.q_qrp.specs.Reading.{is_open, nothing_read, number_in, plain_in, problem, format, counted, in_set, number_of_line, line_or_answer, set_or_line, in_literals, in_antecedents, one_more, verdict_named, answered, step_of, ended_line};
ghost use Rattle.q_qrp.specs.Steps.{IsNumber, Steps, error_at};
ghost use Rattle.q_qrp.specs.Scanning.{is_done, proof_in};

use crate::error::{Cause, TraceError};
use crate::trace::{Antecedents, Row, Trace, Verdict};
use crate::words::{QRP, SAT, Spoken, UNKNOWN, UNSAT};
use q_logic::{Clauses, Lit, Lits, NoMemory};
use q_text::TokenKind;
use std::alloc::Global;
use std::marker::Model;

/// The greatest number that a trace may name.
const GREATEST: u64 = 2_147_483_647;

/// What stands next.
#[derive(Clone, Copy)]
pub enum Place {
    Problem,
    Format,
    First,
    Second,
    Sets,
    InSet,
    Lines,
    Literals,
    After,
    Answer,
    Done(Verdict, u64),
}

/// Why a word was not taken.
#[derive(Clone, Copy)]
pub enum Fault {
    Refused(Cause),
    NoMemory,
}

impl Fault {
    /// The error of the fault in a line.
    pub fn at(self, line: u64) -> TraceError
        ensures { result ≡ error_at line self }
    {
        match self {
            Fault::Refused(cause) => TraceError::Refused {
                line,
                cause: cause.number(),
            },
            Fault::NoMemory => TraceError::NoMemory,
        }
    }
}

impl From<NoMemory> for Fault {
    ghost use Rattle.q_qrp.specs.declared.builder.Fault.TheVariants.{NoMemory as gone};

    ghost from_gives = { λ _ e. e ≡ gone };

    fn from(_: NoMemory) -> Fault {
        Fault::NoMemory
    }
}

/// What the words so far have given.
#[derive(Drop)]
pub struct Builder {
    place: Place,
    rows: Vec<Row>,
    terms: Clauses,
    row: Row,
    pending: Lits,
}

impl Model for Builder {
    ghost use Rattle.q_qrp.specs.declared.builder.Place.{Place};
    ghost use Rattle.q_qrp.specs.Reading.{is_open, Gathered, IsGathered};

    ghost Value = { Gathered };

    ghost view = { λ b. record {
      place = b.place;
      rows = b.rows.items;
      terms = b.terms;
      row = b.row;
      pending = b.pending;
    } };

    ghost invariant = { λ b. IsGathered (record {
      place = b.place;
      rows = b.rows.items;
      terms = b.terms;
      row = b.row;
      pending = b.pending;
    }) };
}

/// A number of a trace.
#[derive(Clone, Copy)]
pub struct Signed {
    pub negative: bool,
    pub value: u32,
}

#[inline(always)]
fn number(kind: TokenKind) -> Result<Signed, Fault>
    ensures value { IsNumber result (number_in kind) }
    ensures small { IfOk result (λ s. s.value < 2 ^ 31) }
{
    match kind {
        TokenKind::Number(n) => {
            let magnitude = n.unsigned_abs();
            if magnitude > GREATEST {
                return Err(Fault::Refused(Cause::Limit));
            }
            Ok(Signed {
                negative: n < 0,
                value: magnitude as u32,
            })
        }
        _ => Err(Fault::Refused(Cause::BadWord)),
    }
}

// A number without sign.
#[inline(always)]
fn plain(kind: TokenKind) -> Result<u32, Fault>
    ensures { IsNumber result (plain_in kind) }
{
    let signed = number(kind)?;
    if signed.negative {
        return Err(Fault::Refused(Cause::BadWord));
    }
    Ok(signed.value)
}

#[inline(always)]
fn one_more(antecedents: Antecedents, id: u32) -> Option<Antecedents>
    ensures { result ≡ one_more antecedents id }
{
    match antecedents {
        Antecedents::Zero => Some(Antecedents::One(id)),
        Antecedents::One(first) => Some(Antecedents::Two(first, id)),
        Antecedents::Two(_, _) => None,
    }
}

fn verdict_named(name: u64) -> Option<Verdict>
    ensures { result ≡ verdict_named name }
{
    if name == SAT {
        return Some(Verdict::Sat);
    }
    if name == UNSAT {
        return Some(Verdict::Unsat);
    }
    if name == UNKNOWN {
        return Some(Verdict::Unknown);
    }
    None
}

impl Builder {
    pub fn new(alloc: Global) -> Builder
        ensures { result ≡ nothing_read }
    {
        Builder {
            place: Place::Problem,
            rows: Vec::new(alloc),
            terms: Clauses::new(alloc),
            row: Row {
                id: 0,
                place: 0,
                antecedents: Antecedents::Zero,
            },
            pending: Lits::new(alloc),
        }
    }

    /// The verdict has been read, and what stands behind it is not.
    #[inline(always)]
    pub fn is_done(&self) -> bool
        ensures { result ≡ is_done self.now.place }
    {
        matches!(self.place, Place::Done(_, _))
    }

    /// Takes a word.
    #[inline(always)]
    pub fn step(&mut self, word: Spoken) -> Result<(), Fault>
        ensures { Steps result (step_of self.old word) self.new }
    {
        match self.place {
            Place::Literals => self.in_literals(word.token.kind),
            Place::After => self.in_antecedents(word.token.kind),
            Place::Lines => self.line_or_answer(word.token.line, word.token.kind),
            _ => self.outside(word),
        }
    }

    #[inline(never)]
    fn outside(&mut self, word: Spoken) -> Result<(), Fault>
        ensures { Steps result (step_of self.old word) self.new }
    {
        let kind = word.token.kind;
        let line = word.token.line;
        match self.place {
            Place::Problem => self.problem(kind),
            Place::Format => self.format(word.name),
            Place::First => self.counted(Place::Second, kind),
            Place::Second => self.counted(Place::Sets, kind),
            Place::Sets => self.set_or_line(line, kind),
            Place::InSet => self.in_set(kind),
            Place::Lines => self.line_or_answer(line, kind),
            Place::Literals => self.in_literals(kind),
            Place::After => self.in_antecedents(kind),
            Place::Answer => self.answered(line, word.name),
            Place::Done(_, _) => Ok(()),
        }
    }

    // Goes on outside of lines.
    #[inline(always)]
    fn go(&mut self, place: Place)
        requires { is_open place ≡ false }
        ensures { self.new ≡ record self.old { place = place } }
    {
        self.place = place;
    }

    fn problem(&mut self, kind: TokenKind) -> Result<(), Fault>
        ensures { Steps result (problem self.old kind) self.new }
    {
        match kind {
            TokenKind::P => {
                self.go(Place::Format);
                Ok(())
            }
            _ => Err(Fault::Refused(Cause::BadWord)),
        }
    }

    fn format(&mut self, name: u64) -> Result<(), Fault>
        ensures { Steps result (format self.old name) self.new }
    {
        if name != QRP {
            return Err(Fault::Refused(Cause::BadWord));
        }
        self.go(Place::First);
        Ok(())
    }

    fn counted(&mut self, next: Place, kind: TokenKind) -> Result<(), Fault>
        requires { is_open next ≡ false }
        ensures { Steps result (counted self.old next kind) self.new }
    {
        plain(kind)?;
        self.go(next);
        Ok(())
    }

    fn in_set(&mut self, kind: TokenKind) -> Result<(), Fault>
        ensures { Steps result (in_set self.old kind) self.new }
    {
        let var = plain(kind)?;
        if var == 0 {
            self.go(Place::Sets);
        }
        Ok(())
    }

    fn set_or_line(&mut self, line: u64, kind: TokenKind) -> Result<(), Fault>
        ensures { Steps result (set_or_line self.old line kind) self.new }
    {
        match kind {
            TokenKind::E | TokenKind::A => {
                self.go(Place::InSet);
                Ok(())
            }
            _ => self.line_or_answer(line, kind),
        }
    }

    #[inline(always)]
    fn line_or_answer(&mut self, line: u64, kind: TokenKind) -> Result<(), Fault>
        ensures { Steps result (line_or_answer self.old line kind) self.new }
    {
        match kind {
            TokenKind::R => {
                self.go(Place::Answer);
                Ok(())
            }
            _ => self.number_of_line(line, kind),
        }
    }

    #[inline(always)]
    fn number_of_line(&mut self, line: u64, kind: TokenKind) -> Result<(), Fault>
        ensures { Steps result (number_of_line self.old line kind) self.new }
    {
        let id = plain(kind)?;
        if id == 0 {
            return Err(Fault::Refused(Cause::BadWord));
        }
        if id <= self.row.id {
            return Err(Fault::Refused(Cause::NotRising));
        }
        self.row = Row {
            id,
            place: line,
            antecedents: Antecedents::Zero,
        };
        self.pending.clear();
        self.place = Place::Literals;
        Ok(())
    }

    #[inline(always)]
    fn in_literals(&mut self, kind: TokenKind) -> Result<(), Fault>
        requires { self.old.place ≡ Place.Literals }
        ensures { Steps result (in_literals self.old kind) self.new }
    {
        let signed = number(kind)?;
        if signed.value == 0 {
            self.place = Place::After;
            return Ok(());
        }
        self.pending.push(Lit::new(signed.value, signed.negative))?;
        Ok(())
    }

    #[inline(always)]
    fn in_antecedents(&mut self, kind: TokenKind) -> Result<(), Fault>
        requires { self.old.place ≡ Place.After }
        ensures { Steps result (in_antecedents self.old kind) self.new }
    {
        let id = plain(kind)?;
        if id == 0 {
            return self.end_line();
        }
        match one_more(self.row.antecedents, id) {
            None => Err(Fault::Refused(Cause::BadWord)),
            Some(antecedents) => {
                self.row.antecedents = antecedents;
                Ok(())
            }
        }
    }

    fn end_line(&mut self) -> Result<(), Fault>
        requires { self.old.place ≡ Place.After }
        ensures { Steps result (Ok (ended_line self.old)) self.new }
    {
        if self.rows.reserve(1).is_err() {
            return Err(Fault::NoMemory);
        }
        self.terms.push(self.pending.as_slice())?;
        self.rows.push_reserved(self.row);
        self.place = Place::Lines;
        Ok(())
    }

    fn answered(&mut self, line: u64, name: u64) -> Result<(), Fault>
        ensures { Steps result (answered self.old line (verdict_named name)) self.new }
    {
        match verdict_named(name) {
            None => Err(Fault::Refused(Cause::BadWord)),
            Some(verdict) => {
                self.go(Place::Done(verdict, line));
                Ok(())
            }
        }
    }

    /// The trace, if the verdict has come.
    pub fn finish(self) -> Option<Trace>
        ensures { result ≡ proof_in self }
    {
        match self.place {
            Place::Done(verdict, line) => Some(Trace::new(self.rows, self.terms, verdict, line)),
            _ => None,
        }
    }
}
