// Makes a formula of tokens: a small automaton of what may stand next, and for each token that may not the cause of its refusal.
ghost use Rattle.std.specs.Prelude.{◌≡◌, ◌↔◌, ℕ, ◌≤◌, ◌<◌, ◌^◌, [], IsTrue, Ok, IfOk};
ghost use Rattle.q_dimacs.specs.declared.builder.Place.{Place};
ghost use Rattle.q_logic.specs.Prelude.{IsProper};
ghost use Rattle.q_dimacs.specs.Building.{formula_of};
ghost use Rattle.q_dimacs.specs.Causes.{cause_numbers};
ghost use Rattle.q_dimacs.specs.Reading.{problem, format, header_number, vars_of, count_of, begin_set, outside, in_clause, number, literal, takes_literals, end_clause, in_set, end_of, step_of, nothing_read};
ghost use Rattle.q_dimacs.specs.Steps.{IsNumber, Steps, error_at};

use crate::error::{Cause, ReadError};
use crate::parts::Parts;
use q_logic::{Formula, Limits, Lit, NoMemory, Quant};
use q_text::TokenKind;
use std::alloc::Global;
use std::marker::Model;

/// What stands next.
#[derive(Clone, Copy)]
pub enum Place {
    Problem,
    Format,
    Vars,
    Count,
    Outside,
    InSet(Quant),
    InClause,
}

/// Why a token was not taken.
#[derive(Clone, Copy)]
pub enum Fault {
    Refused(Cause),
    NoMemory,
}

impl Fault {
    /// The error of the fault in a line.
    pub fn at(self, line: u64) -> ReadError
        ensures { result ≡ error_at line self }
    {
        match self {
            Fault::Refused(cause) => ReadError::Refused {
                line,
                cause: cause.number(),
            },
            Fault::NoMemory => ReadError::NoMemory,
        }
    }
}

impl From<NoMemory> for Fault {
    ghost use Rattle.q_dimacs.specs.declared.builder.Fault.TheVariants.{NoMemory as gone};

    ghost from_gives = { λ _ e. e ≡ gone };

    fn from(_: NoMemory) -> Fault {
        Fault::NoMemory
    }
}

/// What the tokens so far have given.
#[derive(Drop)]
pub struct Builder {
    place: Place,
    vars: u32,
    count: u64,
    lits: u64,
    parts: Parts,
}

impl Model for Builder {
    ghost use Rattle.std.specs.Prelude.{◌<◌, ◌^◌};
    ghost use Rattle.q_dimacs.specs.Reading.{Gathered};

    ghost Value = { Gathered };

    ghost view = { λ b. record {
      place = b.place;
      vars = b.vars;
      count = b.count;
      lits = b.lits;
      parts = b.parts;
    } };

    ghost invariant = { λ b. b.vars < 2 ^ 31 };
}

impl Builder {
    pub fn new(alloc: Global) -> Builder
        ensures { result ≡ nothing_read }
    {
        Builder {
            place: Place::Problem,
            vars: 0,
            count: 0,
            lits: 0,
            parts: Parts::new(alloc),
        }
    }

    #[inline(always)]
    pub fn step(&mut self, limits: Limits, kind: TokenKind) -> Result<(), Fault>
        requires { limits.vars < 2 ^ 31 }
        ensures { Steps result (step_of limits self.old kind) self.new }
    {
        match self.place {
            Place::InClause => self.in_clause(limits, kind),
            Place::InSet(quant) => self.in_set(quant, kind),
            Place::Outside => self.outside(limits, kind),
            Place::Problem => self.problem(kind),
            Place::Format => self.format(kind),
            Place::Vars => self.vars(limits, kind),
            Place::Count => self.count(limits, kind),
        }
    }

    fn problem(&mut self, kind: TokenKind) -> Result<(), Fault>
        ensures { Steps result (problem self.old kind) self.new }
    {
        match kind {
            TokenKind::P => {
                self.place = Place::Format;
                Ok(())
            }
            _ => Err(Fault::Refused(Cause::BadHeader)),
        }
    }

    fn format(&mut self, kind: TokenKind) -> Result<(), Fault>
        ensures { Steps result (format self.old kind) self.new }
    {
        match kind {
            TokenKind::Cnf => {
                self.place = Place::Vars;
                Ok(())
            }
            _ => Err(Fault::Refused(Cause::BadHeader)),
        }
    }

    fn vars(&mut self, limits: Limits, kind: TokenKind) -> Result<(), Fault>
        requires { limits.vars < 2 ^ 31 }
        ensures { Steps result (vars_of limits self.old kind) self.new }
    {
        self.vars = header_number(u64::from(limits.vars), kind)? as u32;
        self.place = Place::Count;
        Ok(())
    }

    fn count(&mut self, limits: Limits, kind: TokenKind) -> Result<(), Fault>
        ensures { Steps result (count_of limits self.old kind) self.new }
    {
        self.count = header_number(limits.clauses, kind)?;
        self.place = Place::Outside;
        Ok(())
    }

    fn begin_set(&mut self, quant: Quant) -> Result<(), Fault>
        ensures { Steps result (begin_set quant self.old) self.new }
    {
        if self.parts.clauses() > 0 {
            return Err(Fault::Refused(Cause::LateQuantifier));
        }
        self.place = Place::InSet(quant);
        Ok(())
    }

    #[inline(always)]
    fn outside(&mut self, limits: Limits, kind: TokenKind) -> Result<(), Fault>
        ensures { Steps result (outside limits self.old kind) self.new }
    {
        match kind {
            TokenKind::Number(n) => {
                if self.parts.clauses() as u64 >= self.count {
                    return Err(Fault::Refused(Cause::ClauseCount));
                }
                self.number(limits, n)
            }
            TokenKind::E => self.begin_set(Quant::Exists),
            TokenKind::A => self.begin_set(Quant::Forall),
            _ => Err(Fault::Refused(Cause::BadToken)),
        }
    }

    #[inline(always)]
    fn in_clause(&mut self, limits: Limits, kind: TokenKind) -> Result<(), Fault>
        ensures { Steps result (in_clause limits self.old kind) self.new }
    {
        match kind {
            TokenKind::Number(n) => self.number(limits, n),
            _ => Err(Fault::Refused(Cause::BadToken)),
        }
    }

    // A number of a clause.
    #[inline(always)]
    fn number(&mut self, limits: Limits, n: i64) -> Result<(), Fault>
        ensures { Steps result (number limits self.old n) self.new }
    {
        if n == 0 {
            return self.end_clause();
        }
        let magnitude = n.unsigned_abs();
        if magnitude > self.vars as u64 {
            return Err(Fault::Refused(Cause::AboveHeader));
        }
        self.literal(limits, Lit::new(magnitude as u32, n < 0))
    }

    /// A literal of a clause.
    #[inline(always)]
    pub fn literal(&mut self, limits: Limits, lit: Lit) -> Result<(), Fault>
        ensures { Steps result (literal limits self.old lit.var lit.negative) self.new }
    {
        if lit.var() > self.vars {
            return Err(Fault::Refused(Cause::AboveHeader));
        }
        if self.lits >= limits.lits {
            return Err(Fault::Refused(Cause::Limit));
        }
        self.parts.add(lit)?;
        self.lits += 1;
        self.place = Place::InClause;
        Ok(())
    }

    /// The 0 of a clause.
    #[inline(always)]
    pub fn end_clause(&mut self) -> Result<(), Fault>
        ensures { Steps result (Ok (end_clause self.old)) self.new }
    {
        self.parts.end_clause()?;
        self.place = Place::Outside;
        Ok(())
    }

    /// A clause has begun.
    #[inline(always)]
    pub fn is_in_clause(&self) -> bool
        ensures { IsTrue result ↔ (self.now.place ≡ Place.InClause) }
    {
        matches!(self.place, Place::InClause)
    }

    /// A literal may come next.
    #[inline(always)]
    pub fn takes_literals(&self) -> bool
        ensures { result ≡ takes_literals self.now }
    {
        if self.is_in_clause() {
            return true;
        }
        matches!(self.place, Place::Outside) && (self.parts.clauses() as u64) < self.count
    }

    #[inline(always)]
    fn in_set(&mut self, quant: Quant, kind: TokenKind) -> Result<(), Fault>
        ensures { Steps result (in_set quant self.old kind) self.new }
    {
        match kind {
            TokenKind::Number(n) => {
                if n < 0 {
                    return Err(Fault::Refused(Cause::BadToken));
                }
                if n == 0 {
                    self.place = Place::Outside;
                    return Ok(());
                }
                if n as u64 > self.vars as u64 {
                    return Err(Fault::Refused(Cause::AboveHeader));
                }
                let var = n as u32;
                if self.parts.is_bound(var) {
                    return Err(Fault::Refused(Cause::BoundTwice));
                }
                self.parts.bind(quant, var)?;
                Ok(())
            }
            _ => Err(Fault::Refused(Cause::BadToken)),
        }
    }

    // The cause at the end, if there is one.
    pub fn end(&self) -> Option<Cause>
        ensures { cause_numbers result ≡ end_of self.now }
    {
        match self.place {
            Place::Outside => {
                if (self.parts.clauses() as u64) < self.count {
                    Some(Cause::ClauseCount)
                } else {
                    None
                }
            }
            Place::InSet(_) => Some(Cause::Unended),
            Place::InClause => Some(Cause::Unended),
            _ => Some(Cause::BadHeader),
        }
    }

    // The formula of the parts.
    pub fn finish(self, alloc: Global) -> Result<Formula, NoMemory>
        requires { self.parts.pending ≡ [] }
        ensures value { IfOk result (λ f. f ≡ formula_of self.parts.bounds self.parts.clauses) }
        ensures proper { IfOk result IsProper }
    {
        self.parts.finish(alloc)
    }
}

// A number of the header, which is `most` at most.
fn header_number(most: u64, kind: TokenKind) -> Result<u64, Fault>
    ensures number { IsNumber result (header_number most kind) }
    ensures within { IfOk result (λ number. number ≤ most) }
{
    let TokenKind::Number(number) = kind else {
        return Err(Fault::Refused(Cause::BadHeader));
    };
    if number < 0 {
        return Err(Fault::Refused(Cause::BadHeader));
    }
    if number as u64 > most {
        return Err(Fault::Refused(Cause::Limit));
    }
    Ok(number as u64)
}
