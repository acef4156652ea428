// Makes steps of tokens: what both profiles of logs have in common.
ghost use Rattle.std.specs.Prelude.{◌≡◌, ◌++◌, [], ◌∷◌, true, false, Some, None, is_some};
ghost use Rattle.q_text.specs.Tokens.{is_zero, is_zero_ℤ};
ghost use Rattle.q_text.specs.Pieces.{literal_token};
ghost use Rattle.q_log.specs.Grammar.{with_number, with_literal, with_zero, is_whole, has_room, empty_step, goes_on};
ghost use Rattle.q_log.specs.Reading.{Builds, quiet, unless_begun, begun_or_added, opened, are_plain, is_plain};

use crate::error::LogError;
use q_logic::{Kind, Lit, Lits, Step};
use q_text::{Token, TokenKind};
use std::alloc::Global;

/// The greatest variable that a log may name.
const GREATEST: u64 = 2_147_483_647;

/// A step that has begun: the line of its first token, and its kind.
#[derive(Clone, Copy)]
pub struct Begun {
    pub line: u64,
    pub kind: Kind,
}

/// Makes steps of tokens: the part that readers of logs share.
#[derive(Drop)]
pub struct StepBuilder {
    alloc: Global,
    begun: Option<Begun>,
    lits: Lits,
    spare: Lits,
    ghost plain: { is_plain begun lits ≡ true },
}

// A 0 may end the step here.
#[inline(always)]
fn is_whole(kind: Kind, lits: &[Lit]) -> bool
    ensures { result ≡ is_whole kind lits.now }
{
    match kind {
        Kind::Add | Kind::Delete => true,
        Kind::Drop => lits.len() > 0,
        Kind::Fresh => lits.len() == 2,
        Kind::Remove => lits.len() == 1,
    }
}

// One more literal may stand here.
#[inline(always)]
fn has_room(kind: Kind, lits: &[Lit], negative: bool) -> bool
    ensures { result ≡ has_room kind lits.now negative }
{
    match kind {
        Kind::Add | Kind::Delete | Kind::Drop => true,
        Kind::Fresh => !negative && lits.len() < 2,
        Kind::Remove => !negative && lits.len() < 1,
    }
}

impl StepBuilder {
    ghost use Rattle.q_log.specs.Builders.{open_in, Takes};

    /// A builder of steps of which none has begun.
    pub fn new(alloc: Global) -> StepBuilder
        ensures { open_in result ≡ None }
    {
        StepBuilder {
            alloc,
            begun: None,
            lits: Lits::new(alloc),
            spare: Lits::new(alloc),
        }
    }

    /// The step that the token makes whole.
    #[inline(always)]
    pub fn take(&mut self, token: Token) -> Result<Option<(u64, Step)>, LogError>
        ensures { Takes result self.old token self.new }
    {
        if token.kind.is_zero() {
            return self.zero(token);
        }
        match self.add(token) {
            Ok(()) => Ok(None),
            Err(error) => Err(error),
        }
    }

    /// Takes a token other than 0, which makes no step whole: so its answer is small.
    #[inline(always)]
    pub fn add(&mut self, token: Token) -> Result<(), LogError>
        requires { is_zero token.kind ≡ false }
        ensures { Takes (quiet result) self.old token self.new }
    {
        match token.kind {
            TokenKind::Number(number) => self.number(number, token.line),
            TokenKind::D => self.begin(Kind::Delete, token.line),
            TokenKind::U => self.begin(Kind::Drop, token.line),
            TokenKind::E => self.begin(Kind::Fresh, token.line),
            TokenKind::R => self.begin(Kind::Remove, token.line),
            _ => Err(LogError::BadLine { line: token.line }),
        }
    }

    /// Takes a literal.
    #[inline(always)]
    pub fn add_literal(&mut self, lit: Lit, line: u64) -> Result<(), LogError>
        ensures { Takes (quiet result) self.old (literal_token lit line) self.new }
    {
        let begun = self.begun_at(line);
        self.literal(begun, lit, line)
    }

    /// The step that a 0 makes whole.
    pub fn zero(&mut self, token: Token) -> Result<Option<(u64, Step)>, LogError>
        requires { is_zero token.kind ≡ true }
        ensures { Takes result self.old token self.new }
    {
        let begun = self.begun_at(token.line);
        self.end(begun, token.line)
    }

    // A letter, where no step has begun.
    fn begin(&mut self, kind: Kind, line: u64) -> Result<(), LogError>
        ensures { Builds (quiet result) (unless_begun (open_in self.old)
            (goes_on (empty_step line kind)))
            self.new.begun self.new.lits line }
    {
        if self.begun.is_some() {
            return Err(LogError::BadLine { line });
        }
        self.lits.clear();
        self.begun = Some(Begun { line, kind });
        Ok(())
    }

    // The step that has begun, or an addition that begins with a number.
    #[inline(always)]
    fn begun_at(&mut self, line: u64) -> Begun
        ensures step { opened result self.new.lits ≡ begun_or_added (open_in self.old) line }
        ensures plain { are_plain result.kind self.new.lits ≡ true }
    {
        match self.begun {
            Some(begun) => begun,
            None => {
                self.lits.clear();
                let kind = Kind::Add;
                Begun { line, kind }
            }
        }
    }

    #[inline(always)]
    fn number(&mut self, number: i64, line: u64) -> Result<(), LogError>
        requires { is_zero_ℤ number ≡ false }
        ensures { Builds (quiet result) (with_number (begun_or_added (open_in self.old) line)
            number)
            self.new.begun self.new.lits line }
    {
        let begun = self.begun_at(line);
        let magnitude = number.unsigned_abs();
        if magnitude > GREATEST {
            return Err(LogError::BadLine { line });
        }
        self.literal(begun, Lit::new(magnitude as u32, number < 0), line)
    }

    #[inline(always)]
    fn literal(&mut self, begun: Begun, lit: Lit, line: u64) -> Result<(), LogError>
        requires { are_plain begun.kind self.old.lits ≡ true }
        ensures { Builds (quiet result) (with_literal (opened begun self.old.lits) lit)
            self.new.begun self.new.lits line }
    {
        if !has_room(begun.kind, self.lits.as_slice(), lit.negative()) {
            return Err(LogError::BadLine { line });
        }
        self.lits.push(lit)?;
        self.begun = Some(begun);
        Ok(())
    }

    fn end(&mut self, begun: Begun, line: u64) -> Result<Option<(u64, Step)>, LogError>
        requires { are_plain begun.kind self.old.lits ≡ true }
        ensures { Builds result (with_zero (opened begun self.old.lits)) self.new.begun
            self.new.lits line }
    {
        if !is_whole(begun.kind, self.lits.as_slice()) {
            return Err(LogError::BadLine { line });
        }
        let next = std::mem::replace(&mut self.spare, Lits::new(self.alloc));
        let lits = std::mem::replace(&mut self.lits, next);
        self.begun = None;
        Ok(Some((begun.line, Step::new(begun.kind, lits))))
    }

    /// A step has begun and is not whole.
    pub fn is_open(&self) -> bool
        ensures { result ≡ is_some (open_in self.now) }
    {
        self.begun.is_some()
    }

    /// Keeps the memory of a list of literals for a later step.
    pub fn keep(&mut self, lits: Lits)
        ensures { open_in self.new ≡ open_in self.old }
    {
        self.spare = lits;
        self.spare.clear();
    }
}
