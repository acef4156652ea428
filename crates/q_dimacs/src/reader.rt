// Reads a formula from bytes that come in pieces, in one pass. The first offence is that of the grammar in `specs/`, whatever
// follows it, and how the bytes are cut makes no difference.
// Hot: literals and the 0 of a clause go past the tokens, by a look at the piece.
ghost use Rattle.std.specs.Prelude.{◌≡◌, ℕ, ◌<◌, ◌≤◌, ◌-◌, length, ◌^◌, List, [], ◌++◌, true, Some, Err, IfOk, OnOk, IfErr, IfSome};
ghost use Rattle.q_text.specs.Tokens.{line_of};
ghost use Rattle.q_text.specs.Pieces.{literal_token, zero_token};
ghost use Rattle.q_dimacs.specs.declared.builder.Place.{Place};
ghost use Rattle.q_logic.specs.declared.limits.Limits.{Limits};
ghost use Rattle.q_logic.specs.Prelude.{IsProper, AreModerate};
ghost use Rattle.q_dimacs.specs.Scanning.{IsAhead, IsZeroAhead, Feeds, Takes, Answers, HasRead, byte_step, fed, outcome, start, token_step};
ghost use Rattle.q_dimacs.specs.Dimacs.{Dimacs, FormulaOf};
ghost use Rattle.q_dimacs.specs.Offences.{Offence, ReadsOn, RefusesAll, RefusesBehind, StaysWithin, at_end, closed_with};
ghost use Rattle.q_dimacs.specs.Reading.{end_of, takes_literals, NoneWaits};

use crate::builder::{Builder, Fault};
use crate::error::{Cause, ReadError};
use q_logic::{Formula, Limits, Lit};
use q_text::{LiteralWord, Token, Tokens};
use std::alloc::Global;
use std::marker::Model;

/// Whether the reader still reads, or for what it stopped.
#[derive(Clone, Copy)]
pub enum Standing {
    Reading,
    Stopped(ReadError),
}

/// Reads a formula from bytes that come in pieces. How they are cut makes no difference.
#[derive(Drop)]
pub struct Reader {
    alloc: Global,
    limits: Limits,
    tokens: Tokens,
    taken: u64,
    builder: Builder,
    standing: Standing,
}

impl Model for Reader {
    ghost use Rattle.q_dimacs.specs.Scanning.{Scan, IsSound};

    ghost Value = { Scan };

    ghost view = { λ r. record {
      limits = r.limits;
      tokens = r.tokens;
      taken = r.taken;
      builder = r.builder;
      standing = r.standing;
    } };

    ghost invariant = { λ r. IsSound (record {
      limits = r.limits;
      tokens = r.tokens;
      taken = r.taken;
      builder = r.builder;
      standing = r.standing;
    }) };
}

impl Reader {
    pub fn new(alloc: Global, limits: Limits) -> Result<Reader, ReadError>
        requires { AreModerate limits }
        ensures start { IfOk result (λ reader. HasRead limits [] reader) }
        ensures refusal { IfErr result (λ e. e ≡ ReadError.NoMemory) }
    {
        Ok(Reader {
            alloc,
            limits,
            tokens: Tokens::new(),
            taken: 0,
            builder: Builder::new(alloc),
            standing: Standing::Reading,
        })
    }

    /// Reads on. It refuses only for an offence in the bytes so far, which is then that of every text
    /// that begins with them, and gives the same answer from then on.
    pub fn feed(&mut self, piece: &[u8]) -> Result<(), ReadError>
        ensures read { OnOk result (ReadsOn self.old piece.now self.new) }
        ensures refused { RefusesBehind result self.old piece.now }

        // It has not passed the limit on bytes.
        ensures within { OnOk result (StaysWithin self.old piece.now) }

        // What has stopped the reader stops it for good.
        ensures stopped { IfErr result (λ e. self.new.standing ≡ Standing.Stopped e) }
        ensures lasting_answer { (e : ReadError) → self.old.standing ≡ Standing.Stopped e
            → result ≡ Err e }
        ensures lasting_state { (e : ReadError) → self.old.standing ≡ Standing.Stopped e
            → self.new ≡ self.old }
    {
        self.feed_bytes(piece)
    }

    /// The formula of all bytes, or their first offence.
    pub fn finish(self) -> Result<Formula, ReadError>
        ensures formula { IfOk result (λ f. FormulaOf self f) }
        ensures refused { RefusesAll result self }
        ensures proper { IfOk result IsProper }
        ensures lasting { (e : ReadError) → self.standing ≡ Standing.Stopped e → result ≡ Err e }
    {
        self.formula()
    }

    fn feed_bytes(&mut self, piece: &[u8]) -> Result<(), ReadError>
        ensures fed { Feeds result (fed self.old piece.now) self.new }
        ensures lasting_answer { (e : ReadError) → self.old.standing ≡ Standing.Stopped e
            → result ≡ Err e }
        ensures lasting_state { (e : ReadError) → self.old.standing ≡ Standing.Stopped e
            → self.new ≡ self.old }
    {
        match self.standing {
            Standing::Stopped(error) => Err(error),
            Standing::Reading => self.push_all(piece),
        }
    }

    fn push_all(&mut self, piece: &[u8]) -> Result<(), ReadError>
        requires { self.old.standing ≡ Standing.Reading }
        ensures { Feeds result (fed self.old piece.now) self.new }
    {
        let mut at = 0;
        while at < piece.len() {
            at += self.push_some(&piece[at..])?;
        }
        Ok(())
    }

    // Takes some bytes at the front of the piece, one token at most.
    //
    // Hot: nearly all of a formula is literals with a space behind them, and 0 with LF behind it. Both are told by a look
    // at the piece, and go to the clause without a token: a token took 150 instructions, 60 of them to ask what it is.
    #[inline(always)]
    fn push_some(&mut self, piece: &[u8]) -> Result<usize, ReadError>
        requires some { 0 < length piece.now }
        requires reading { self.old.standing ≡ Standing.Reading }
        ensures { Takes result self.old piece.now self.new }
    {
        if self.limits.bytes - self.taken < piece.len() as u64 {
            self.push(piece[0])?;
            return Ok(1);
        }
        if self.zero_ahead(piece) {
            return self.push_zero(piece);
        }
        self.push_other(piece)
    }

    #[inline(always)]
    fn push_other(&mut self, piece: &[u8]) -> Result<usize, ReadError>
        requires some { 0 < length piece.now }
        requires room { length piece.now ≤ self.old.limits.bytes - self.old.taken }
        requires reading { self.old.standing ≡ Standing.Reading }
        ensures { Takes result self.old piece.now self.new }
    {
        match self.literal_ahead(piece) {
            Some(word) => self.push_literal(piece, word),
            None => self.push_token(piece),
        }
    }

    // The end of a clause, and of its line.
    #[inline(always)]
    fn zero_ahead(&self, piece: &[u8]) -> bool
        ensures { result ≡ true → IsZeroAhead self.now piece.now }
    {
        self.builder.is_in_clause() && self.tokens.zero(piece)
    }

    #[inline(always)]
    fn push_zero(&mut self, piece: &[u8]) -> Result<usize, ReadError>
        requires room { length piece.now ≤ self.old.limits.bytes - self.old.taken }
        requires reading { self.old.standing ≡ Standing.Reading }
        requires ahead { IsZeroAhead self.old piece.now }
        ensures { Takes result self.old piece.now self.new }
    {
        let line = self.tokens.line();
        self.tokens.pass_zero();
        self.taken += 2;
        self.take_zero(line)?;
        Ok(2)
    }

    // The literal at the front of the piece, where one may come.
    #[inline(always)]
    fn literal_ahead(&self, piece: &[u8]) -> Option<LiteralWord>
        ensures { IfSome result (λ w. IsAhead self.now piece.now w) }
    {
        if !self.builder.takes_literals() {
            return None;
        }
        self.tokens.literal(piece)
    }

    #[inline(always)]
    fn push_literal(&mut self, piece: &[u8], word: LiteralWord) -> Result<usize, ReadError>
        requires room { length piece.now ≤ self.old.limits.bytes - self.old.taken }
        requires reading { self.old.standing ≡ Standing.Reading }
        requires ahead { IsAhead self.old piece.now word }
        ensures { Takes result self.old piece.now self.new }
    {
        self.tokens.pass_literal();
        self.taken += word.len as u64 + 1;
        self.take_literal(word.lit)?;
        Ok(word.len + 1)
    }

    // Apart from the loop, so that what it holds in registers serves literals.
    #[inline(never)]
    fn push_token(&mut self, piece: &[u8]) -> Result<usize, ReadError>
        requires some { 0 < length piece.now }
        requires room { length piece.now ≤ self.old.limits.bytes - self.old.taken }
        requires reading { self.old.standing ≡ Standing.Reading }
        ensures { Takes result self.old piece.now self.new }
    {
        let (count, token) = self.tokens.next(piece);
        self.taken += count as u64;
        match token {
            None => Ok(count),
            Some(token) => {
                self.take(token)?;
                Ok(count)
            }
        }
    }

    #[inline(never)]
    fn push(&mut self, byte: u8) -> Result<(), ReadError>
        requires { self.old.standing ≡ Standing.Reading }
        ensures { Feeds result (byte_step self.old byte) self.new }
    {
        if self.taken >= self.limits.bytes {
            let line = self.tokens.line();
            let cause = Cause::Limit.number();
            return self.stop(ReadError::Refused { line, cause });
        }
        self.taken += 1;
        match self.tokens.push(byte) {
            None => Ok(()),
            Some(token) => self.take(token),
        }
    }

    #[inline(always)]
    fn take(&mut self, token: Token) -> Result<(), ReadError>
        requires { self.old.standing ≡ Standing.Reading }
        ensures { Feeds result (token_step self.old (Some token)) self.new }
    {
        match self.builder.step(self.limits, token.kind) {
            Ok(()) => Ok(()),
            Err(fault) => {
                let error = fault.at(token.line);
                self.standing = Standing::Stopped(error);
                Err(error)
            }
        }
    }

    #[inline(always)]
    fn take_literal(&mut self, lit: Lit) -> Result<(), ReadError>
        requires reading { self.old.standing ≡ Standing.Reading }
        requires positive { 1 ≤ lit.var }
        requires fits { takes_literals self.old.builder ≡ true }
        ensures { Feeds result
            (token_step self.old (Some (literal_token lit (line_of self.old.tokens)))) self.new }
    {
        match self.builder.literal(self.limits, lit) {
            Ok(()) => Ok(()),
            Err(fault) => {
                let error = fault.at(self.tokens.line());
                self.standing = Standing::Stopped(error);
                Err(error)
            }
        }
    }

    #[inline(always)]
    fn take_zero(&mut self, line: u64) -> Result<(), ReadError>
        requires reading { self.old.standing ≡ Standing.Reading }
        requires inside { self.old.builder.place ≡ Place.InClause }
        ensures { Feeds result (token_step self.old (Some (zero_token line))) self.new }
    {
        match self.builder.end_clause() {
            Ok(()) => Ok(()),
            Err(fault) => {
                let error = fault.at(line);
                self.standing = Standing::Stopped(error);
                Err(error)
            }
        }
    }

    fn stop(&mut self, error: ReadError) -> Result<(), ReadError>
        ensures new { self.new ≡ record self.old { standing = Standing.Stopped error } }
        ensures result { result ≡ Err error }
    {
        self.standing = Standing::Stopped(error);
        Err(error)
    }

    fn formula(self) -> Result<Formula, ReadError>
        ensures exact { Answers result (outcome self) }
        ensures proper { IfOk result IsProper }
        ensures lasting { (e : ReadError) → self.standing ≡ Standing.Stopped e → result ≡ Err e }
    {
        match self.standing {
            Standing::Stopped(error) => Err(error),
            Standing::Reading => self.close(),
        }
    }

    fn close(self) -> Result<Formula, ReadError>
        requires { self.standing ≡ Standing.Reading }
        ensures exact { Answers result (outcome self) }
        ensures proper { IfOk result IsProper }
    {
        let Reader {
            alloc,
            limits,
            tokens,
            taken: _,
            builder,
            standing: _,
        } = self;
        let line = tokens.line();
        match tokens.finish() {
            None => formula_of(alloc, builder, line),
            Some(token) => formula_with(alloc, limits, builder, token, line),
        }
    }
}

/// The formula of the bytes, or their first offence.
pub fn read(alloc: Global, limits: Limits, bytes: &[u8]) -> Result<Formula, ReadError>
    requires { AreModerate limits }
    ensures formula { IfOk result (λ f. Dimacs limits bytes.now f) }
    ensures refused { (line : ℕ) → (cause : ℕ) → result ≡ Err (ReadError.Refused line cause)
        → Offence limits bytes.now line cause }
    ensures proper { IfOk result IsProper }
{
    let mut reader = Reader::new(alloc, limits)?;
    reader.feed(bytes)?;
    reader.finish()
}

// The formula where the last token has still to be taken.
fn formula_with(
    alloc: Global,
    limits: Limits,
    builder: Builder,
    token: Token,
    line: u64,
) -> Result<Formula, ReadError>
    requires bounded { limits.vars < 2 ^ 31 }
    requires none_waits { NoneWaits builder.place builder.parts.pending }
    ensures exact { Answers result (closed_with limits builder token line) }
    ensures proper { IfOk result IsProper }
{
    let mut builder = builder;
    match builder.step(limits, token.kind) {
        Ok(()) => formula_of(alloc, builder, line),
        Err(fault) => Err(fault.at(token.line)),
    }
}

fn formula_of(alloc: Global, builder: Builder, line: u64) -> Result<Formula, ReadError>
    requires { NoneWaits builder.place builder.parts.pending }
    ensures exact { Answers result (at_end line builder (end_of builder)) }
    ensures proper { IfOk result IsProper }
{
    if let Some(cause) = builder.end() {
        return Err(Fault::Refused(cause).at(line));
    }
    match builder.finish(alloc) {
        Ok(formula) => Ok(formula),
        Err(_) => Err(ReadError::NoMemory),
    }
}
