// Reads a plain log from bytes that come in pieces, and hands out each step at the byte that ends it. The memory of a step is
// given back and serves for the next.
ghost use Rattle.std.specs.Prelude.{◌≡◌, ◌≤◌, ◌<◌, ◌+◌, ◌^◌, [], ◌∷◌, length, List, ℕ, Option, Some, None, Ok, Err, IfOk, IfErr};
ghost use Rattle.q_log.specs.Logs.{read};
ghost use Rattle.q_log.specs.Reading.{start, to_come, transition, Answers, Leads, Passes, Ends};

use crate::builder::StepBuilder;
use crate::error::LogError;
use q_logic::Step;
use q_text::Tokens;
use std::alloc::Global;
use std::marker::Model;

/// Reads a log byte by byte and hands out its steps, each at the byte that ends it.
#[derive(Drop)]
pub struct LogReader {
    tokens: Tokens,
    left: u64,
    builder: StepBuilder,
    refused: Option<LogError>,
}

impl Model for LogReader {
    ghost use Rattle.std.specs.Prelude.{◌≤◌, ◌+◌, ◌^◌};
    ghost use Rattle.q_text.specs.Tokens.{line_of};
    ghost use Rattle.q_log.specs.Reading.{LogState};
    ghost use Rattle.q_log.specs.Builders.{open_in};

    ghost Value = { LogState };

    ghost view = { λ r. record {
      tokens = r.tokens;
      left = r.left;
      begun = open_in r.builder;
      refused = r.refused;
    } };

    ghost invariant = { λ r. line_of r.tokens + r.left ≤ 2 ^ 62 + 1 };
}

impl LogReader {
    /// A reader of at most `bytes` bytes.
    pub fn new(alloc: Global, bytes: u64) -> Result<LogReader, LogError>
        requires { bytes ≤ 2 ^ 62 }
        ensures start { IfOk result (λ r. r ≡ start bytes) }
        ensures log { IfOk result (λ r. (text : List ℕ) → to_come r text ≡ read bytes text) }
        ensures err { IfErr result (λ e. e ≡ LogError.NoMemory) }
    {
        Ok(LogReader {
            tokens: Tokens::new(),
            left: bytes,
            builder: StepBuilder::new(alloc),
            refused: None,
        })
    }

    /// The step that this byte ends, if it ends one, and the line of its first token.
    pub fn push(&mut self, byte: u8) -> Result<Option<(u64, Step)>, LogError>
        ensures transition { Answers result self.new (transition self.old byte) }
        ensures next { (rest : List ℕ) → Leads result (to_come self.old (byte ∷ rest))
            (to_come self.new rest) }
        ensures again { (e : LogError) → self.old.refused ≡ Some e → (result ≡ Err e)
            × (self.new ≡ self.old) }
        ensures stops { (e : LogError) → result ≡ Err e → self.new.refused ≡ Some e }
    {
        if let Some(error) = self.refused {
            return Err(error);
        }
        if self.left == 0 {
            let error = LogError::Limit {
                line: self.tokens.line(),
            };
            self.refused = Some(error);
            return Err(error);
        }
        self.left -= 1;
        let Some(token) = self.tokens.push(byte) else {
            return Ok(None);
        };
        match self.builder.take(token) {
            Ok(step) => Ok(step),
            Err(error) => {
                self.refused = Some(error);
                Err(error)
            }
        }
    }

    /// Takes some bytes at the front of the piece, of which only the last may end a step: how many they are, and the step
    /// that it ends, with the line of its first token. It answers as `push` does, byte by byte.
    #[inline(always)]
    pub fn next(&mut self, piece: &[u8]) -> Result<(usize, Option<(u64, Step)>), LogError>
        requires some { 0 < length piece.now }
        ensures within { IfOk result (λ r. (0 < r.0) × (r.0 ≤ length piece.now)) }
        ensures next { Passes result self.old self.new piece.now }
        ensures left { IfOk result (λ r. self.new.left + r.0 ≡ self.old.left) }
        ensures again { (e : LogError) → self.old.refused ≡ Some e → (result ≡ Err e)
            × (self.new ≡ self.old) }
        ensures stops { (e : LogError) → result ≡ Err e → self.new.refused ≡ Some e }
    {
        if let Some(error) = self.refused {
            return Err(error);
        }
        if self.left < piece.len() as u64 {
            return match self.push(piece[0]) {
                Ok(step) => Ok((1, step)),
                Err(error) => Err(error),
            };
        }
        let (count, token) = self.tokens.next(piece);
        self.left -= count as u64;
        let Some(token) = token else {
            return Ok((count, None));
        };
        match self.builder.take(token) {
            Ok(step) => Ok((count, step)),
            Err(fault) => {
                self.refused = Some(fault);
                Err(fault)
            }
        }
    }

    /// The step that the end of the bytes makes whole, if it makes one.
    pub fn finish(self) -> Result<Option<(u64, Step)>, LogError>
        ensures end { Ends result (to_come self []) }
        ensures again { (e : LogError) → self.refused ≡ Some e → result ≡ Err e }
    {
        if let Some(error) = self.refused {
            return Err(error);
        }
        let LogReader {
            tokens,
            left: _,
            mut builder,
            refused: _,
        } = self;
        let line = tokens.line();
        let step = match tokens.finish() {
            Some(token) => builder.take(token)?,
            None => None,
        };
        if builder.is_open() {
            return Err(LogError::BadLine { line });
        }
        Ok(step)
    }

    /// Keeps the memory of a step that was handed out for a later one.
    pub fn keep(&mut self, step: Step)
        ensures { self.new ≡ self.old }
    {
        self.builder.keep(step.into_lits());
    }
}
