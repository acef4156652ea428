// Reads a log of either profile from bytes that come in pieces, and hands out each step at the byte that ends it. The memory of
// a step is given back and serves for the next.
ghost use Rattle.std.specs.Prelude.{◌≡◌, ◌≤◌, ◌<◌, ◌+◌, ◌^◌, length, take, [], ◌∷◌, List, ℕ, Option, Some, None, Ok, Err, IfOk, IfErr, IfSome, true};
ghost use Rattle.q_hinted.specs.Logs.{read_entries};
ghost use Rattle.q_hinted.specs.Reading.{start, to_come, transition, behind, profile, profile_after, token_transition, Answers, Leads, Passes, Brings, Ends};
ghost use Rattle.q_text.specs.Tokens.{is_zero, line_of};
ghost use Rattle.q_text.specs.Pieces.{Goes, behind_literal, literal_token};

use crate::builder::{Entry, EntryBuilder};
use q_log::LogError;
use q_logic::{Proof, Step};
use q_text::{LiteralWord, Token, Tokens};
use std::alloc::Global;
use std::marker::Model;

/// Reads a log of either profile byte by byte and hands out its steps, each at the byte that ends it,
/// in the second profile with its proof part.
#[derive(Drop)]
pub struct BothReader {
    tokens: Tokens,
    left: u64,
    builder: EntryBuilder,
    refused: Option<LogError>,
}

impl Model for BothReader {
    ghost use Rattle.std.specs.Prelude.{◌≤◌, ◌+◌, ◌^◌};
    ghost use Rattle.q_text.specs.Tokens.{line_of};
    ghost use Rattle.q_hinted.specs.Builders.{place_of};
    ghost use Rattle.q_hinted.specs.Reading.{BothState};

    ghost Value = { BothState };

    ghost view = { λ r. record {
      tokens = r.tokens;
      left = r.left;
      place = place_of r.builder;
      refused = r.refused;
    } };

    ghost invariant = { λ r. line_of r.tokens + r.left ≤ 2 ^ 62 + 1 };
}

impl BothReader {
    /// A reader of at most `bytes` bytes.
    pub fn new(alloc: Global, bytes: u64) -> Result<BothReader, LogError>
        requires { bytes ≤ 2 ^ 62 }
        ensures start { IfOk result (λ r. r ≡ start bytes) }
        ensures log { IfOk result (λ r. (text : List ℕ)
            → to_come r text ≡ read_entries bytes text) }
        ensures err { IfErr result (λ e. e ≡ LogError.NoMemory) }
    {
        Ok(BothReader {
            tokens: Tokens::new(),
            left: bytes,
            builder: EntryBuilder::new(alloc),
            refused: None,
        })
    }

    /// The step that this byte ends, if it ends one, the line of its first token, and in the second
    /// profile its proof part. In the second profile a step ends with its proof part.
    pub fn push(&mut self, byte: u8) -> Result<Option<Entry>, LogError>
        ensures transition { Answers result self.new (transition self.old byte) }
        ensures next { (rest : List ℕ) → Leads result (to_come self.old (byte ∷ rest))
            (to_come self.new rest) }
        ensures again { (e : LogError) → self.old.refused ≡ Some e → (result ≡ Err e)
            × (self.new ≡ self.old) }
        ensures stops { (e : LogError) → result ≡ Err e → self.new.refused ≡ Some e }
        ensures profile { profile self.new ≡ profile_after self.old byte }
    {
        if let Some(error) = self.refused {
            return Err(error);
        }
        if self.left == 0 {
            let error = LogError::Limit {
                line: self.tokens.line(),
            };
            self.refused = Some(error);
            return Err(error);
        }
        self.left -= 1;
        let Some(token) = self.tokens.push(byte) else {
            return Ok(None);
        };
        match self.builder.take(token) {
            Ok(entry) => Ok(entry),
            Err(error) => {
                self.refused = Some(error);
                Err(error)
            }
        }
    }

    /// Takes some bytes at the front of the piece, of which only the last may end a step: how many they are, and the step
    /// that it ends, as `push` hands it out. It answers as `push` does, byte by byte.
    #[inline(always)]
    pub fn next(&mut self, piece: &[u8]) -> Result<(usize, Option<Entry>), LogError>
        requires some { 0 < length piece.now }
        ensures within { IfOk result (λ r. (0 < r.0) × (r.0 ≤ length piece.now)) }
        ensures next { Passes result self.old self.new piece.now }
        ensures state { IfOk result (λ r. self.new ≡ behind self.old (take r.0 piece.now)) }
        ensures left { IfOk result (λ r. self.new.left + r.0 ≡ self.old.left) }
        ensures again { (e : LogError) → self.old.refused ≡ Some e → (result ≡ Err e)
            × (self.new ≡ self.old) }
        ensures stops { (e : LogError) → result ≡ Err e → self.new.refused ≡ Some e }
    {
        if let Some(error) = self.refused {
            return Err(error);
        }
        if self.left < piece.len() as u64 {
            return match self.push(piece[0]) {
                Ok(entry) => Ok((1, entry)),
                Err(error) => Err(error),
            };
        }
        // Hot: each token of a log passes here. Literals and letters go to the builder by calls with a small answer, and
        // only a 0 has the large one with the step in it. One large answer a token took 128 instructions in the builder
        // and as many here, to move and to clear it.
        let mut at = 0;
        while at < piece.len() {
            match self.pass(&piece[at..]) {
                Ok((count, None)) => at += count,
                Ok((count, Some(token))) => {
                    return match self.try_zero(token) {
                        Ok(entry) => Ok((at + count, entry)),
                        Err(error) => Err(error),
                    };
                }
                Err(error) => return Err(error),
            }
        }
        Ok((at, None))
    }

    // Takes some bytes at the front of the piece, of which only the last may end a token. A 0 is handed out untried.
    #[inline(always)]
    fn pass(&mut self, piece: &[u8]) -> Result<(usize, Option<Token>), LogError>
        requires some { 0 < length piece.now }
        requires room { length piece.now ≤ self.old.left }
        requires unrefused { self.old.refused ≡ None }
        ensures brings { Brings result self.old self.new piece.now }
        ensures zero { IfOk result (λ r. IfSome r.1 (λ t. is_zero t.kind ≡ true)) }
    {
        match self.tokens.literal(piece) {
            Some(word) => self.pass_literal(piece, word),
            None => self.pass_token(piece),
        }
    }

    #[inline(always)]
    fn pass_literal(
        &mut self,
        piece: &[u8],
        word: LiteralWord,
    ) -> Result<(usize, Option<Token>), LogError>
        requires room { length piece.now ≤ self.old.left }
        requires unrefused { self.old.refused ≡ None }
        requires goes { Goes self.old.tokens (behind_literal self.old.tokens) piece.now
            (word.len + 1)
            (Some (literal_token word.lit (line_of self.old.tokens))) }
        ensures brings { Brings result self.old self.new piece.now }
        ensures zero { IfOk result (λ r. r.1 ≡ None) }
    {
        let line = self.tokens.line();
        self.tokens.pass_literal();
        self.left -= word.len as u64 + 1;
        match self.builder.add_literal(word.lit, line) {
            Ok(()) => Ok((word.len + 1, None)),
            Err(fault) => {
                self.refused = Some(fault);
                Err(fault)
            }
        }
    }

    #[inline(always)]
    fn pass_token(&mut self, piece: &[u8]) -> Result<(usize, Option<Token>), LogError>
        requires some { 0 < length piece.now }
        requires room { length piece.now ≤ self.old.left }
        requires unrefused { self.old.refused ≡ None }
        ensures brings { Brings result self.old self.new piece.now }
        ensures zero { IfOk result (λ r. IfSome r.1 (λ t. is_zero t.kind ≡ true)) }
    {
        let (count, token) = self.tokens.next(piece);
        self.left -= count as u64;
        let Some(token) = token else {
            return Ok((count, None));
        };
        if token.kind.is_zero() {
            return Ok((count, Some(token)));
        }
        match self.builder.add(token) {
            Ok(()) => Ok((count, None)),
            Err(fault) => {
                self.refused = Some(fault);
                Err(fault)
            }
        }
    }

    fn try_zero(&mut self, token: Token) -> Result<Option<Entry>, LogError>
        requires zero { is_zero token.kind ≡ true }
        ensures transition { Answers result self.new (token_transition self.old (Some token)) }
        ensures left { IfOk result (λ _. self.new.left ≡ self.old.left) }
        ensures stops { (e : LogError) → result ≡ Err e → self.new.refused ≡ Some e }
    {
        match self.builder.zero(token) {
            Ok(entry) => Ok(entry),
            Err(fault) => {
                self.refused = Some(fault);
                Err(fault)
            }
        }
    }

    /// The step that the end of the bytes makes whole, if it makes one.
    pub fn finish(self) -> Result<Option<Entry>, LogError>
        ensures end { Ends result (to_come self []) }
        ensures again { (e : LogError) → self.refused ≡ Some e → result ≡ Err e }
    {
        if let Some(error) = self.refused {
            return Err(error);
        }
        let BothReader {
            tokens,
            left: _,
            mut builder,
            refused: _,
        } = self;
        let line = tokens.line();
        let entry = match tokens.finish() {
            Some(token) => builder.take(token)?,
            None => None,
        };
        if builder.is_open() {
            return Err(LogError::BadLine { line });
        }
        Ok(entry)
    }

    /// The profile of the log: 2 exactly where its first token is `p`, else 1.
    pub fn profile(&self) -> u8
        ensures { result ≡ profile self.now }
    {
        self.builder.profile()
    }

    /// Keeps the memory of a step and a proof part that were handed out for later ones.
    pub fn keep(&mut self, step: Step, proof: Option<Proof>)
        ensures { self.new ≡ self.old }
    {
        self.builder.keep(step, proof);
    }
}
