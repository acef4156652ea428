// Divides a text into words, and numbers its lines. Formulas and logs are read by it, so comments, blanks and numbers of any
// length are treated alike.
// Hot: `next`, `literal` and `zero` take many bytes by one look at the piece.
ghost use Rattle.std.specs.Prelude.{◌≡◌, ℕ, ◌+◌, ◌-◌, ◌<◌, ◌≤◌, ◌^◌, ◌++◌, ◌==◌, [], ◌∷◌, List, if◌then◌else◌, length, true, Some, IfSome};
ghost use Rattle.q_text.specs.Words.{is_separator};
ghost use Rattle.q_text.specs.Texts.{tokens_of};
ghost use Rattle.q_text.specs.Tokens.{to_come, listed, kind_in, token_in, handed, handed_at_end, line_of, after, begun, is_zero};
ghost use Rattle.q_text.specs.Pieces.{Goes, behind_literal, behind_zero, literal_token, zero_token};

use crate::runs::{LiteralWord, literal_word, number_word};
use crate::shape::Shape;

/// What a word is. A magnitude above 2^62 is given as 2^62.
#[derive(Clone, Copy, Debug, PartialEq, Eq)]
pub enum TokenKind {
    Number(i64),
    P,
    Cnf,
    Qrat,
    E,
    A,
    D,
    U,
    R,
    Other,
}

impl TokenKind {
    /// It is the number 0.
    #[inline(always)]
    pub fn is_zero(self) -> bool
        ensures { result ≡ is_zero self }
    {
        matches!(self, TokenKind::Number(0))
    }
}

/// A word of the text, and the line of its first byte.
#[derive(Clone, Copy, Debug, PartialEq, Eq)]
pub struct Token {
    pub kind: TokenKind,
    pub line: u64,
}

/// Divides a text into tokens. Space, tab, CR and LF stand between words, and a line whose first
/// word begins with `c` is a comment.
#[derive(Drop)]
pub struct Tokens {
    line: u64,
    shape: Shape,
}

impl Tokens {
    pub fn new() -> Tokens
        ensures tokens { (bytes : List ℕ) → to_come result bytes ≡ tokens_of bytes }
        ensures start { result ≡ begun }
    {
        Tokens {
            line: 1,
            shape: Shape::Start,
        }
    }

    /// 1 and the LF bytes so far.
    #[inline(always)]
    pub fn line(&self) -> u64
        ensures { result ≡ line_of self.now }
    {
        self.line
    }

    /// The token that this byte ends, if it ends one.
    #[inline(always)]
    pub fn push(&mut self, byte: u8) -> Option<Token>
        requires { line_of self.old < 2 ^ 64 - 1 }
        ensures next { (rest : List ℕ) → to_come self.old (byte ∷ rest) ≡ listed result
            ++ to_come self.new rest }
        ensures ended { listed result ≡ (if is_separator byte then to_come self.old [] else []) }
        ensures line { line_of self.new ≡ line_of self.old + (if byte == 10 then 1 else 0) }
        ensures state { self.new ≡ after self.old byte }
        ensures token { result ≡ handed self.old byte }
    {
        if !is_blank(byte) {
            self.shape = self.shape.grown(byte);
            return None;
        }
        let ended = ended_token(self.shape, self.line);
        if byte == b'\n' {
            self.line += 1;
            self.shape = Shape::Start;
        } else {
            self.shape = self.shape.after_blank();
        }
        ended
    }

    /// Takes some bytes of the piece, of which only the last may end a token: how many they are, and the
    /// token that it ends. A number that stands whole in the piece, with a byte behind it, is taken at once.
    #[inline(always)]
    pub fn next(&mut self, piece: &[u8]) -> (usize, Option<Token>)
        requires some { 0 < length piece.now }
        requires room { line_of self.old + length piece.now < 2 ^ 64 }
        ensures goes { Goes self.old self.new piece.now result.0 result.1 }
        ensures line { line_of self.new ≤ line_of self.old + result.0 }
    {
        if self.shape.may_begin() {
            if let Some(word) = number_word(piece) {
                let token = Token {
                    kind: word.kind,
                    line: self.line,
                };
                if piece[word.len] == b'\n' {
                    self.line += 1;
                    self.shape = Shape::Start;
                } else {
                    self.shape = Shape::Between;
                }
                return (word.len + 1, Some(token));
            }
        }
        (1, self.push(piece[0]))
    }

    /// The literal that stands whole at the front of the piece, with a space behind it, if it does so.
    #[inline(always)]
    pub fn literal(&self, piece: &[u8]) -> Option<LiteralWord>
        ensures goes { IfSome result (λ w. Goes self.now (behind_literal self.now) piece.now
            (w.len + 1)
            (Some (literal_token w.lit (line_of self.now)))) }
        ensures positive { IfSome result (λ w. 1 ≤ w.lit.var) }
    {
        if !self.shape.may_begin() {
            return None;
        }
        literal_word(piece)
    }

    /// Goes behind a literal and the space behind it.
    #[inline(always)]
    pub fn pass_literal(&mut self)
        ensures { self.new ≡ behind_literal self.old }
    {
        self.shape = Shape::Between;
    }

    /// A 0 and a LF stand at the front of the piece, as at the end of nearly each clause and step.
    #[inline(always)]
    #[tactic(auto, using(crate::proofs::BytePieces::zero_goes))]
    pub fn zero(&self, piece: &[u8]) -> bool
        ensures { result ≡ true → Goes self.now (behind_zero self.now) piece.now 2
            (Some (zero_token (line_of self.now))) }
    {
        self.shape.may_begin() && piece.len() >= 2 && piece[0] == b'0' && piece[1] == b'\n'
    }

    /// Goes behind a 0 and the LF behind it.
    #[inline(always)]
    pub fn pass_zero(&mut self)
        requires { line_of self.old < 2 ^ 64 - 1 }
        ensures { self.new ≡ behind_zero self.old }
    {
        self.line += 1;
        self.shape = Shape::Start;
    }

    /// The token that the end of the text ends, if it ends one.
    pub fn finish(self) -> Option<Token>
        ensures ended { listed result ≡ to_come self [] }
        ensures token { result ≡ handed_at_end self }
    {
        ended_token(self.shape, self.line)
    }
}

#[inline(always)]
pub(crate) fn is_blank(byte: u8) -> bool
    ensures { result ≡ is_separator byte }
{
    matches!(byte, b'\n' | b' ' | b'\t' | b'\r')
}

#[inline(always)]
fn ended_token(shape: Shape, line: u64) -> Option<Token>
    ensures { result ≡ token_in (kind_in shape) line }
{
    match shape.kind() {
        None => None,
        Some(kind) => Some(Token { kind, line }),
    }
}
