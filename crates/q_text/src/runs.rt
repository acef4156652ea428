// A number that stands whole in a piece is read in one loop over its digits.
ghost use Rattle.std.specs.Prelude.{◌≡◌, ◌≤◌, ◌+◌, ◌*◌, if◌then◌else◌, IfSome};
ghost use Rattle.q_text.specs.Words.{clipped};
ghost use Rattle.q_text.specs.Pieces.{IsNumberWord, IsLiteralWord, IsSignedWord, AreDigits};

use crate::shape::{TENTH, clip, number};
use crate::tokens::{TokenKind, is_blank};
use q_logic::Lit;

/// The greatest variable that a literal can have.
const LAST: u64 = 2_147_483_647;

/// The length of a word at the front of a piece, and what it is.
#[derive(Clone, Copy)]
pub struct NumberWord {
    pub len: usize,
    pub kind: TokenKind,
}

/// Digits at the front of a piece: how many they are, and the magnitude with them.
#[derive(Clone, Copy)]
pub struct Run {
    pub count: usize,
    pub magnitude: u64,
}

/// A literal at the front of a piece: the length of its word, and what it is.
#[derive(Clone, Copy)]
pub struct LiteralWord {
    pub len: usize,
    pub lit: Lit,
}

/// A sign, if there is one, and digits at the front of a piece, with a byte behind them.
#[derive(Clone, Copy)]
pub struct SignedWord {
    pub len: usize,
    pub negative: bool,
    pub magnitude: u64,
}

/// The number that stands whole at the front of the piece, with a byte behind it that divides words.
#[inline(always)]
pub fn number_word(piece: &[u8]) -> Option<NumberWord>
    ensures { IfSome result (λ w. IsNumberWord piece.now w) }
{
    match signed_word(piece) {
        Some(word) if is_blank(piece[word.len]) => Some(NumberWord {
            len: word.len,
            kind: number(word.negative, word.magnitude),
        }),
        _ => None,
    }
}

/// The literal that stands whole at the front of the piece, with a space behind it.
#[inline(always)]
pub fn literal_word(piece: &[u8]) -> Option<LiteralWord>
    ensures { IfSome result (λ w. IsLiteralWord piece.now w) }
{
    match signed_word(piece) {
        Some(word) if piece[word.len] == b' ' && (1..=LAST).contains(&word.magnitude) => {
            Some(LiteralWord {
                len: word.len,
                lit: Lit::new(word.magnitude as u32, word.negative),
            })
        }
        _ => None,
    }
}

#[inline(always)]
fn signed_word(piece: &[u8]) -> Option<SignedWord>
    ensures { IfSome result (λ w. IsSignedWord piece.now w.len w.negative w.magnitude) }
{
    if piece.len() < 3 {
        return None;
    }
    let negative = piece[0] == b'-';
    let sign = sign_len(negative);
    let first = piece[sign];
    if !first.is_ascii_digit() {
        return None;
    }
    let run = run_of(&piece[sign + 1..], (first - b'0') as u64);
    let len = sign + 1 + run.count;
    if len == piece.len() {
        return None;
    }
    Some(SignedWord {
        len,
        negative,
        magnitude: run.magnitude,
    })
}

#[inline(always)]
fn sign_len(negative: bool) -> usize
    ensures value { result ≡ (if negative then 1 else 0) }
    ensures short { result ≤ 1 }
{
    usize::from(negative)
}

// The digits at the front.
//
// Hot: the only loop over the bytes of a number. Two paths, one for each sign, took fewer instructions and more time,
// since the sign of a literal can't be foretold.
#[inline(always)]
fn run_of(bytes: &[u8], from: u64) -> Run
    ensures { AreDigits bytes.now from result.count result.magnitude }
{
    let mut magnitude = from;
    for (i, byte) in bytes.iter().enumerate() {
        if !byte.is_ascii_digit() {
            return Run {
                count: i,
                magnitude,
            };
        }
        magnitude = with_digit(magnitude, (*byte - b'0') as u64);
    }
    Run {
        count: bytes.len(),
        magnitude,
    }
}

#[inline(always)]
fn with_digit(magnitude: u64, digit: u64) -> u64
    requires { digit ≤ 9 }
    ensures { result ≡ clipped (10 * magnitude + digit) }
{
    if magnitude < TENTH {
        return 10 * magnitude + digit;
    }
    clip(magnitude, digit)
}
