// What the bytes of a word have been so far, as an automaton: one step a byte, and at the end of the word its kind.
ghost use Rattle.std.specs.Prelude.{◌≡◌, ◌+◌, ◌*◌, ◌≤◌, Some};
ghost use Rattle.q_text.specs.Words.{clipped};
ghost use Rattle.q_text.specs.Tokens.{grown, first_shape, after_blank, kind_in};
ghost use Rattle.q_text.specs.Pieces.{may_begin};

use crate::tokens::TokenKind;

/// Where the last byte stands: in a line that is blank so far, in a comment, between words, or in a
/// word that begins so.
#[derive(Clone, Copy)]
pub enum Shape {
    Start,
    Comment,
    Between,
    Minus,
    Digits { negative: bool, magnitude: u64 },
    C,
    Cn,
    Q,
    Qr,
    Qra,
    Word(TokenKind),
}

/// Magnitudes end here.
const GREATEST: u64 = 4_611_686_018_427_387_904;

/// Ten times a greater number is above `GREATEST`.
pub(crate) const TENTH: u64 = 461_168_601_842_738_790;

impl Shape {
    /// The shape of a word with one more byte.
    #[inline(always)]
    pub fn grown(self, byte: u8) -> Shape
        ensures { result ≡ grown self byte }
    {
        match self {
            Shape::Digits {
                negative,
                magnitude,
            } => {
                if byte.is_ascii_digit() {
                    Shape::Digits {
                        negative,
                        magnitude: clip(magnitude, (byte - b'0') as u64),
                    }
                } else {
                    Shape::Word(TokenKind::Other)
                }
            }
            Shape::Between => first(byte),
            Shape::Minus => {
                if byte.is_ascii_digit() {
                    Shape::Digits {
                        negative: true,
                        magnitude: (byte - b'0') as u64,
                    }
                } else {
                    Shape::Word(TokenKind::Other)
                }
            }
            Shape::Start => {
                if byte == b'c' {
                    Shape::Comment
                } else {
                    first(byte)
                }
            }
            Shape::Comment => Shape::Comment,
            Shape::C => {
                if byte == b'n' {
                    Shape::Cn
                } else {
                    Shape::Word(TokenKind::Other)
                }
            }
            Shape::Cn => {
                if byte == b'f' {
                    Shape::Word(TokenKind::Cnf)
                } else {
                    Shape::Word(TokenKind::Other)
                }
            }
            Shape::Q => {
                if byte == b'r' {
                    Shape::Qr
                } else {
                    Shape::Word(TokenKind::Other)
                }
            }
            Shape::Qr => {
                if byte == b'a' {
                    Shape::Qra
                } else {
                    Shape::Word(TokenKind::Other)
                }
            }
            Shape::Qra => {
                if byte == b't' {
                    Shape::Word(TokenKind::Qrat)
                } else {
                    Shape::Word(TokenKind::Other)
                }
            }
            Shape::Word(_) => Shape::Word(TokenKind::Other),
        }
    }

    /// A word may begin here.
    #[inline(always)]
    pub fn may_begin(self) -> bool
        ensures { result ≡ may_begin self }
    {
        matches!(self, Shape::Start | Shape::Between)
    }

    /// Behind a space, tab or CR.
    #[inline(always)]
    pub fn after_blank(self) -> Shape
        ensures { result ≡ after_blank self }
    {
        match self {
            Shape::Start => Shape::Start,
            Shape::Comment => Shape::Comment,
            _ => Shape::Between,
        }
    }

    /// What the word is if it ends here.
    #[inline(always)]
    pub fn kind(self) -> Option<TokenKind>
        ensures { result ≡ kind_in self }
    {
        match self {
            Shape::Digits {
                negative,
                magnitude,
            } => Some(number(negative, magnitude)),
            Shape::Start | Shape::Comment | Shape::Between => None,
            Shape::Minus | Shape::C | Shape::Cn => Some(TokenKind::Other),
            Shape::Q | Shape::Qr | Shape::Qra => Some(TokenKind::Other),
            Shape::Word(kind) => Some(kind),
        }
    }
}

#[inline(always)]
fn first(byte: u8) -> Shape
    ensures { result ≡ first_shape byte }
{
    match byte {
        b'0'..=b'9' => Shape::Digits {
            negative: false,
            magnitude: (byte - b'0') as u64,
        },
        b'-' => Shape::Minus,
        b'p' => Shape::Word(TokenKind::P),
        b'e' => Shape::Word(TokenKind::E),
        b'a' => Shape::Word(TokenKind::A),
        b'd' => Shape::Word(TokenKind::D),
        b'u' => Shape::Word(TokenKind::U),
        b'r' => Shape::Word(TokenKind::R),
        b'c' => Shape::C,
        b'q' => Shape::Q,
        _ => Shape::Word(TokenKind::Other),
    }
}

// Ten times the magnitude and a digit, clipped.
#[inline(always)]
pub(crate) fn clip(magnitude: u64, digit: u64) -> u64
    requires { digit ≤ 9 }
    ensures { result ≡ clipped (10 * magnitude + digit) }
{
    if magnitude > TENTH {
        return GREATEST;
    }
    (10 * magnitude + digit).min(GREATEST)
}

#[inline(always)]
pub(crate) fn number(negative: bool, magnitude: u64) -> TokenKind
    ensures { Some result ≡ kind_in (Shape.Digits negative magnitude) }
{
    let clipped = magnitude.min(GREATEST) as i64;
    if negative && magnitude == 0 {
        return TokenKind::Other;
    }
    TokenKind::Number(if negative { -clipped } else { clipped })
}
