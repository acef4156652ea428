// The words of a trace: tokens, of which q_text tells numbers and letters, and their names, which tell the rest.
ghost use Rattle.std.specs.Prelude.{◌≡◌, ◌<◌, ◌-◌, ◌^◌};
ghost use Rattle.q_text.specs.Tokens.{line_of};
ghost use Rattle.q_qrp.specs.Words.{after, begun, handed, handed_at_end, name_after, qrp_name, sat_name, unsat_name, unknown_name};

use q_text::{Token, Tokens};

/// Names end here.
const GREATEST: u64 = 1_152_921_504_606_846_976;

/// Names from here on are too long for one more byte.
const LONG: u64 = 4_503_599_627_370_496;

/// `qrp` behind a 1, in base 256.
pub const QRP: u64 = 24_212_080;

/// `SAT`.
pub const SAT: u64 = 22_233_428;

/// `UNSAT`.
pub const UNSAT: u64 = 1_465_897_926_996;

/// `UNKNOWN`.
pub const UNKNOWN: u64 = 96_069_052_401_669_966;

/// A word of a trace: its token, and the bytes of the word as a number.
#[derive(Clone, Copy)]
pub struct Spoken {
    pub token: Token,
    pub name: u64,
}

/// Divides a trace into words, byte by byte.
#[derive(Drop)]
pub struct Words {
    tokens: Tokens,
    name: u64,
}

impl Words {
    pub fn new() -> Words
        ensures { result ≡ begun }
    {
        Words {
            tokens: Tokens::new(),
            name: 1,
        }
    }

    /// 1 and the LF bytes so far.
    #[inline(always)]
    pub fn line(&self) -> u64
        ensures { result ≡ line_of self.now.tokens }
    {
        self.tokens.line()
    }

    /// The word that this byte ends, if it ends one.
    #[inline(always)]
    pub fn push(&mut self, byte: u8) -> Option<Spoken>
        requires { line_of self.old.tokens < 2 ^ 64 - 1 }
        ensures word { result ≡ handed self.old byte }
        ensures state { self.new ≡ after self.old byte }
    {
        let name = self.name.min(GREATEST);
        self.name = name_after(self.name, byte);
        match self.tokens.push(byte) {
            None => None,
            Some(token) => Some(Spoken { token, name }),
        }
    }

    /// The word that the end of the text ends, if it ends one.
    pub fn finish(self) -> Option<Spoken>
        ensures { result ≡ handed_at_end self }
    {
        let Words { tokens, name } = self;
        match tokens.finish() {
            None => None,
            Some(token) => Some(Spoken {
                token,
                name: name.min(GREATEST),
            }),
        }
    }
}

#[inline(always)]
fn name_after(name: u64, byte: u8) -> u64
    ensures { result ≡ name_after name byte }
{
    if matches!(byte, b'\n' | b' ' | b'\t' | b'\r') {
        return 1;
    }
    if name >= LONG {
        return GREATEST;
    }
    (256 * name + u64::from(byte)).min(GREATEST)
}
