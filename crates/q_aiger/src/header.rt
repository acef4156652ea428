//! The header of a file. Its numbers may be of any length, so that sums are compared digit by digit.
ghost use Rattle.std.specs.Prelude.{◌≡◌, ◌≢◌, ◌<◌, ◌≤◌, ◌+◌, ◌*◌, ℕ, [], ◌∷◌, length, Ok, Err, MatchOption, MatchResult, IfOk, IsTrue, ◌↔◌};
ghost use Rattle.q_aiger.specs.Lines.{words, clipped};
ghost use Rattle.q_aiger.specs.Modest.{IsModest};
ghost use Rattle.q_aiger.specs.Headers.{is_aag as aag, header_of, header_with, header_view, counts_in, value, IsNumber, padded, IsSpare, IsSmall, AreNumbers};

use crate::error::Cause;
use crate::lines::{next_word, number};

/// What a file says that it has: the greatest variable, and how many lines of each kind.
#[derive(Clone, Copy)]
pub struct Header {
    pub max: u64,
    pub inputs: u64,
    pub outputs: u64,
    pub gates: u64,
}

// No variable of a file is greater.
const MOST: u64 = 268_435_456;

// The words of the header.
#[derive(Clone, Copy)]
struct Words<'a> {
    tag: &'a [u8],
    max: &'a [u8],
    inputs: &'a [u8],
    latches: &'a [u8],
    outputs: &'a [u8],
    gates: &'a [u8],
}

/// The header of a line, or its cause.
pub fn read_header(line: &[u8]) -> Result<Header, u8>
    ensures answer { MatchResult result (λ h. header_of line.now ≡ Ok (header_view h))
        (λ c. header_of line.now ≡ Err c) }
    ensures modest { IfOk result IsModest }
{
    match six_words(line) {
        Some(words) => counted(words),
        None => Err(Cause::BadHeader as u8),
    }
}

fn counted(words: Words) -> Result<Header, u8>
    ensures answer { MatchResult result (λ h. header_with (counts_in words.entry)
        ≡ Ok (header_view h)) (λ c. header_with (counts_in words.entry) ≡ Err c) }
    ensures modest { IfOk result IsModest }
{
    if !is_aag(words.tag) {
        return Err(Cause::BadHeader as u8);
    }
    if !are_numbers(words) {
        return Err(Cause::BadHeader as u8);
    }
    if is_below(words.max, words.inputs, words.latches, words.gates) {
        return Err(Cause::BadHeader as u8);
    }
    if count(words.latches) > 0 {
        return Err(Cause::BadLatch as u8);
    }
    if count(words.max) > MOST {
        return Err(Cause::Limit as u8);
    }
    Ok(Header {
        max: count(words.max),
        inputs: count(words.inputs),
        outputs: count(words.outputs),
        gates: count(words.gates),
    })
}

fn six_words(line: &[u8]) -> Option<Words>
    ensures { MatchOption result (length (words line.now) ≢ 6)
        (λ r. words line.now ≡ r.tag.now ∷ r.max.now ∷ r.inputs.now ∷ r.latches.now ∷ r.outputs.now
        ∷ r.gates.now ∷ []) }
{
    let (tag, max, inputs, rest) = three_words(line)?;
    let (latches, outputs, gates, rest) = three_words(rest)?;
    if next_word(rest).is_some() {
        return None;
    }
    Some(Words {
        tag,
        max,
        inputs,
        latches,
        outputs,
        gates,
    })
}

// The first three words of a line, and what stands behind them; None where there are fewer.
fn three_words(line: &[u8]) -> Option<(&[u8], &[u8], &[u8], &[u8])>
    ensures { MatchOption result (length (words line.now) < 3) (λ r. words line.now
        ≡ r.0.now ∷ r.1.now ∷ r.2.now ∷ words r.3.now) }
{
    let (first, rest) = next_word(line)?;
    let (second, rest) = next_word(rest)?;
    let (third, rest) = next_word(rest)?;
    Some((first, second, third, rest))
}

fn is_aag(word: &[u8]) -> bool
    ensures { result ≡ aag word.now }
{
    word.len() == 3 && word[0] == b'a' && word[1] == b'a' && word[2] == b'g'
}

fn are_numbers(words: Words) -> bool
    ensures { IsTrue result ↔ AreNumbers words.entry }
{
    is_number(words.max)
        && is_number(words.inputs)
        && is_number(words.latches)
        && is_number(words.outputs)
        && is_number(words.gates)
}

fn is_number(word: &[u8]) -> bool
    ensures { IsTrue result ↔ IsNumber word.now }
{
    number(word).is_some()
}

// The number that a word is; from 2^59 on it is 2^59.
fn count(word: &[u8]) -> u64
    requires { IsNumber word.now }
    ensures { result ≡ clipped (value word.now) }
{
    number(word).unwrap_or(0)
}

// Whether a number is below the sum of three others.
fn is_below(max: &[u8], inputs: &[u8], latches: &[u8], gates: &[u8]) -> bool
    requires max { IsNumber max.now }
    requires inputs { IsNumber inputs.now }
    requires latches { IsNumber latches.now }
    requires gates { IsNumber gates.now }
    ensures { IsTrue result
        ↔ (value max.now < value inputs.now + value latches.now + value gates.now) }
{
    let len = max
        .len()
        .max(inputs.len())
        .max(latches.len())
        .max(gates.len());
    let mut spare = Some(0);
    for at in 0..len {
        let sum = digit(inputs, len, at) + digit(latches, len, at) + digit(gates, len, at);
        spare = advance(spare, digit(max, len, at), sum);
    }
    spare.is_none()
}

// By how much the digits so far are more than the sum of theirs, up to 3; None where they are less.
fn advance(spare: Option<u64>, max: u64, sum: u64) -> Option<u64>
    requires max { max ≤ 9 }
    requires sum { sum ≤ 27 }
    requires small { IsSmall spare }
    ensures spare { (m : ℕ) → (s : ℕ) → IsSpare spare m s
        → IsSpare result (10 * m + max) (10 * s + sum) }
    ensures small { IsSmall result }
{
    match spare {
        None => None,
        Some(spare) => {
            let now = 10 * spare + max;
            if now < sum {
                return None;
            }
            Some((now - sum).min(3))
        }
    }
}

// The digit at a place of the word, as if it had this length.
fn digit(word: &[u8], len: usize, at: usize) -> u64
    requires number { IsNumber word.now }
    requires long { length word.now ≤ len }
    requires at { at < len }
    ensures step { padded len word.now (at + 1) ≡ 10 * padded len word.now at + result }
    ensures small { result ≤ 9 }
{
    let blank = len - word.len();
    if at < blank {
        return 0;
    }
    u64::from(word[at - blank] - b'0')
}
