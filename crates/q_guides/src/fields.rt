//! The fields of a line of text: numbers and literals, with one space between two of them.
ghost use Rattle.std.specs.Prelude.{◌≡◌, ◌==◌, option_map, position};
ghost use Rattle.q_guides.specs.MoveTexts.{halves as spec_halves, literal as spec_literal, number as spec_number, number_of, pair};

use q_logic::Lit;

/// The greatest variable of a literal.
const LAST: u32 = 2_147_483_647;

// Where the first byte of this value stands.
fn place_of(text: &[u8], divider: u8) -> Option<usize>
    ensures { result ≡ position (λ b. b == divider) text.now }
{
    text.iter().position(|byte| *byte == divider)
}

/// What stands before the first byte of this value, and behind it.
pub(crate) fn halves(text: &[u8], divider: u8) -> Option<(&[u8], &[u8])>
    ensures { option_map (λ p. (p.0.now, p.1.now)) result ≡ spec_halves divider text.now }
{
    match place_of(text, divider) {
        Some(at) => Some((&text[..at], &text[at + 1..])),
        None => None,
    }
}

// The number of a text of digits, where it is not too large.
fn number_up_to(text: &[u8], most: u32) -> Option<u32>
    ensures { result ≡ number_of most text.now }
{
    if text.is_empty() {
        return None;
    }
    let mut value = 0u32;
    for byte in text {
        if *byte < b'0' || *byte > b'9' {
            return None;
        }
        let digit = u32::from(*byte - b'0');
        if digit > most || value > (most - digit) / 10 {
            return None;
        }
        value = 10 * value + digit;
    }
    Some(value)
}

/// The number of a clause or of a variable.
pub(crate) fn number(text: &[u8]) -> Option<u32>
    ensures { result ≡ spec_number text.now }
{
    number_up_to(text, u32::MAX)
}

pub(crate) fn literal(text: &[u8]) -> Option<Lit>
    ensures { result ≡ spec_literal text.now }
{
    let negative = !text.is_empty() && text[0] == b'-';
    let digits = if negative { &text[1..] } else { text };
    match number_up_to(digits, LAST) {
        Some(var) if var > 0 => Some(Lit::new(var, negative)),
        _ => None,
    }
}

pub(crate) fn two_numbers(text: &[u8]) -> Option<(u32, u32)>
    ensures { result ≡ pair spec_number spec_number text.now }
{
    let Some((front, back)) = halves(text, b' ') else {
        return None;
    };
    let Some(first) = number(front) else {
        return None;
    };
    match number(back) {
        Some(second) => Some((first, second)),
        None => None,
    }
}

pub(crate) fn number_and_literal(text: &[u8]) -> Option<(u32, Lit)>
    ensures { result ≡ pair spec_number spec_literal text.now }
{
    let Some((front, back)) = halves(text, b' ') else {
        return None;
    };
    let Some(first) = number(front) else {
        return None;
    };
    match literal(back) {
        Some(lit) => Some((first, lit)),
        None => None,
    }
}

pub(crate) fn two_literals(text: &[u8]) -> Option<(Lit, Lit)>
    ensures { result ≡ pair spec_literal spec_literal text.now }
{
    let Some((front, back)) = halves(text, b' ') else {
        return None;
    };
    let Some(first) = literal(front) else {
        return None;
    };
    match literal(back) {
        Some(second) => Some((first, second)),
        None => None,
    }
}

pub(crate) fn two_numbers_and_literal(text: &[u8]) -> Option<(u32, (u32, Lit))>
    ensures { result ≡ pair spec_number (pair spec_number spec_literal) text.now }
{
    let Some((front, back)) = halves(text, b' ') else {
        return None;
    };
    let Some(first) = number(front) else {
        return None;
    };
    match number_and_literal(back) {
        Some(others) => Some((first, others)),
        None => None,
    }
}
