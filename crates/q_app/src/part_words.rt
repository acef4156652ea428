// The option of `check` and `annotate` that judges a part of the log.
ghost use Rattle.std.specs.Prelude.{◌≡◌, ◌≤◌, ◌==◌, Some, position};
ghost use Rattle.q_app.specs.Operands.{texts};
ghost use Rattle.q_app.specs.PartWords.{part_by, part_in, part_of as spec_part_of, part_of_option};

use crate::settings::{number, strip};
use q_command::Part;

// There are at most so many parts.
const MOST: u64 = 4_294_967_295;

// The part of this place among so many, counted from 1.
fn nth(place: u64, parts: u64) -> Option<Part>
    requires { parts ≤ 4294967295 }
    ensures { result ≡ part_by (Some place) (Some parts) }
{
    if place == 0 || place > parts {
        return None;
    }
    Some(Part {
        index: (place - 1) as u32,
        others: (parts - 1) as u32,
    })
}

// Where the first slash stands.
fn slash(text: &[u8]) -> Option<usize>
    ensures { result ≡ position (λ b. b == 47) text.now }
{
    text.iter().position(|byte| *byte == b'/')
}

// The part of a text, as 2/8.
fn part_of_text(text: &[u8]) -> Option<Part>
    ensures { result ≡ part_in text.now }
{
    let Some(at) = slash(text) else {
        return None;
    };
    let Some(place) = number(&text[..at], MOST) else {
        return None;
    };
    match number(&text[at + 1..], MOST) {
        Some(parts) => nth(place, parts),
        None => None,
    }
}

fn part_of_word(word: &str) -> Option<Part>
    ensures { result ≡ part_of_option word.now }
{
    match strip(word, b"--part=") {
        Some(text) => part_of_text(text),
        None => None,
    }
}

/// The part that the words behind the names ask for, if there are any; none where they ask for something else.
pub(crate) fn part_of(words: &[String]) -> Option<Option<Part>>
    ensures { result ≡ spec_part_of (texts words.now) }
{
    if words.len() == 0 {
        return Some(None);
    }
    if words.len() > 1 {
        return None;
    }
    match part_of_word(words[0].as_str()) {
        Some(part) => Some(Some(part)),
        None => None,
    }
}
