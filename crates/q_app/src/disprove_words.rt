// The options of `disprove`, behind its names.
ghost use Rattle.std.specs.Prelude.{◌≡◌};
ghost use Rattle.q_app.specs.DisproveWords.{are_names as spec_are_names, is_name as spec_is_name, options_of as spec_options_of, read_as as spec_read_as};
ghost use Rattle.q_command.specs.Names.{three_of};
ghost use Rattle.q_app.specs.Operands.{texts};

use crate::part_words::part_of;
use crate::settings::strip;
use q_command::{Names, Part};

/// How a proof is read: what can be either as a binary proof, and a part of it or all.
#[derive(Clone, Copy)]
pub(crate) struct DisproveOptions {
    pub binary: bool,
    pub part: Option<Part>,
}

// With the part that the other words ask for.
fn read_as(binary: bool, words: Option<Option<Part>>) -> Option<DisproveOptions>
    ensures { result ≡ spec_read_as binary words }
{
    match words {
        Some(part) => Some(DisproveOptions { binary, part }),
        None => None,
    }
}

/// What the words behind the names ask for; none where they ask for something else.
pub(crate) fn options_of(words: &[String]) -> Option<DisproveOptions>
    ensures { result ≡ spec_options_of (texts words.now) }
{
    if words.len() == 0 {
        return read_as(false, part_of(words));
    }
    if words[0].as_str() == "--binary" {
        return read_as(true, part_of(&words[1..]));
    }
    if words.len() == 2 && words[1].as_str() == "--binary" {
        return read_as(true, part_of(&words[..1]));
    }
    read_as(false, part_of(words))
}

// Whether a word does not begin as an option does.
fn is_name(word: &str) -> bool
    ensures { result ≡ spec_is_name word.now }
{
    match strip(word, b"--") {
        Some(_) => false,
        None => true,
    }
}

/// Whether none of the names begins as an option does.
pub(crate) fn are_names(names: Names) -> bool
    ensures { result ≡ spec_are_names (three_of names.entry) }
{
    is_name(names.input) && is_name(names.output) && is_name(names.log)
}
