//! What a job made: the files that its words name, but those that were given.
ghost use Rattle.std.specs.Prelude.{◌≡◌, ◌≤◌, length, flat_map, map, nat_le, string_bytes, take};
ghost use Rattle.std.specs.List.{list_any};
ghost use Rattle.q_c_library.specs.Calls.{Copied};
ghost use Rattle.q_c_library.specs.Jobs.{gives, made_at};

use crate::job::Word;
use q_io::SteadyFiles;

fn is_given(words: &[Word], name: &str) -> bool
    ensures { result ≡ list_any (gives name.now) words.now }
{
    for word in words {
        if word.is_given && word.text == name.as_bytes() {
            return true;
        }
    }
    false
}

// The bytes of the file of a name, and none where it was given.
fn made<'a>(words: &[Word], files: &'a SteadyFiles, name: &str) -> &'a [u8]
    ensures { result.now ≡ made_at words.now files.now name.now }
{
    if is_given(words, name) {
        return &[];
    }
    match files.file(name) {
        Some(bytes) => bytes,
        None => &[],
    }
}

// Tells how many bytes each file has that was made.
pub(crate) fn tell_lengths(
    words: &[Word],
    files: &SteadyFiles,
    names: &[String],
    lengths: &mut [usize],
)
    requires { length lengths.old ≡ length names.now }
    ensures { lengths.new
        ≡ map (λ n. length (made_at words.now files.now (string_bytes n))) names.now }
{
    for i in 0..names.len() {
        lengths[i] = made(words, files, names[i].as_str()).len();
    }
}

// Whether all of them fit into so much room.
fn fit(words: &[Word], files: &SteadyFiles, names: &[String], room: usize) -> bool
    ensures { result ≡ nat_le (length (flat_map (λ n.
        made_at words.now files.now (string_bytes n)) names.now)) room }
{
    let mut left = room;
    for name in names {
        let len = made(words, files, name.as_str()).len();
        if len > left {
            return false;
        }
        left -= len;
    }
    true
}

// Copies them to the buffer's front, one behind the other.
fn copy(words: &[Word], files: &SteadyFiles, names: &[String], buffer: &mut [u8])
    requires { length (flat_map (λ n. made_at words.now files.now (string_bytes n)) names.now)
        ≤ length buffer.old }
    ensures { take (length (flat_map (λ n. made_at words.now files.now (string_bytes n)) names.now))
        buffer.new ≡ flat_map (λ n. made_at words.now files.now (string_bytes n)) names.now }
{
    let mut at = 0;
    for name in names {
        let bytes = made(words, files, name.as_str());
        let end = at + bytes.len();
        buffer[at..end].copy_from_slice(bytes);
        at = end;
    }
}

// Copies them where they fit.
pub(crate) fn put_made(words: &[Word], files: &SteadyFiles, names: &[String], buffer: &mut [u8])
    ensures { Copied (flat_map (λ n. made_at words.now files.now (string_bytes n)) names.now)
        buffer.old buffer.new
        (length (flat_map (λ n. made_at words.now files.now (string_bytes n)) names.now)) }
{
    if fit(words, files, names, buffer.len()) {
        copy(words, files, names, buffer);
    }
}
