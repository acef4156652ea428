//! The lines of a file, their words, and the numbers among these.
ghost use Rattle.std.specs.Prelude.{◌≡◌, ◌≢◌, ◌<◌, ◌≤◌, ℕ, false, [], ◌∷◌, length, slice_index, MatchOption, IsTrue};
ghost use Rattle.q_text.specs.Texts.{line_after};
ghost use Rattle.q_aiger.specs.Lines.{is_blank as blank, words, without_return, lines_of, number as number_spec};

// Numbers end here: no file has so many bytes.
const GREATEST: u64 = 576_460_752_303_423_488;

/// The first line, and what stands behind it; None where there is no line.
pub fn next_line(text: &[u8]) -> Option<(&[u8], &[u8])>
    ensures { MatchOption result (lines_of text.now ≡ []) (λ r. lines_of text.now
        ≡ r.0.now ∷ lines_of r.1.now) }
{
    if text.is_empty() {
        return None;
    }
    let end = line_end(text);
    if end == text.len() {
        return Some((text, &text[end..]));
    }
    Some((cut_return(&text[..end]), &text[end + 1..]))
}

// The place of the first LF, or the length.
fn line_end(text: &[u8]) -> usize
    ensures within { result ≤ length text.now }
    ensures before { (k : ℕ) → k < result → slice_index text.now k ≢ 10 }
    ensures found { result < length text.now → slice_index text.now result ≡ 10 }
{
    for (at, byte) in text.iter().enumerate() {
        if *byte == b'\n' {
            return at;
        }
    }
    text.len()
}

// The line without a CR at its end.
fn cut_return(line: &[u8]) -> &[u8]
    ensures { result.now ≡ without_return line.now }
{
    let len = line.len();
    if len > 0 && line[len - 1] == b'\r' {
        return &line[..len - 1];
    }
    line
}

/// The first word of a line, and what stands behind it; None where there is no word.
pub fn next_word(line: &[u8]) -> Option<(&[u8], &[u8])>
    ensures { MatchOption result (words line.now ≡ []) (λ r. words line.now
        ≡ r.0.now ∷ words r.1.now) }
{
    let line = &line[blanks(line)..];
    let end = word_end(line);
    if end == 0 {
        return None;
    }
    Some((&line[..end], &line[end..]))
}

// How many blanks stand at the front.
fn blanks(line: &[u8]) -> usize
    ensures within { result ≤ length line.now }
    ensures before { (k : ℕ) → k < result → IsTrue (blank (slice_index line.now k)) }
    ensures found { result < length line.now → blank (slice_index line.now result) ≡ false }
{
    for (at, byte) in line.iter().enumerate() {
        if !is_blank(*byte) {
            return at;
        }
    }
    line.len()
}

// Where the word at the front ends.
fn word_end(line: &[u8]) -> usize
    ensures within { result ≤ length line.now }
    ensures before { (k : ℕ) → k < result → blank (slice_index line.now k) ≡ false }
    ensures found { result < length line.now → IsTrue (blank (slice_index line.now result)) }
{
    for (at, byte) in line.iter().enumerate() {
        if is_blank(*byte) {
            return at;
        }
    }
    line.len()
}

fn is_blank(byte: u8) -> bool
    ensures { result ≡ blank byte }
{
    byte == b' ' || byte == b'\t'
}

/// The number that a word is; from 2^59 on it is 2^59.
pub fn number(word: &[u8]) -> Option<u64>
    ensures { result ≡ number_spec word.now }
{
    if word.is_empty() {
        return None;
    }
    let mut value = 0;
    for byte in word {
        if !byte.is_ascii_digit() {
            return None;
        }
        value = (10 * value + u64::from(*byte - b'0')).min(GREATEST);
    }
    Some(value)
}

/// The line behind the text: 1 plus the number of its LFs.
pub fn last_line(text: &[u8]) -> u64
    ensures { result ≡ line_after text.now }
{
    let mut line = 1;
    for byte in text {
        if *byte == b'\n' {
            line += 1;
        }
    }
    line
}
