// Texts as rows write them. Lines are divided by ` / `, and each ends with LF, but where `\-` ends the whole: `1 2 0 / 3 0\-`.
// `\r`, `\t`, `\n`, `\s` and `\x1f` are a carriage return, a tab, a line feed, a space and the byte 31. Nothing at all
// is no byte.
use crate::trouble::Trouble;
use std::alloc::Global;

/// The bytes that a text of a row stands for.
pub(crate) fn bytes_of(alloc: Global, text: &str) -> Result<Vec<u8>, Trouble> {
    let mut bytes = Vec::new(alloc);
    if text.is_empty() {
        return Ok(bytes);
    }
    let lines = text.strip_suffix("\\-");
    for line in lines.unwrap_or(text).split(" / ") {
        push_line(&mut bytes, line)?;
        bytes.push(b'\n')?;
    }
    if lines.is_some() {
        bytes.pop();
    }
    Ok(bytes)
}

fn push_line(bytes: &mut Vec<u8>, line: &str) -> Result<(), Trouble> {
    let mut is_first = true;
    for part in line.split('\\') {
        if is_first {
            bytes.extend_from_slice(part.as_bytes())?;
        } else {
            push_escaped(bytes, part.as_bytes())?;
        }
        is_first = false;
    }
    Ok(())
}

// The part behind a backslash: the letter, and what follows.
fn push_escaped(bytes: &mut Vec<u8>, part: &[u8]) -> Result<(), Trouble> {
    let (byte, rest) = match part {
        [b'r', rest @ ..] => (b'\r', rest),
        [b't', rest @ ..] => (b'\t', rest),
        [b'n', rest @ ..] => (b'\n', rest),
        [b's', rest @ ..] => (b' ', rest),
        [b'x', high, low, rest @ ..] => (digit(*high) << 4 | digit(*low), rest),
        _ => return Err(Trouble::Unreadable("a letter behind a backslash")),
    };
    bytes.push(byte)?;
    bytes.extend_from_slice(rest)?;
    Ok(())
}

fn digit(byte: u8) -> u8 {
    match byte {
        b'0'..=b'9' => byte - b'0',
        b'a'..=b'f' => byte - b'a' + 10,
        _ => 0,
    }
}

/// A number of a row.
pub(crate) fn number(text: &str) -> Result<u32, Trouble> {
    match text.parse::<u32>() {
        Ok(number) => Ok(number),
        Err(_) => Err(Trouble::Unreadable("a number")),
    }
}

/// A text for a reader, close to what a row would write for these bytes.
pub(crate) fn shown(alloc: Global, bytes: &[u8]) -> Result<String, Trouble> {
    let mut text = String::new(alloc);
    for byte in bytes {
        push_shown(&mut text, *byte)?;
    }
    Ok(text)
}

fn push_shown(text: &mut String, byte: u8) -> Result<(), Trouble> {
    match byte {
        b'\n' => text.push_str(" / ")?,
        b'\r' => text.push_str("\\r")?,
        b' '..=b'~' => text.push(char::from(byte))?,
        _ => text.push_str("\\x..")?,
    }
    Ok(())
}

/// Compares bytes that came with those that are wanted.
pub(crate) fn compare(alloc: Global, wanted: &[u8], got: &[u8]) -> Result<(), Trouble> {
    if wanted == got {
        return Ok(());
    }
    Err(Trouble::Differs {
        wanted: shown(alloc, wanted)?,
        got: shown(alloc, got)?,
    })
}
