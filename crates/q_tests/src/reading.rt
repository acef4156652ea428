// The reader of formulas, over the whole text and over pieces of one and of seven bytes.
ghost use Rattle.std.specs.Prelude.{◌≤◌};
ghost use Rattle.q_logic.specs.Prelude.{AreModerate};

use crate::notation::compare;
use crate::trouble::Trouble;
use q_dimacs::{ReadError, Reader, read, write};
use q_logic::{Formula, Limits};
use std::alloc::Global;

/// What reading a text answers: the canonical text of the formula, or a line that names the refusal.
pub(crate) fn read_answer(alloc: Global, limits: Limits, text: &[u8]) -> Result<Vec<u8>, Trouble>
    requires { AreModerate limits }
{
    let whole = told(alloc, read(alloc, limits, text))?;
    compare_pieces(alloc, limits, text, 1, &whole)?;
    compare_pieces(alloc, limits, text, 7, &whole)?;
    compare_again(alloc, limits, &whole)?;
    Ok(whole)
}

fn compare_pieces(
    alloc: Global,
    limits: Limits,
    text: &[u8],
    size: usize,
    whole: &[u8],
) -> Result<(), Trouble>
    requires limits { AreModerate limits }
    requires size { 1 ≤ size }
{
    let pieces = told(alloc, read_in_pieces(alloc, limits, text, size)?)?;
    compare(alloc, whole, &pieces)
}

// The canonical text of a formula is read as the same formula.
fn compare_again(alloc: Global, limits: Limits, whole: &[u8]) -> Result<(), Trouble>
    requires { AreModerate limits }
{
    if whole.first() != Some(&b'p') {
        return Ok(());
    }
    let again = told(alloc, read(alloc, limits, whole))?;
    compare(alloc, whole, &again)
}

fn told(alloc: Global, answer: Result<Formula, ReadError>) -> Result<Vec<u8>, Trouble> {
    let mut text = Vec::new(alloc);
    match answer {
        Ok(formula) => write(&formula, &mut text)?,
        Err(ReadError::NoMemory) => return Err(Trouble::NoMemory),
        Err(ReadError::Refused { line, cause }) => {
            let said = format!(in alloc; "refused line {line} cause {cause}\n")?;
            text.extend_from_slice(said.as_bytes())?;
        }
    }
    Ok(text)
}

fn read_in_pieces(
    alloc: Global,
    limits: Limits,
    text: &[u8],
    size: usize,
) -> Result<Result<Formula, ReadError>, Trouble>
    requires limits { AreModerate limits }
    requires size { 1 ≤ size }
{
    let Ok(mut reader) = Reader::new(alloc, limits) else {
        return Err(Trouble::NoMemory);
    };
    let refusal = feed_all(&mut reader, text, size)?;
    let end = reader.finish();
    match (refusal, &end) {
        (None, _) => Ok(end),
        (Some(first), Err(last)) if first == *last => Ok(end),
        _ => Err(Trouble::Unreadable("a refusal that lasts to the end")),
    }
}

// The refusal, where one came; it lasts over the pieces behind it.
fn feed_all(reader: &mut Reader, text: &[u8], size: usize) -> Result<Option<ReadError>, Trouble>
    requires { 1 ≤ size }
{
    let mut refusal = None;
    for piece in text.chunks(size) {
        let answer = reader.feed(piece).err();
        if refusal.is_some() && answer != refusal {
            return Err(Trouble::Unreadable("a refusal that lasts"));
        }
        refusal = answer;
    }
    Ok(refusal)
}
