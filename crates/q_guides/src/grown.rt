//! Rows by number, which grow where a number is past their end.
ghost use Rattle.std.specs.Prelude.{◌<◌, length, OnOk};

use q_logic::NoMemory;
use q_sparse::Sparse;

// A longer row does not double.
const MOST: usize = 4_294_966_272;

/// Takes a number into a row. The row doubles at least, since that takes no memory. It is seldom called, so callers look first.
#[cold]
#[inline(never)]
pub(crate) fn take_in<T: Copy>(row: &mut Sparse<T>, number: u32) -> Result<(), NoMemory>
    ensures { OnOk result (number < length row.new.items) }
{
    let place = number as usize;
    if place >= row.len() {
        row.grow((place + 1).max(row.len().saturating_mul(2).min(MOST)))?;
    }
    Ok(())
}
