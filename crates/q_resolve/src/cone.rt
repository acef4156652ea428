//! The cone of a trace: its last line without literals, and the lines from which that follows. One pass backwards marks it,
//! since a line names only lines before it.
ghost use Rattle.std.specs.Prelude.{◌≡◌, ◌↔◌, ◌⊎◌, ◌<◌, ◌≤◌, ℕ, Some, true, false, length, slice_get, slice_index_or, vec_len, IfOk};
ghost use Rattle.q_derive.specs.Traces.{IsEnd, earlier, one};
ghost use Rattle.q_resolve.specs.Judged.{entries_of, sources_in, IsEndOf, AreCone, AreClear, AreMarkedBy};

use crate::finding::find;
use q_logic::NoMemory;
use q_qrp::{Antecedents, Trace};
use std::alloc::Global;

/// The last line without literals.
pub fn find_end(trace: &Trace) -> Option<usize>
    ensures { IsEndOf (entries_of trace.now.lines) result }
{
    let mut end = None;
    for n in 0..trace.len() {
        if trace.literals(n).is_empty() {
            end = Some(n);
        }
    }
    end
}

fn mark_one(trace: &Trace, n: usize, number: u32, marks: &mut Vec<bool>)
    requires place { n < length trace.now.lines }
    requires size { length marks.old.items ≡ length trace.now.lines }
    ensures { AreMarkedBy (entries_of trace.now.lines) n (one number) marks.old.items marks.new.items }
{
    match find(trace, n, number) {
        None => {}
        Some(i) => marks[i] = true,
    }
}

// Marks the lines that a line names.
fn mark_sources(trace: &Trace, n: usize, marks: &mut Vec<bool>)
    requires place { n < length trace.now.lines }
    requires size { length marks.old.items ≡ length trace.now.lines }
    ensures { AreMarkedBy (entries_of trace.now.lines) n (sources_in (slice_get (entries_of
        trace.now.lines) n)) marks.old.items marks.new.items }
{
    match trace.row(n).antecedents {
        Antecedents::Zero => {}
        Antecedents::One(first) => mark_one(trace, n, first, marks),
        Antecedents::Two(first, second) => {
            mark_one(trace, n, first, marks);
            mark_one(trace, n, second, marks);
        }
    }
}

fn no_marks(alloc: Global, n: usize) -> Result<Vec<bool>, NoMemory>
    ensures { IfOk result (λ marks. AreClear n marks.items) }
{
    let mut marks = Vec::new(alloc);
    marks.resize(n, false)?;
    Ok(marks)
}

/// A mark for each line of the cone.
pub fn cone_of(alloc: Global, trace: &Trace, end: usize) -> Result<Vec<bool>, NoMemory>
    requires end { IsEnd (entries_of trace.now.lines) end }
    requires within { end < length trace.now.lines }
    ensures { IfOk result (λ marks. AreCone (entries_of trace.now.lines) marks.items) }
{
    let mut marks = no_marks(alloc, trace.len())?;
    marks[end] = true;
    for back in 0..end + 1 {
        let n = end - back;
        if marks[n] {
            mark_sources(trace, n, &mut marks);
        }
    }
    Ok(marks)
}
