//! Lines by their numbers: these rise, so halving finds them.
ghost use Rattle.std.specs.Prelude.{◌≡◌, ◌≤◌, ◌<◌, length};
ghost use Rattle.q_derive.specs.Traces.{earlier, one, two};
ghost use Rattle.q_resolve.specs.Judged.{entries_of, sources_of, found_of, AreBefore};

use q_qrp::{Antecedents, Trace};

/// The lines from which a line follows, by their places.
#[derive(Clone, Copy)]
pub enum Found {
    /// It names none.
    Nothing,
    /// It names one that does not stand before it.
    Gone,
    Single(usize),
    Double(usize, usize),
}

/// The place of the line with a number before a place.
pub fn find(trace: &Trace, n: usize, number: u32) -> Option<usize>
    requires { n ≤ length trace.now.lines }
    ensures { result ≡ earlier (entries_of trace.now.lines) n number }
{
    trace.rises();
    let mut low = 0;
    let mut high = n;
    while low < high {
        let middle = low + (high - low) / 2;
        if trace.row(middle).id < number {
            low = middle + 1;
        } else {
            high = middle;
        }
    }
    if low < n && trace.row(low).id == number {
        return Some(low);
    }
    None
}

fn find_both(trace: &Trace, n: usize, first: u32, second: u32) -> Found
    requires { n ≤ length trace.now.lines }
    ensures same { result ≡ found_of (entries_of trace.now.lines) n (two first second) }
    ensures before { AreBefore n result }
{
    match find(trace, n, first) {
        None => Found::Gone,
        Some(i) => match find(trace, n, second) {
            None => Found::Gone,
            Some(j) => Found::Double(i, j),
        },
    }
}

fn find_one(trace: &Trace, n: usize, first: u32) -> Found
    requires { n ≤ length trace.now.lines }
    ensures same { result ≡ found_of (entries_of trace.now.lines) n (one first) }
    ensures before { AreBefore n result }
{
    match find(trace, n, first) {
        None => Found::Gone,
        Some(i) => Found::Single(i),
    }
}

/// From what a line follows.
pub fn sources(trace: &Trace, n: usize, antecedents: Antecedents) -> Found
    requires { n ≤ length trace.now.lines }
    ensures same { result ≡ found_of (entries_of trace.now.lines) n (sources_of antecedents) }
    ensures before { AreBefore n result }
{
    match antecedents {
        Antecedents::Zero => Found::Nothing,
        Antecedents::One(first) => find_one(trace, n, first),
        Antecedents::Two(first, second) => find_both(trace, n, first, second),
    }
}
