// Where each clause stands in the row of words, and the changes of the row that an arena is made of: words are written, moved
// down, and grown by.
ghost use Rattle.std.specs.Prelude.{◌≡◌, ◌≢◌, ◌⊎◌, ◌≤◌, ◌<◌, ◌+◌, ◌-◌, ◌∷◌, [], ℕ, length, slice_index_or, OnOk, OnErr, None, Some};
ghost use Rattle.q_logic.specs.Prelude.{Literal};
ghost use Rattle.q_arena.specs.Rings.{Has, AreApart};
ghost use Rattle.q_arena.specs.Layout.{end_in, top_of, slot_at, below, Order, AreMore};
ghost use Rattle.q_arena.specs.Gaps.{gap_past, gap_gone};
ghost use Rattle.q_arena.specs.Seen.{piece};

use crate::ids::Ids;
use q_logic::{Lit, NoMemory};

// So many words there may be.
const MOST: usize = 4_294_967_295;

/// Where a clause stands in the row of words.
#[derive(Clone, Copy)]
pub struct Slot {
    pub start: u32,
    pub len: u32,
    pub live: bool,
}

/// Writes the literals from a place on.
pub fn write(words: &mut Vec<Lit>, at: usize, lits: &[Lit])
    requires { at + length lits.now ≤ length words.old.items }
    ensures len { length words.new.items ≡ length words.old.items }
    ensures there { (k : ℕ) (d : Literal) → k < length lits.now
        → slice_index_or words.new.items (at + k) d ≡ slice_index_or lits.now k d }
    ensures below { (k : ℕ) (d : Literal) → k < at → slice_index_or words.new.items k d
        ≡ slice_index_or words.old.items k d }
{
    words[at..at + lits.len()].copy_from_slice(lits);
}

/// The end of the last clause in the row.
pub fn end_of(slots: &Vec<Slot>, ids: &Ids) -> usize
    requires used { (i : ℕ) → Has ids.now.used i → i < length slots.now.items }
    requires fits { top_of (slot_at slots.now.items) ids.now.used < 18446744073709551616 }
    ensures { result ≡ top_of (slot_at slots.now.items) ids.now.used }
{
    end_at(slots, ids.last())
}

/// The words from a place on.
pub fn part(words: &[Lit], start: usize, len: usize) -> &[Lit]
    requires { start + len ≤ length words.now }
    ensures { result.now ≡ piece words.now start len }
{
    let end = start + len;
    &words[start..end]
}

/// The slot of an id, also where there is none.
pub fn slot_of(slots: &Vec<Slot>, at: usize) -> Slot
    ensures { result ≡ slot_at slots.now.items at }
{
    if at < slots.len() {
        slots[at]
    } else {
        Slot {
            start: 0,
            len: 0,
            live: false,
        }
    }
}

/// The end of the clause before one in the row.
pub fn end_below(slots: &Vec<Slot>, ids: &Ids, at: usize) -> usize
    requires at { Has ids.now.used at }
    requires apart { AreApart ids.now.used }
    requires used { (i : ℕ) → Has ids.now.used i → i < length slots.now.items }
    requires fits { top_of (slot_at slots.now.items) (below at ids.now.used)
        < 18446744073709551616 }
    ensures { result ≡ top_of (slot_at slots.now.items) (below at ids.now.used) }
{
    end_at(slots, ids.before(at))
}

// The end of a clause, 0 where there is none.
fn end_at(slots: &Vec<Slot>, id: Option<usize>) -> usize
    requires there { (i : ℕ) → id ≡ Some i → i < length slots.now.items }
    requires fits { end_in (slot_at slots.now.items) id < 18446744073709551616 }
    ensures { result ≡ end_in (slot_at slots.now.items) id }
{
    match id {
        Some(id) => {
            let slot = slots[id];
            slot.start as usize + slot.len as usize
        }
        None => 0,
    }
}

/// Moves words down, also over themselves.
pub fn move_down(words: &mut Vec<Lit>, from: usize, to: usize, n: usize)
    requires from { from + n ≤ length words.old.items }
    requires to { to ≤ from }
    ensures len { length words.new.items ≡ length words.old.items }
    ensures moved { (k : ℕ) (d : Literal) → k < n → slice_index_or words.new.items (to + k) d
        ≡ slice_index_or words.old.items (from + k) d }
    ensures below { (k : ℕ) (d : Literal) → k < to → slice_index_or words.new.items k d
        ≡ slice_index_or words.old.items k d }
    ensures above { (k : ℕ) (d : Literal) → to + n ≤ k → slice_index_or words.new.items k d
        ≡ slice_index_or words.old.items k d }
{
    words.copy_within(from..from + n, to);
}

/// The first gap after a word of a clause has died.
pub fn gap_after_drop(
    slots: &Vec<Slot>,
    gap: Option<usize>,
    at: usize,
    up: Option<usize>,
) -> Option<usize>
    ensures { result ≡ gap_past (slot_at slots.now.items) gap at up }
{
    match gap {
        None => up,
        Some(next) => {
            if slot_of(slots, at).start < slot_of(slots, next).start {
                up
            } else {
                Some(next)
            }
        }
    }
}

/// The first gap after a clause is gone.
pub fn gap_after_delete(
    slots: &Vec<Slot>,
    gap: Option<usize>,
    at: usize,
    up: Option<usize>,
) -> Option<usize>
    ensures { result ≡ gap_gone (slot_at slots.now.items) gap at up }
{
    match gap {
        Some(next) if next == at => up,
        _ if slot_of(slots, at).len == 0 => gap,
        _ => gap_after_drop(slots, gap, at, up),
    }
}

/// Words up to so many past the end.
pub fn grow_words(words: &mut Vec<Lit>, end: usize, more: usize) -> Result<(), NoMemory>
    requires { end ≤ length words.old.items }
    ensures room { OnOk result (end + more ≤ length words.new.items) }
    ensures kept { length words.old.items ≤ length words.new.items }
    ensures exact { (length words.new.items ≡ length words.old.items)
        ⊎ (length words.new.items ≡ end + more) }
    ensures few { length words.old.items < 4294967296 → length words.new.items < 4294967296 }
    ensures same { (k : ℕ) (d : Literal) → k < length words.old.items
        → slice_index_or words.new.items k d ≡ slice_index_or words.old.items k d }
{
    if words.len() - end >= more {
        return Ok(());
    }
    if more > MOST || end > MOST - more {
        return Err(NoMemory);
    }
    words.resize(end + more, Lit::new(1, false))?;
    Ok(())
}

// One more free id, and its slot.
fn add_id(slots: &mut Vec<Slot>, ids: &mut Ids) -> Result<(), NoMemory>
    requires used { (i : ℕ) → Has ids.old.used i → i < length slots.old.items }
    requires free { (i : ℕ) → Has ids.old.free i → i < length slots.old.items }
    ensures more { AreMore slots.old.items slots.new.items ids.old ids.new }
    ensures one { OnOk result (length slots.new.items ≡ length slots.old.items + 1) }
    ensures same { OnErr result (length slots.new.items ≡ length slots.old.items) }
{
    let at = slots.len();
    slots.reserve(1)?;
    ids.add(at)?;
    slots.push_reserved(Slot {
        start: 0,
        len: 0,
        live: false,
    });
    Ok(())
}

/// Free ids and their slots, up to so many ids in all.
pub fn grow_ids(slots: &mut Vec<Slot>, ids: &mut Ids, size: usize) -> Result<(), NoMemory>
    requires used { (i : ℕ) → Has ids.old.used i → i < length slots.old.items }
    requires free { (i : ℕ) → Has ids.old.free i → i < length slots.old.items }
    ensures more { AreMore slots.old.items slots.new.items ids.old ids.new }
    ensures size { OnOk result (size ≤ length slots.new.items) }
    ensures exact { (length slots.new.items ≤ size)
        ⊎ (length slots.new.items ≡ length slots.old.items) }
{
    ids.reserve(size)?;
    while slots.len() < size {
        add_id(slots, ids)?;
    }
    Ok(())
}
