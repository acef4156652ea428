// The literals that are known, in the order in which they came, with a mark for each literal, and beside it the slot that may have
// forced it. The notes are guesses: who uses one tests it first.
ghost use Rattle.std.specs.Prelude.{◌≡◌, ◌↔◌, ◌<◌, ◌-◌, ◌++◌, ◌∷◌, [], length, slice_get, OnOk, OnErr, Some, Contains, IsTrue, MatchOption, take};
ghost use Rattle.q_prop.specs.Marks.{IsTaken};
ghost use Rattle.q_prop.specs.Spots.{cut};

use q_logic::{Lit, NoMemory};
use q_pages::ByNumber;
use std::alloc::Global;
use std::marker::Model;

/// The literals that are known, in the order in which they came unless one was taken off. Beside the
/// marks stands where each was put, and which slot may have forced it.
#[derive(Drop)]
pub struct Trail {
    lits: Vec<Lit>,
    marks: ByNumber<bool>,
    notes: ByNumber<Note>,
    conflict: usize,
}

// What is noted of a literal on the trail.
#[derive(Clone, Copy)]
struct Note {
    // where it was put
    spot: u32,
    // the slot that may have forced it
    reason: u32,
}

/// No slot: the literal is one to begin with.
pub const NO_SLOT: usize = 4_294_967_295;

const NO_NOTE: Note = Note {
    spot: u32::MAX,
    reason: u32::MAX,
};

impl Model for Trail {
    ghost use Rattle.std.specs.Prelude.{◌≡◌, List, false};
    ghost use Rattle.q_logic.specs.Prelude.{Literal};
    ghost use Rattle.q_prop.specs.Marks.{IsMarked, IsOnce};

    ghost Value = { List Literal };

    ghost view = { λ t. t.lits.items };

    ghost invariant = { λ t. IsMarked t.marks t.lits.items × IsOnce t.lits.items × (t.marks.far.none ≡ false) };
}

impl Trail {
    pub fn new(alloc: Global) -> Trail
        ensures { result ≡ [] }
    {
        Trail {
            lits: Vec::new(alloc),
            marks: ByNumber::new(alloc, false),
            notes: ByNumber::new(alloc, NO_NOTE),
            conflict: NO_SLOT,
        }
    }

    /// The slot whose clause may have forced the literal, and none for a literal that is not on the trail. It is
    /// looked at before it is used: a wrong one costs time alone.
    pub(crate) fn reason(&self, lit: Lit) -> usize {
        if self.has(lit) {
            self.notes.get(lit.index()).reason as usize
        } else {
            NO_SLOT
        }
    }

    /// Notes another slot as the one that may have forced the literal, in place of this one.
    pub fn change_reason(&mut self, lit: Lit, old: usize, new: usize)
        ensures { self.new ≡ self.old }
    {
        let note = self.notes.get(lit.index());
        if note.reason as usize == old {
            // It has a reason, so this takes no memory.
            let _ = self.notes.put(
                lit.index(),
                Note {
                    reason: short(new),
                    ..note
                },
            );
        }
    }

    /// Notes the slot whose clause is falsified. This, too, is looked at before it is used.
    pub fn note_conflict(&mut self, slot: usize)
        ensures { self.new ≡ self.old }
    {
        self.conflict = slot;
    }

    /// The slot whose clause may be falsified.
    pub(crate) fn conflict(&self) -> usize {
        self.conflict
    }

    pub fn len(&self) -> usize
        ensures { result ≡ length self.now }
    {
        self.lits.len()
    }

    pub fn at(&self, place: usize) -> Lit
        requires { place < length self.now }
        ensures { slice_get self.now place ≡ Some result }
    {
        self.lits[place]
    }

    pub fn has(&self, lit: Lit) -> bool
        ensures { IsTrue result ↔ Contains self.now lit }
    {
        self.marks.get(lit.index())
    }

    pub fn push(&mut self, lit: Lit) -> Result<(), NoMemory>
        requires { Contains self.old lit → ⊥ }
        ensures ok { OnOk result (self.new ≡ self.old ++ lit ∷ []) }
        ensures err { OnErr result (self.new ≡ self.old) }
    {
        self.force(lit, NO_SLOT)
    }

    /// Pushes a literal, and notes the slot whose clause forced it.
    pub fn force(&mut self, lit: Lit, slot: usize) -> Result<(), NoMemory>
        requires { Contains self.old lit → ⊥ }
        ensures ok { OnOk result (self.new ≡ self.old ++ lit ∷ []) }
        ensures err { OnErr result (self.new ≡ self.old) }
    {
        let note = Note {
            spot: short(self.lits.len()),
            reason: short(slot),
        };
        self.notes.put(lit.index(), note)?;
        self.lits.reserve(1)?;
        self.marks.put(lit.index(), true)?;
        self.lits.push_reserved(lit);
        Ok(())
    }

    // Takes the last literal back, which stands there once.
    fn pop(&mut self)
        ensures { self.new ≡ take (length self.old - 1) self.old }
    {
        if let Some(lit) = self.lits.pop() {
            self.marks.clear(lit.index());
        }
    }

    pub fn truncate(&mut self, end: usize)
        ensures { self.new ≡ take end self.old }
    {
        while self.len() > end {
            self.pop();
        }
    }

    /// Takes a literal off. The last one comes to its place then.
    pub fn remove(&mut self, lit: Lit)
        ensures { IsTaken lit self.old self.new }
    {
        let Some(place) = place_of(&self.lits, lit, self.notes.get(lit.index()).spot as usize)
        else {
            return;
        };
        self.lits.swap_remove(place);
        self.marks.clear(lit.index());
        if let Some(moved) = self.lits.get(place) {
            // It has a place, so this takes no memory.
            let note = self.notes.get(moved.index());
            let _ = self.notes.put(
                moved.index(),
                Note {
                    spot: short(place),
                    ..note
                },
            );
        }
    }
}

// A place or a slot as it is noted.
fn short(place: usize) -> u32
    ensures { result ≡ cut place }
{
    u32::try_from(place).unwrap_or(u32::MAX)
}

// The place of a literal, looked for first at the given one.
fn place_of(lits: &[Lit], lit: Lit, guess: usize) -> Option<usize>
    ensures { MatchOption result (Contains lits.now lit → ⊥) (λ place. slice_get lits.now place
        ≡ Some lit) }
{
    if is_at(lits, lit, guess) {
        return Some(guess);
    }
    for place in 0..lits.len() {
        if lits[place].is(lit) {
            return Some(place);
        }
    }
    None
}

fn is_at(lits: &[Lit], lit: Lit, place: usize) -> bool
    ensures { IsTrue result ↔ (slice_get lits.now place ≡ Some lit) }
{
    match lits.get(place) {
        Some(other) => other.is(lit),
        None => false,
    }
}
