//! Numbers of clauses: which slot each number has. A number is never given twice, and where its clause goes it has
//! no slot. Where to look for the number of a slot is noted beside; a wrong note costs time alone.
ghost use Rattle.std.specs.Prelude.{◌≡◌, ◌<◌, ◌++◌, ◌∷◌, [], ℕ, ◌-◌, length, take, slice_set, slice_index_or, None, MatchOption, OnOk, OnErr, IsTrue, ◌↔◌};
ghost use Rattle.q_check.specs.Numbers.{IsAt};

use q_logic::NoMemory;
use std::alloc::Global;
use std::marker::Model;

/// The slots of the numbers.
#[derive(Drop)]
pub struct Numbers {
    slots: Vec<Option<usize>>,
    guesses: Vec<usize>,
}

impl Model for Numbers {
    ghost use Rattle.std.specs.Prelude.{List, Option, ℕ};

    ghost Value = { List (Option ℕ) };

    ghost view = { λ r. r.slots.items };
}

impl Numbers {
    pub fn new(alloc: Global) -> Numbers
        ensures { result ≡ [] }
    {
        Numbers {
            slots: Vec::new(alloc),
            guesses: Vec::new(alloc),
        }
    }

    /// The next number.
    pub fn next(&self) -> usize
        ensures { result ≡ length self.now }
    {
        self.slots.len()
    }

    /// The slot of a number.
    pub fn slot_of(&self, number: usize) -> Option<usize>
        ensures { result ≡ slice_index_or self.now number None }
    {
        self.slots.get(number).copied().unwrap_or(None)
    }

    /// The number of a slot.
    pub fn number_of(&self, slot: usize) -> Option<usize>
        ensures { MatchOption result ((n : ℕ) → IsAt self.now n slot
            → ⊥) (λ n. IsAt self.now n slot) }
    {
        let guess = self.guesses.get(slot).copied().unwrap_or(0);
        if is_at(&self.slots, guess, slot) {
            return Some(guess);
        }
        find(&self.slots, slot)
    }

    /// Gives the next number, to a slot or to none.
    pub fn give(&mut self, slot: Option<usize>) -> Result<(), NoMemory>
        ensures ok { OnOk result (self.new ≡ self.old ++ slot ∷ []) }
        ensures err { OnErr result (self.new ≡ self.old) }
    {
        let number = self.slots.len();
        self.slots.push(slot)?;
        self.note(slot, number);
        Ok(())
    }

    /// Puts another slot under a number, or none. Takes no memory that it needs.
    pub fn put(&mut self, number: usize, slot: Option<usize>)
        requires { number < length self.old }
        ensures { self.new ≡ slice_set self.old number slot }
    {
        self.slots[number] = slot;
        self.note(slot, number);
    }

    /// Takes the last number back.
    pub fn take_back(&mut self)
        ensures { self.new ≡ take (length self.old - 1) self.old }
    {
        self.slots.pop();
    }

    // Notes where to look for the number of a slot, if there is memory.
    fn note(&mut self, slot: Option<usize>, number: usize)
        ensures { self.new ≡ self.old }
    {
        if let Some(at) = slot {
            note_at(&mut self.guesses, at, number);
        }
    }
}

fn note_at(guesses: &mut Vec<usize>, at: usize, number: usize) {
    let end = at.saturating_add(1);
    if guesses.len() < end && guesses.resize(end, 0).is_err() {
        return;
    }
    if let Some(guess) = guesses.get_mut(at) {
        *guess = number;
    }
}

fn is_at(slots: &[Option<usize>], number: usize, slot: usize) -> bool
    ensures { IsTrue result ↔ IsAt slots.now number slot }
{
    match slots.get(number) {
        Some(Some(at)) => *at == slot,
        Some(None) | None => false,
    }
}

fn find(slots: &[Option<usize>], slot: usize) -> Option<usize>
    ensures { MatchOption result ((n : ℕ) → IsAt slots.now n slot
        → ⊥) (λ n. IsAt slots.now n slot) }
{
    for number in 0..slots.len() {
        if is_at(slots, number, slot) {
            return Some(number);
        }
    }
    None
}
