// The place of each variable in a prefix, looked up by its number.
ghost use Rattle.std.specs.Prelude.{◌≡◌, ◌==◌, if◌then◌else◌, ℕ, IfOk, OnOk};
ghost use Rattle.q_pages.specs.Rows.{item_at};
ghost use Rattle.q_search.specs.PlaceTables.{place_in, ArePlaces};

use q_logic::{Bound, NoMemory};
use q_pages::Pages;
use std::alloc::Global;
use std::marker::Model;

/// The place of each variable in a prefix. It takes memory by the page, where variables of the prefix are.
#[derive(Drop)]
pub struct PlaceTable {
    places: Pages<usize>,
}

impl Model for PlaceTable {
    ghost use Rattle.q_search.specs.PlaceTables.{PlaceRow};

    ghost Value = { PlaceRow };

    ghost view = { λ s. record { row = s.places.items; end = s.places.none } };
}

impl PlaceTable {
    pub fn of(alloc: Global, prefix: &[Bound]) -> Result<PlaceTable, NoMemory>
        ensures { IfOk result (λ places. ArePlaces prefix.now places) }
    {
        let mut places = Pages::new(alloc, prefix.len());
        for place in (0..prefix.len()).rev() {
            put(&mut places, prefix[place].var, place)?;
        }
        Ok(PlaceTable { places })
    }

    /// The length of the prefix for a variable that is not in it.
    pub fn place(&self, var: u32) -> usize
        ensures { result ≡ place_in self.now var }
    {
        self.places.get(var as usize)
    }
}

// Writes what is told of a variable; those between are told what they were.
fn put(places: &mut Pages<usize>, var: u32, place: usize) -> Result<(), NoMemory>
    ensures none { places.new.none ≡ places.old.none }
    ensures places { OnOk result ((v : ℕ) → item_at places.new v ≡ (if v == var then place
        else item_at places.old v)) }
{
    let at = var as usize;
    places.grow(at + 1)?;
    places.make(at)?;
    places.set(at, place);
    Ok(())
}
