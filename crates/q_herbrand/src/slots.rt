//! Slots, by their numbers. The first ones have the numbers of the places of their variables, so memory is in proportion to the
//! inputs, however great their variables are.
ghost use Rattle.std.specs.Prelude.{◌≡◌, ◌<◌, length, slice_set, IfOk, MatchOption, Some, None};
ghost use Rattle.q_aig.specs.Prelude.{AreDistinct};
ghost use Rattle.q_certificate.specs.Prelude.{look_at};
ghost use Rattle.q_herbrand.specs.Slots.{AreSlots, IsBegun, IsRenewed};

use q_aig::Aig;
use q_certificate::{Table, look, put};
use q_logic::NoMemory;
use std::alloc::Global;

/// Which slot stands for each variable, and what the others were filled with.
#[derive(Drop)]
pub struct Slots {
    /// The slot that stands for a variable now.
    pub current: Table,
    /// The variable of a slot.
    pub owners: Vec<usize>,
    /// What a slot was filled with.
    pub definitions: Vec<Option<u64>>,
}

/// A slot for each of these variables.
pub fn begin(alloc: Global, names: &[u32]) -> Result<Slots, NoMemory>
    requires { AreDistinct names.now }
    ensures { IfOk result (IsBegun names.now) }
{
    let mut slots = Slots {
        current: Table::new(alloc),
        owners: Vec::new(alloc),
        definitions: Vec::new(alloc),
    };
    for place in 0..names.len() {
        put(&mut slots.current, names[place], Some(place as u64))?;
        slots.owners.push(names[place] as usize)?;
        slots.definitions.push(None)?;
    }
    Ok(slots)
}

/// The slot that stands for a variable, if it has one.
pub fn slot_of(slots: &Slots, var: u32) -> Option<usize>
    ensures { MatchOption result (look_at slots.now.current.items var ≡ None)
        (λ s. look_at slots.now.current.items var ≡ Some s) }
{
    let slot = look(&slots.current, var)?;
    Some(slot as usize)
}

/// A new slot for a variable. The one before is still to be filled.
pub fn renew(
    aig: &mut Aig,
    circuits: &mut Table,
    slots: &mut Slots,
    var: u32,
) -> Result<u64, NoMemory>
    requires { AreSlots aig.old slots.old }
    ensures { IfOk result (IsRenewed aig.old aig.new circuits.old.items circuits.new.items slots.old
        slots.new var) }
{
    let slot = slots.definitions.len();
    let Ok(name) = u32::try_from(slot) else {
        return Err(NoMemory);
    };
    put(&mut slots.current, var, Some(slot as u64))?;
    slots.owners.push(var as usize)?;
    slots.definitions.push(None)?;
    let lit = aig.input(name)?;
    put(circuits, var, Some(lit))?;
    Ok(lit)
}

/// Fills a slot.
pub fn fill(slots: &mut Slots, slot: usize, lit: u64)
    requires { slot < length slots.old.definitions.items }
    ensures current { slots.new.current ≡ slots.old.current }
    ensures owners { slots.new.owners ≡ slots.old.owners }
    ensures definitions { slots.new.definitions.items ≡ slice_set slots.old.definitions.items slot
        (Some lit) }
{
    slots.definitions[slot] = Some(lit);
}
