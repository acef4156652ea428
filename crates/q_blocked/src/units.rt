//! The clauses of one literal. Such a clause gives hidden literals to every set, so no walk along the lists of the
//! set's literals finds it.
ghost use Rattle.std.specs.Prelude.{◌≡◌, ℕ, true, false, Some, OnOk};
ghost use Rattle.q_logic.specs.Prelude.{Clause, IsIn, slot};
ghost use Rattle.q_kernel.specs.Prelude.{slots};
ghost use Rattle.q_blocked.specs.Units.{IsSingle, HasUnits, AreRight};

use q_kernel::{ClauseId, Kernel};
use q_logic::{Lit, NoMemory};
use std::alloc::Global;

/// The ids of the clauses of one literal, from when they were looked for until they are forgotten.
#[derive(Drop)]
pub struct Units {
    pub ids: Vec<ClauseId>,
    pub known: bool,
}

impl Units {
    pub fn new(alloc: Global) -> Units
        ensures { result.known ≡ false }
    {
        Units {
            ids: Vec::new(alloc),
            known: false,
        }
    }

    /// Looks for them, unless they are known: by a pass over the formula, where the kernel counts any.
    pub fn learn(&mut self, kernel: &Kernel) -> Result<(), NoMemory>
        requires { AreRight (slots kernel.now) self.old }
        ensures right { AreRight (slots kernel.now) self.new }
        ensures all { OnOk result (HasUnits (slots kernel.now) self.new.ids.items) }
    {
        if !self.known {
            find_units(kernel, &mut self.ids)?;
            self.known = true;
        }
        Ok(())
    }

    /// Makes them right for any kernel.
    pub fn forget(&mut self)
        ensures { self.new.known ≡ false }
    {
        self.known = false;
    }
}

fn is_single(clause: &[Lit]) -> bool
    ensures { IsSingle clause.now → result ≡ true }
{
    for k in clause {
        if !k.is(clause[0]) {
            return false;
        }
    }
    true
}

fn put_unit(kernel: &Kernel, units: &mut Vec<ClauseId>, id: ClauseId) -> Result<(), NoMemory>
    requires { (C : Clause) × (slot (slots kernel.now) id ≡ Some C) }
    ensures kept { OnOk result ((d : ℕ) → IsIn d units.old.items → IsIn d units.new.items) }
    ensures there { OnOk result
        ((D : Clause) → slot (slots kernel.now) id ≡ Some D → IsSingle D
        → IsIn id units.new.items) }
{
    if is_single(kernel.lits(id)) {
        units.push(id)?;
    }
    Ok(())
}

// The ids of all clauses of one literal, and it may be of others.
fn find_units(kernel: &Kernel, units: &mut Vec<ClauseId>) -> Result<(), NoMemory>
    ensures { OnOk result (HasUnits (slots kernel.now) units.new.items) }
{
    units.clear();
    kernel.sound();
    if kernel.units() == 0 {
        return Ok(());
    }
    for id in kernel.ids() {
        put_unit(kernel, units, id)?;
    }
    Ok(())
}
