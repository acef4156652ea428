//! A literal, or a place, for each variable that has one.
ghost use Rattle.std.specs.Prelude.{◌≡◌, ◌==◌, ◌≤◌, if◌then◌else◌, ℕ, [], length, OnOk};
ghost use Rattle.q_certificate.specs.Standing.{look_at};

use q_logic::NoMemory;
use q_pages::Pages;
use std::alloc::Global;
use std::marker::Model;

/// Numbers by variable. Memory is taken by the page, where something was put.
#[derive(Drop)]
pub struct Table {
    cells: Pages<Option<u64>>,
}

impl Model for Table {
    ghost use Rattle.std.specs.Prelude.{◌≡◌, None};
    ghost use Rattle.q_certificate.specs.Cells.{Cells};

    ghost Value = { Cells };

    ghost view = { λ t. record { items = t.cells.items } };

    ghost invariant = { λ t. t.cells.none ≡ None };
}

impl Table {
    pub fn new(alloc: Global) -> Table
        ensures { result.items ≡ [] }
    {
        Table {
            cells: Pages::new(alloc, None),
        }
    }

    /// A number past all variables for which something was put.
    pub fn len(&self) -> usize
        ensures value { result ≡ length self.now.items }
        ensures few { result ≤ 4294967296 }
    {
        self.cells.len()
    }

    /// What stands at a number, also past the end.
    pub fn get(&self, at: usize) -> Option<u64>
        ensures { result ≡ look_at self.now.items at }
    {
        self.cells.get(at)
    }
}

pub fn look(row: &Table, var: u32) -> Option<u64>
    ensures { result ≡ look_at row.now.items var }
{
    row.get(var as usize)
}

pub fn put(row: &mut Table, var: u32, value: Option<u64>) -> Result<(), NoMemory>
    ensures ok { OnOk result ((x : ℕ) → look_at row.new.items x ≡ (if x == var then value
        else look_at row.old.items x)) }
{
    let at = var as usize;
    row.cells.grow(at + 1)?;
    row.cells.make(at)?;
    row.cells.set(at, value);
    Ok(())
}
