//! Bindings by variable, which take memory only where variables are scoped.
ghost use Rattle.std.specs.Prelude.{◌≡◌, ◌≤◌, ◌<◌, ℕ, [], length, None, Some, OnOk, slice_set};
ghost use Rattle.q_pages.specs.Rows.{IsMade, KeepsPages};
ghost use Rattle.q_judge.specs.declared.bindings.Binding.{Binding as AnyBinding};
ghost use Rattle.q_judge.specs.Scopes.{binding_at};

use crate::bindings::Binding;
use q_logic::NoMemory;
use q_pages::Pages;
use std::alloc::Global;
use std::marker::Model;

/// The binding of each variable that has one.
#[derive(Drop)]
pub struct BindingRow {
    row: Pages<Option<Binding>>,
}

impl Model for BindingRow {
    ghost use Rattle.std.specs.Prelude.{◌≡◌, Option, None};
    ghost use Rattle.q_pages.specs.Rows.{Row};
    ghost use Rattle.q_judge.specs.declared.bindings.Binding.{Binding as OneBinding};

    ghost Value = { Row (Option OneBinding) };

    ghost view = { λ s. s.row };

    ghost invariant = { λ s. s.row.none ≡ None };
}

impl BindingRow {
    pub fn new(alloc: Global) -> BindingRow
        ensures { result.items ≡ [] }
    {
        BindingRow {
            row: Pages::new(alloc, None),
        }
    }

    pub fn len(&self) -> usize
        ensures value { result ≡ length self.now.items }
        ensures few { result ≤ 4294967296 }
    {
        self.row.len()
    }

    pub fn get(&self, var: usize) -> Option<Binding>
        ensures { result ≡ binding_at self.now.items var }
    {
        self.row.get(var)
    }

    /// Gives a variable another binding, or none, where there is room for one.
    pub fn put(&mut self, var: u32, binding: Option<Binding>)
        requires { IsMade self.old var }
        ensures items { self.new.items ≡ slice_set self.old.items var binding }
        ensures kept { KeepsPages self.old self.new }
    {
        self.row.set(var as usize, binding);
    }

    /// The same for a variable that has a binding.
    pub fn replace(&mut self, var: u32, binding: Option<Binding>)
        requires { (s : AnyBinding) × (binding_at self.old.items var ≡ Some s) }
        ensures items { self.new.items ≡ slice_set self.old.items var binding }
        ensures kept { KeepsPages self.old self.new }
        ensures there { var < length self.old.items }
    {
        self.row.blank();
        self.row.set(var as usize, binding);
    }

    /// Makes room for the binding of a variable.
    pub fn make_room(&mut self, var: u32) -> Result<(), NoMemory>
        ensures same { (v : ℕ) → binding_at self.new.items v ≡ binding_at self.old.items v }
        ensures kept { KeepsPages self.old self.new }
        ensures room { OnOk result (IsMade self.new var) }
    {
        self.row.grow(var as usize + 1)?;
        self.row.make(var as usize)
    }
}
