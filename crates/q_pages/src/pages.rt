// A table by number that takes memory only where something was written, in pages. A formula of two clauses may name the variable
// 16,777,215; a table in its size would take hundreds of megabytes.
ghost use Rattle.std.specs.Prelude.{◌≡◌, ◌⊎◌, ◌≤◌, ◌<◌, ℕ, [], length, slice_index_or, slice_set, OnOk};
ghost use Rattle.q_pages.specs.Rows.{item_at, IsMade, KeepsPages, HasSameItems};

use crate::table::{PAGE, extend};
use q_logic::NoMemory;
use std::alloc::Global;
use std::marker::Model;

// So many pages a row may have: as many as numbers of 32 bits need.
const MOST: usize = 4_194_304;

/// A row of values by number, of which most may be the same. Memory is taken by the page, where something is written.
///
/// A look is hot. The page of each number is in a row of its own, and page 0 stands for all that were never written, so
/// that a look loads twice and tests nothing but the length.
#[derive(Drop)]
pub struct Pages<T> {
    none: T,
    pages: Vec<u32>,
    items: Vec<T>,
}

impl<T> Model for Pages<T> {
    ghost use Rattle.q_pages.specs.Rows.{Row, row_code};

    ghost Value = { Row T };

    ghost coded = { row_code T.code };

    ghost use Rattle.q_pages.specs.Layout.{row_of, IsSound};

    ghost view = { λ p. row_of p.none p.pages.items p.items.items };

    ghost invariant = { λ p. IsSound p.none p.pages.items p.items.items };
}

impl<T: Copy> Pages<T> {
    /// A row of no number, with what stands where nothing is written.
    pub fn new(alloc: Global, none: T) -> Pages<T>
        ensures none { result.none ≡ none }
        ensures items { result.items ≡ [] }
    {
        Pages {
            none,
            pages: Vec::new(alloc),
            items: Vec::new(alloc),
        }
    }

    pub fn len(&self) -> usize
        ensures value { result ≡ length self.now.items }
        ensures few { result ≤ 4294967296 }
    {
        self.pages.len() * PAGE
    }

    /// The value at a number, also past the end.
    pub fn get(&self, at: usize) -> T
        ensures { result ≡ item_at self.now at }
    {
        if at / PAGE < self.pages.len() {
            self.items[self.pages[at / PAGE] as usize * PAGE + at % PAGE]
        } else {
            self.none
        }
    }

    /// What holds of a row at all times, for callers' proofs: a number without memory has what stands where nothing was
    /// written.
    pub fn blank(&self)
        ensures { (i : ℕ) → IsMade self.now i ⊎ (item_at self.now i ≡ self.now.none) }
    {
        let _ = &self.items;
    }

    /// Puts a value at a number whose page has memory.
    pub fn set(&mut self, at: usize, value: T)
        requires { IsMade self.old at }
        ensures items { self.new.items ≡ slice_set self.old.items at value }
        ensures made { self.new.made ≡ self.old.made }
        ensures none { self.new.none ≡ self.old.none }
    {
        let place = self.pages[at / PAGE] as usize * PAGE + at % PAGE;
        self.items[place] = value;
    }

    /// Takes in the numbers below an end. They take memory where they are made.
    pub fn grow(&mut self, len: usize) -> Result<(), NoMemory>
        ensures len { OnOk result (len ≤ length self.new.items) }
        ensures kept { KeepsPages self.old self.new }
        ensures items { HasSameItems self.old self.new }
    {
        let pages = len / PAGE + 1;
        if pages > MOST {
            return Err(NoMemory);
        }
        fill(&mut self.items, self.none, PAGE)?;
        extend(&mut self.pages, pages)
    }

    /// Gives the page of a number memory.
    pub fn make(&mut self, at: usize) -> Result<(), NoMemory>
        requires { at < length self.old.items }
        ensures made { OnOk result (IsMade self.new at) }
        ensures kept { KeepsPages self.old self.new }
        ensures items { self.new.items ≡ self.old.items }
    {
        if self.pages[at / PAGE] != 0 {
            return Ok(());
        }
        let page = self.items.len() / PAGE;
        if page > MOST {
            return Err(NoMemory);
        }
        fill(&mut self.items, self.none, (page + 1) * PAGE)?;
        self.pages[at / PAGE] = page as u32;
        Ok(())
    }
}

// Appends a value up to a length.
fn fill<T: Copy>(items: &mut Vec<T>, none: T, end: usize) -> Result<(), NoMemory>
    ensures end { OnOk result (end ≤ length items.new.items) }
    ensures kept { length items.old.items ≤ length items.new.items }
    ensures same { (i : ℕ) → slice_index_or items.new.items i none
        ≡ slice_index_or items.old.items i none }
{
    if items.len() < end {
        items.resize(end, none)?;
    }
    Ok(())
}
