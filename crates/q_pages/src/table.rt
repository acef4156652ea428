//! Which page each number has, for rows that are not of one copied type.
ghost use Rattle.std.specs.Prelude.{◌≡◌, ◌⊎◌, ◌<◌, ◌≤◌, ℕ, [], length, slice_index_or, OnOk, IfSome};
ghost use Rattle.q_pages.specs.Tables.{place_in, page_of, IsGiven};

use q_logic::NoMemory;
use std::alloc::Global;
use std::marker::Model;

/// So many numbers share a page.
pub(crate) const PAGE: usize = 1_024;

/// The page of each number: 0 where it has none of its own. A caller keeps a row in which number `i` has the place
/// `place(i)`, and writes no place of page 0.
#[derive(Drop)]
pub struct PageTable {
    pages: Vec<u32>,
    // the greatest page
    last: u32,
}

impl Model for PageTable {
    ghost use Rattle.std.specs.Prelude.{List, ℕ};
    ghost use Rattle.q_pages.specs.Tables.{IsTable};

    ghost Value = { List ℕ };

    ghost view = { λ t. t.pages.items };

    ghost invariant = { λ t. IsTable t.pages.items t.last };
}

impl PageTable {
    pub fn new(alloc: Global) -> PageTable
        ensures { result ≡ [] }
    {
        PageTable {
            pages: Vec::new(alloc),
            last: 0,
        }
    }

    /// The place of a number.
    pub fn place(&self, at: usize) -> usize
        ensures { result ≡ place_in self.now at }
    {
        let page = at / PAGE;
        if page < self.pages.len() {
            self.pages[page] as usize * PAGE + at % PAGE
        } else {
            at % PAGE
        }
    }

    /// The place of a number whose page is not 0. It looks once.
    #[inline(always)]
    pub fn made_place(&self, at: usize) -> Option<usize>
        ensures { IfSome result (λ p. (p ≡ place_in self.now at) × (0 < page_of self.now at)) }
    {
        let page = at / PAGE;
        if page < self.pages.len() && self.pages[page] != 0 {
            return Some(self.pages[page] as usize * PAGE + at % PAGE);
        }
        None
    }

    /// No two numbers have the same place, unless it is of page 0.
    pub fn distinct(&self)
        ensures { (i j : ℕ) → 0 < page_of self.now i → place_in self.now i ≡ place_in self.now j
            → i ≡ j }
    {
        let _ = &self.pages;
    }

    /// Gives the page of a number, which no other number has.
    pub fn make(&mut self, at: usize) -> Result<(), NoMemory>
        ensures made { OnOk result (0 < page_of self.new at) }
        ensures given { IsGiven self.old self.new }
    {
        let page = at / PAGE;
        if page < self.pages.len() && self.pages[page] != 0 {
            return Ok(());
        }
        if self.last == u32::MAX {
            return Err(NoMemory);
        }
        extend(&mut self.pages, page + 1)?;
        self.last += 1;
        self.pages[page] = self.last;
        Ok(())
    }
}

/// Takes in pages up to a number, without memory.
pub(crate) fn extend(pages: &mut Vec<u32>, end: usize) -> Result<(), NoMemory>
    ensures end { OnOk result (end ≤ length pages.new.items) }
    ensures kept { length pages.old.items ≤ length pages.new.items }
    ensures few { (length pages.new.items ≡ length pages.old.items)
        ⊎ (length pages.new.items ≡ end) }
    ensures same { (k : ℕ) → slice_index_or pages.new.items k 0
        ≡ slice_index_or pages.old.items k 0 }
{
    if pages.len() < end {
        pages.resize(end, 0)?;
    }
    Ok(())
}
