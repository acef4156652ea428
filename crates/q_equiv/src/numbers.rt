//! Numbers for the literals that occur in clauses of two literals, in the order in which they are met.
use q_logic::NoMemory;
use std::alloc::Global;

// So many literals share a page.
const PAGE: usize = 1_024;

/// The number of each literal, from 1 on; 0 is none. A page is made where a literal of it has a number, so that other literals
/// take no memory.
#[derive(Drop)]
pub struct Numbers {
    alloc: Global,
    pages: Vec<Vec<u32>>,
    // the literals by their numbers
    places: Vec<usize>,
}

impl Numbers {
    pub(crate) fn new(alloc: Global) -> Numbers {
        Numbers {
            alloc,
            pages: Vec::new(alloc),
            places: Vec::new(alloc),
        }
    }

    pub(crate) fn clear(&mut self) {
        self.pages.clear();
        self.places.clear();
    }

    /// How many literals have a number.
    pub(crate) fn count(&self) -> usize {
        self.places.len()
    }

    /// The end of the places of all pages.
    pub(crate) fn end(&self) -> usize {
        self.pages.len().saturating_mul(PAGE)
    }

    /// How many pages there are.
    pub(crate) fn pages(&self) -> usize {
        self.pages.len()
    }

    /// The numbers of a page, in the order of its literals.
    pub(crate) fn page(&self, at: usize) -> &[u32] {
        match self.pages.get(at) {
            Some(page) => page.as_slice(),
            None => &[],
        }
    }

    /// The literal with a number, by its place in a row.
    pub(crate) fn place(&self, number: usize) -> usize {
        self.places
            .get(number.saturating_sub(1))
            .copied()
            .unwrap_or(0)
    }

    /// The number of a literal, which gets the next one if it has none.
    pub(crate) fn number(&mut self, place: usize) -> Result<usize, NoMemory> {
        let at = place / PAGE;
        for _ in self.pages.len()..at + 1 {
            self.pages.push(Vec::new(self.alloc))?;
        }
        match self.pages.get_mut(at) {
            Some(page) => number_in(page, place, &mut self.places),
            None => Ok(0),
        }
    }
}

// The same in a page, which is made if it was not yet.
fn number_in(
    page: &mut Vec<u32>,
    place: usize,
    places: &mut Vec<usize>,
) -> Result<usize, NoMemory> {
    if page.is_empty() {
        page.resize(PAGE, 0)?;
    }
    let found = page.get(place % PAGE).copied().unwrap_or(0);
    if found != 0 {
        return Ok(found as usize);
    }
    places.push(place)?;
    let number = places.len();
    if place % PAGE < page.len() {
        page[place % PAGE] = u32::try_from(number).unwrap_or(u32::MAX);
    }
    Ok(number)
}
