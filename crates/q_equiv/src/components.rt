//! The components of the implications between literals: the literals of one component are joined each to the other. They
//! are found by Tarjan's search (SIAM Journal on Computing 1972), without recursion. Nothing is proved of them here: the
//! levels that they give are verified in one pass (`levels.rt`).
use crate::level_row::Levels;
use crate::numbers::Numbers;
use q_logic::{Lit, NoMemory};
use std::alloc::Global;

// An implication, and the number of the next one from the same literal.
#[derive(Clone, Copy)]
struct Edge {
    to: usize,
    next: usize,
}

/// Implications, and rows for the search. Literals go by the numbers that they get when they are met first; numbers begin at 1,
/// and 0 is none.
#[derive(Drop)]
pub struct Components {
    numbers: Numbers,
    edges: Vec<Edge>,
    // the implication of each literal that is looked at next
    first: Vec<usize>,
    // the order in which the search met the literals, and the least that is reached from each
    order: Vec<u32>,
    least: Vec<u32>,
    // the component of each literal, once it has one
    closed_in: Vec<u32>,
    // the literals that the search is in, and those that are in no component yet
    path: Vec<usize>,
    open: Vec<usize>,
    // the literals of the components, one component after the other, and where each ends
    parts: Vec<Lit>,
    ends: Vec<usize>,
    met: u32,
    closed: u32,
}

impl Components {
    pub(crate) fn new(alloc: Global) -> Components {
        Components {
            numbers: Numbers::new(alloc),
            edges: Vec::new(alloc),
            first: Vec::new(alloc),
            order: Vec::new(alloc),
            least: Vec::new(alloc),
            closed_in: Vec::new(alloc),
            path: Vec::new(alloc),
            open: Vec::new(alloc),
            parts: Vec::new(alloc),
            ends: Vec::new(alloc),
            met: 0,
            closed: 0,
        }
    }

    /// Begins anew, with no implication.
    pub(crate) fn begin(&mut self) {
        self.numbers.clear();
        self.edges.clear();
        self.path.clear();
        self.open.clear();
        self.parts.clear();
        self.ends.clear();
        self.first.clear();
        self.met = 0;
        self.closed = 0;
    }

    /// Notes the two implications of a clause of two literals.
    pub(crate) fn note(&mut self, a: Lit, b: Lit) -> Result<(), NoMemory> {
        self.add_edge(a.negated().index(), b.index())?;
        self.add_edge(b.negated().index(), a.index())
    }

    fn add_edge(&mut self, from: usize, to: usize) -> Result<(), NoMemory> {
        let from = self.numbers.number(from)?;
        let to = self.numbers.number(to)?;
        grow(&mut self.first, from.max(to))?;
        let next = entry(&self.first, from);
        self.edges.push(Edge { to, next })?;
        put(&mut self.first, from, self.edges.len());
        Ok(())
    }

    /// Finds the components.
    pub(crate) fn find(&mut self) -> Result<(), NoMemory> {
        let count = self.numbers.count().saturating_add(1);
        self.order.clear();
        self.order.resize(count, 0)?;
        self.least.clear();
        self.least.resize(count, 0)?;
        self.closed_in.clear();
        self.closed_in.resize(count, 0)?;
        for page in 0..self.numbers.pages() {
            self.search_page(page)?;
        }
        Ok(())
    }

    // Searches from the literals of a page, in their order.
    fn search_page(&mut self, page: usize) -> Result<(), NoMemory> {
        for at in 0..self.numbers.page(page).len() {
            let root = mark(self.numbers.page(page), at) as usize;
            if entry(&self.first, root) != 0 && mark(&self.order, root) == 0 {
                self.search_from(root)?;
            }
        }
        Ok(())
    }

    /// Gives each literal the number of its component in a row with no levels: no implication leads to a greater number. A literal
    /// that is in no component has 0.
    pub(crate) fn tell(&self, levels: &mut Levels) -> Result<(), NoMemory> {
        levels.grow(self.numbers.end().max(1))?;
        for number in 1..self.closed_in.len() {
            levels.put(self.numbers.place(number), mark(&self.closed_in, number));
        }
        Ok(())
    }

    fn search_from(&mut self, root: usize) -> Result<(), NoMemory> {
        self.enter(root)?;
        for _ in 0..usize::MAX {
            let Some(at) = self.path.last().copied() else {
                break;
            };
            match self.next_from(at) {
                Some(to) => self.go_on(at, to)?,
                None => self.leave(at)?,
            }
        }
        Ok(())
    }

    fn enter(&mut self, at: usize) -> Result<(), NoMemory> {
        self.met = self.met.saturating_add(1);
        put_mark(&mut self.order, at, self.met);
        put_mark(&mut self.least, at, self.met);
        self.open.push(at)?;
        self.path.push(at)?;
        Ok(())
    }

    // The next literal to which an implication leads.
    fn next_from(&mut self, at: usize) -> Option<usize> {
        let number = entry(&self.first, at);
        let edge = self.edges.get(number.saturating_sub(1)).copied()?;
        if number == 0 {
            return None;
        }
        put(&mut self.first, at, edge.next);
        Some(edge.to)
    }

    fn go_on(&mut self, at: usize, to: usize) -> Result<(), NoMemory> {
        let order = mark(&self.order, to);
        if order == 0 {
            return self.enter(to);
        }
        if mark(&self.closed_in, to) == 0 {
            let least = mark(&self.least, at).min(order);
            put_mark(&mut self.least, at, least);
        }
        Ok(())
    }

    // All implications of a literal were followed.
    fn leave(&mut self, at: usize) -> Result<(), NoMemory> {
        let _ = self.path.pop();
        let least = mark(&self.least, at);
        if let Some(before) = self.path.last().copied() {
            let lower = mark(&self.least, before).min(least);
            put_mark(&mut self.least, before, lower);
        }
        if least == mark(&self.order, at) {
            self.close(at)?;
        }
        Ok(())
    }

    // The open literals down to this one are a component.
    fn close(&mut self, at: usize) -> Result<(), NoMemory> {
        self.closed = self.closed.saturating_add(1);
        while let Some(number) = self.open.pop() {
            put_mark(&mut self.closed_in, number, self.closed);
            if let Some(lit) = lit_at(self.numbers.place(number)) {
                self.parts.push(lit)?;
            }
            if number == at {
                break;
            }
        }
        self.ends.push(self.parts.len())?;
        Ok(())
    }

    /// How many components there are.
    pub(crate) fn count(&self) -> usize {
        self.ends.len()
    }

    /// The literals of a component, in the order in which the search left them.
    pub(crate) fn part(&self, number: usize) -> &[Lit] {
        let end = entry(&self.ends, number);
        let start = if number == 0 {
            0
        } else {
            entry(&self.ends, number - 1)
        };
        if start <= end && end <= self.parts.len() {
            &self.parts[start..end]
        } else {
            &[]
        }
    }
}

// The literal of a place in a row.
fn lit_at(place: usize) -> Option<Lit> {
    let var = u32::try_from(place / 2).ok()?;
    if var == 0 || var >= 0x8000_0000 {
        return None;
    }
    Some(Lit::new(var, place % 2 == 0))
}

fn entry(row: &[usize], at: usize) -> usize {
    row.get(at).copied().unwrap_or(0)
}

// Room for a place.
fn grow(row: &mut Vec<usize>, at: usize) -> Result<(), NoMemory> {
    if row.len() <= at {
        row.resize(at.saturating_add(1), 0)?;
    }
    Ok(())
}

fn put(row: &mut [usize], at: usize, value: usize) {
    if at < row.len() {
        row[at] = value;
    }
}

fn mark(row: &[u32], at: usize) -> u32 {
    row.get(at).copied().unwrap_or(0)
}

fn put_mark(row: &mut [u32], at: usize, value: u32) {
    if at < row.len() {
        row[at] = value;
    }
}
