//! The components of the gates: those of one component depend each on the other. They are found by Tarjan's search (SIAM
//! Journal on Computing 1972), without recursion. Nothing is proved of them here: the levels that they give are verified
//! in one pass (`levels.rt`).
use crate::gate::Gate;
use crate::parts::parts_at;
use q_logic::NoMemory;
use std::alloc::Global;

// Rows for the search, by gates. Numbers begin at 1, and 0 is none.
#[derive(Drop)]
struct Search {
    // how many operands of each gate were followed
    turns: Vec<u8>,
    // the order in which the search met the gates, and the least that is reached from each
    order: Vec<u32>,
    least: Vec<u32>,
    // the numbers of the components
    levels: Vec<u32>,
    // the gates that the search is in, and those that are in no component yet
    path: Vec<usize>,
    open: Vec<usize>,
    met: u32,
    closed: u32,
}

/// Gives each gate the number of its component: no gate uses one of a greater number.
pub(crate) fn number(alloc: Global, gates: &[Gate]) -> Result<Vec<u32>, NoMemory> {
    let mut search = begin(alloc, gates.len())?;
    for root in 0..gates.len() {
        if mark(&search.order, root) == 0 {
            search.search_from(gates, root)?;
        }
    }
    Ok(search.levels)
}

fn begin(alloc: Global, count: usize) -> Result<Search, NoMemory> {
    let mut search = Search {
        turns: Vec::new(alloc),
        order: Vec::new(alloc),
        least: Vec::new(alloc),
        levels: Vec::new(alloc),
        path: Vec::new(alloc),
        open: Vec::new(alloc),
        met: 0,
        closed: 0,
    };
    search.turns.resize(count, 0)?;
    search.order.resize(count, 0)?;
    search.least.resize(count, 0)?;
    search.levels.resize(count, 0)?;
    Ok(search)
}

impl Search {
    fn search_from(&mut self, gates: &[Gate], root: usize) -> Result<(), NoMemory> {
        self.enter(root)?;
        for _ in 0..usize::MAX {
            let Some(at) = self.path.last().copied() else {
                break;
            };
            self.turn(gates, at)?;
        }
        Ok(())
    }

    fn enter(&mut self, at: usize) -> Result<(), NoMemory> {
        self.met = self.met.saturating_add(1);
        put_mark(&mut self.order, at, self.met);
        put_mark(&mut self.least, at, self.met);
        self.open.push(at)?;
        self.path.push(at)?;
        Ok(())
    }

    // Follows the next operand of a gate, or leaves the gate.
    fn turn(&mut self, gates: &[Gate], at: usize) -> Result<(), NoMemory> {
        if at >= gates.len() || at >= self.turns.len() {
            let _ = self.path.pop();
            return Ok(());
        }
        let (left, right) = parts_at(gates, at);
        let turn = self.turns[at];
        self.turns[at] = turn.saturating_add(1);
        match turn {
            0 => self.go_on(at, left),
            1 => self.go_on(at, right),
            _ => {
                self.leave(at);
                Ok(())
            }
        }
    }

    fn go_on(&mut self, at: usize, to: Option<usize>) -> Result<(), NoMemory> {
        let Some(to) = to else {
            return Ok(());
        };
        let order = mark(&self.order, to);
        if order == 0 {
            return self.enter(to);
        }
        if mark(&self.levels, to) == 0 {
            let least = mark(&self.least, at).min(order);
            put_mark(&mut self.least, at, least);
        }
        Ok(())
    }

    // All operands of a gate were followed.
    fn leave(&mut self, at: usize) {
        let _ = self.path.pop();
        let least = mark(&self.least, at);
        if let Some(before) = self.path.last().copied() {
            let lower = mark(&self.least, before).min(least);
            put_mark(&mut self.least, before, lower);
        }
        if least == mark(&self.order, at) {
            self.close(at);
        }
    }

    // The open gates down to this one are a component.
    fn close(&mut self, at: usize) {
        self.closed = self.closed.saturating_add(1);
        while let Some(gate) = self.open.pop() {
            put_mark(&mut self.levels, gate, self.closed);
            if gate == at {
                break;
            }
        }
    }
}

fn mark(row: &[u32], at: usize) -> u32 {
    row.get(at).copied().unwrap_or(0)
}

fn put_mark(row: &mut [u32], at: usize, value: u32) {
    if at < row.len() {
        row[at] = value;
    }
}
