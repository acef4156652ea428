//! Clauses that are covered in one kernel.
//!
//! What a search learns of a kernel is lost where the kernel changes, and each covered clause that goes changes it. So many clauses
//! are tested at one kernel, and those that are covered are kept with the steps of their growths; then they go one by one. By its
//! steps a clause is tested again at a fraction of the cost. Some are no longer covered then: the clauses that covered
//! them are gone.
//!
//! The first span has one clause, and each later one may have twice as many as the one before, so that a formula of few covered clauses
//! is not searched for all of them where the first one changes much.
use q_blocked::Step;
use q_kernel::ClauseId;
use q_logic::NoMemory;
use std::alloc::Global;

// At most so many clauses, and so many steps, are kept at once.
const MANY: usize = 4_096;

const STEPS: usize = 1_000_000;

#[derive(Drop)]
pub(crate) struct Span {
    // the clauses, and where the steps of each end
    clauses: Vec<(ClauseId, usize)>,
    steps: Vec<Step>,
    // how many clauses were handed out
    handed: usize,
    // where the steps of the last one that was handed out begin and end
    from: usize,
    to: usize,
    // so many clauses are kept at once
    most: usize,
}

impl Span {
    /// No clauses. It takes no memory.
    pub(crate) fn new(alloc: Global) -> Span {
        Span {
            clauses: Vec::new(alloc),
            steps: Vec::new(alloc),
            handed: 0,
            from: 0,
            to: 0,
            most: 1,
        }
    }

    /// A new span begins.
    pub(crate) fn begin(&mut self) {
        if !self.clauses.is_empty() && self.most < MANY {
            self.most *= 2;
        }
        self.clauses.clear();
        self.steps.clear();
        self.handed = 0;
        self.from = 0;
        self.to = 0;
    }

    /// Whether no more is to be kept.
    pub(crate) fn is_full(&self) -> bool {
        self.clauses.len() >= self.most || self.steps.len() >= STEPS
    }

    /// Keeps a clause with its steps.
    pub(crate) fn put(&mut self, c: ClauseId, steps: &[Step]) -> Result<(), NoMemory> {
        self.steps.extend_from_slice(steps)?;
        self.clauses.push((c, self.steps.len()))?;
        Ok(())
    }

    /// How many clauses were not handed out.
    pub(crate) fn left(&self) -> usize {
        self.clauses.len().saturating_sub(self.handed)
    }

    /// The next clause, in the order in which they came.
    pub(crate) fn hand_out(&mut self) -> Option<ClauseId> {
        let (c, end) = *self.clauses.get(self.handed)?;
        self.handed = self.handed.saturating_add(1);
        self.from = self.to;
        self.to = end;
        Some(c)
    }

    /// The steps of the clause that was handed out last.
    pub(crate) fn steps(&self) -> &[Step] {
        if self.from > self.to || self.to > self.steps.len() {
            return &[];
        }
        &self.steps[self.from..self.to]
    }
}
