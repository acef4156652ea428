//! Universal reduction over all places, in one batch.
//!
//! What a search learns of a formula holds for the kernel that it was lent, and a guide can't carry it from call to call. So
//! one call gathers all cuts, and the next ones hand them out. A cut takes away a literal and nothing else, so those that were
//! found with it go on to apply.
ghost use Rattle.q_kernel.specs.Prelude.{IsReady};
ghost use Rattle.q_reduce.specs.Learned.{IsFitFor};

use crate::lists::lits_of;
use crate::watch::{Pass, Watch};
use q_kernel::{ClauseId, Kernel};
use q_logic::{Bounds, Lit, NoMemory, holds};
use q_reduce::{Search, Target};
use q_rule::{Rules, is_universal};
use std::alloc::Global;

#[derive(Drop)]
pub(crate) struct Cutting {
    // clauses and the literals that may leave them, the first one last
    batch: Vec<(ClauseId, Lit)>,
    search: Search,
}

impl Cutting {
    /// It takes no memory.
    pub(crate) fn new(alloc: Global) -> Cutting {
        Cutting {
            batch: Vec::new(alloc),
            search: Search::new(alloc),
        }
    }

    /// Gathers all cuts that apply, or those before the place where so many more literals stay than may go.
    pub(crate) fn collect<W: Watch>(
        &mut self,
        kernel: &Kernel,
        bounds: &Bounds,
        patience: usize,
        watch: &W,
    ) -> Result<(), NoMemory>
        requires ready { IsReady kernel.now }
    {
        self.batch.clear();
        self.search.forget();
        collect_all(
            kernel,
            bounds,
            &mut self.search,
            &mut self.batch,
            patience,
            watch,
        )?;
        self.batch.reverse();
        Ok(())
    }

    /// The next one that still stands.
    pub(crate) fn hand_out(&mut self, kernel: &Kernel) -> Option<Target> {
        for _ in 0..self.batch.len() {
            let (c, l) = self.batch.pop()?;
            if holds(lits_of(kernel, c), l) {
                return Some(Target::Cut { c, l });
            }
        }
        None
    }
}

fn collect_all<W: Watch>(
    kernel: &Kernel,
    bounds: &Bounds,
    search: &mut Search,
    batch: &mut Vec<(ClauseId, Lit)>,
    patience: usize,
    watch: &W,
) -> Result<(), NoMemory>
    requires ready { IsReady kernel.now }
    requires fit { IsFitFor kernel.now search.old }
{
    let mut stay = 0usize;
    for c in kernel.ids() {
        if !watch.look(Pass::Cut, kernel) {
            return Ok(());
        }
        stay = stay.saturating_add(collect_from(kernel, bounds, search, batch, c)?);
        if stay > patience.saturating_add(batch.len()) {
            return Ok(());
        }
    }
    Ok(())
}

// Gathers the cuts of a clause; how many of its universal literals stay.
fn collect_from(
    kernel: &Kernel,
    bounds: &Bounds,
    search: &mut Search,
    batch: &mut Vec<(ClauseId, Lit)>,
    c: ClauseId,
) -> Result<usize, NoMemory>
    requires ready { IsReady kernel.now }
    requires fit { IsFitFor kernel.now search.old }
    ensures fit { IsFitFor kernel.now search.new }
{
    let mut stay = 0usize;
    for l in lits_of(kernel, c) {
        match may_leave(kernel, bounds, search, c, *l)? {
            Some(true) => batch.push((c, *l))?,
            Some(false) => stay = stay.saturating_add(1),
            None => {}
        }
    }
    Ok(stay)
}

// Whether a universal literal may leave its clause; None of an existential one.
fn may_leave(
    kernel: &Kernel,
    bounds: &Bounds,
    search: &mut Search,
    c: ClauseId,
    l: Lit,
) -> Result<Option<bool>, NoMemory>
    requires ready { IsReady kernel.now }
    requires fit { IsFitFor kernel.now search.old }
    ensures fit { IsFitFor kernel.now search.new }
{
    if !is_universal(kernel, l.var()) {
        return Ok(None);
    }
    let leaves = search.applies(kernel, &Target::Cut { c, l }, bounds)?;
    Ok(Some(leaves))
}
