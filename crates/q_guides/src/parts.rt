//! What waits for each rule, and how it comes to wait: by what the kernel notes of its changes.
//!
//! | What was touched | What may apply now |
//! |---|---|
//! | a clause came, or lost a literal | plain rules, subsumption, merges, elimination, expansion, covered clauses near it |
//! | a literal stands in one clause less | its negation as pure; blocked and covered clauses with it; its variable |
//! | a variable is fresh, or its block is one with a further one | all that concerns the variable |

use crate::blocking::Blocking;
use crate::covering::Covering;
use crate::cutting::Cutting;
use crate::eliminating::Eliminating;
use crate::expanding::Expanding;
use crate::lists::{index_of, lit_at, lits_of};
use crate::merging::Merging;
use crate::plain::Plain;
use crate::subsuming::Subsuming;
use crate::watch::{Pass, Watch};
use q_kernel::{ClauseId, Kernel, Touch};
use q_logic::{Lit, NoMemory, Quant};
use std::alloc::Global;

#[derive(Drop)]
pub(crate) struct Parts {
    pub plain: Plain,
    pub subsuming: Subsuming,
    pub merging: Merging,
    pub eliminating: Eliminating,
    pub blocking: Blocking,
    pub expanding: Expanding,
    pub covering: Covering,
    pub cutting: Cutting,
}

impl Parts {
    /// It takes no memory.
    pub(crate) fn new(alloc: Global) -> Parts {
        Parts {
            plain: Plain::new(alloc),
            subsuming: Subsuming::new(alloc),
            merging: Merging::new(alloc),
            eliminating: Eliminating::new(alloc),
            blocking: Blocking::new(alloc),
            expanding: Expanding::new(alloc),
            covering: Covering::new(alloc),
            cutting: Cutting::new(alloc),
        }
    }

    /// Notes what a touch makes worth a look.
    pub(crate) fn note(&mut self, kernel: &Kernel, touch: Touch) -> Result<(), NoMemory> {
        match touch {
            Touch::Clause(c) => self.note_clause(kernel, c),
            Touch::Literal(l) => self.note_loss(kernel, l),
            Touch::Variable(var) => self.note_variable(kernel, var),
        }
    }

    /// Takes everything as touched.
    pub(crate) fn note_all<W: Watch>(
        &mut self,
        kernel: &Kernel,
        watch: &W,
    ) -> Result<(), NoMemory> {
        self.note_clauses(kernel, watch)?;
        for var in 1..=kernel.greatest_var() {
            if !watch.look(Pass::Note, kernel) {
                return Ok(());
            }
            self.note_variable(kernel, var)?;
        }
        Ok(())
    }

    fn note_clauses<W: Watch>(&mut self, kernel: &Kernel, watch: &W) -> Result<(), NoMemory> {
        self.subsuming.restart();
        for c in kernel.ids() {
            if !watch.look(Pass::Note, kernel) {
                return Ok(());
            }
            self.plain.touch(kernel, c)?;
            self.subsuming.hang(kernel, c)?;
        }
        Ok(())
    }

    fn note_clause(&mut self, kernel: &Kernel, c: ClauseId) -> Result<(), NoMemory> {
        let clause = lits_of(kernel, c);
        if clause.len() == 2 {
            self.merging.touch();
        }
        self.plain.touch(kernel, c)?;
        self.subsuming.touch(kernel, c)?;
        for l in clause {
            self.touch_variable(kernel, l.var())?;
            self.covering.touch(index_of(*l))?;
        }
        Ok(())
    }

    fn note_loss(&mut self, kernel: &Kernel, lit: Lit) -> Result<(), NoMemory> {
        let negated = lit.negated();
        self.plain.suspect(kernel, negated)?;
        self.touch_variable(kernel, lit.var())?;
        self.blocking.touch(index_of(negated))?;
        self.covering.touch(index_of(negated))
    }

    fn note_variable(&mut self, kernel: &Kernel, var: u32) -> Result<(), NoMemory> {
        let Some(lit) = lit_at(var.saturating_mul(2)) else {
            return Ok(());
        };
        if !kernel.prefix().contains(var) {
            return Ok(());
        }
        self.merging.touch();
        self.note_loss(kernel, lit)?;
        self.note_loss(kernel, lit.negated())
    }

    fn touch_variable(&mut self, kernel: &Kernel, var: u32) -> Result<(), NoMemory> {
        match kernel.prefix().quant(var) {
            Some(Quant::Exists) => self.eliminating.touch(kernel, var),
            Some(Quant::Forall) => self.expanding.touch(var),
            None => Ok(()),
        }
    }
}
