//! The checker: a formula, and what the steps so far leave.
ghost use Rattle.std.specs.Prelude.{◌≡◌, ◌↔◌, [], false, IsTrue, IfOk, IfErr, OnOk, OnErr};
ghost use Rattle.q_logic.specs.Prelude.{AreModerate, SameFormula, AreAlike, IsIn, Valid, after};
ghost use Rattle.q_judge.specs.declared.error.CheckError.TheVariants.{NoMemory as MemoryError};
ghost use Rattle.q_judge.specs.Ledgers.{formula_in};
ghost use Rattle.q_judge.specs.Tried.{IsEndRefusal, IsTried};
ghost use Rattle.q_check.specs.Checked.{HasGrown, IsRefusal};
ghost use Rattle.q_same_steps.specs.Making.{Applies};
ghost use Rattle.q_check.specs.Replays.{IsUnfitFor};

use crate::passing::make;
use crate::rows::{Settings, StepRows};
use crate::tries;
use q_judge::{CheckError, Ledger, Undo, Undos, first_lit, load_clause, load_rest};
use q_logic::{Formula, Kind, Limits, NoMemory, Step};
use std::alloc::Global;
use std::marker::Model;

/// Tries the steps of a proof, one after the other.
#[derive(Drop)]
pub struct Checker {
    ledger: Ledger,
    undo: Vec<Undo>,
    settings: Settings,
    rows: StepRows,
}

impl Model for Checker {
    ghost use Rattle.std.specs.Prelude.{map};
    ghost use Rattle.q_logic.specs.Prelude.{AreModerate, IsProper};
    ghost use Rattle.q_check.specs.Checked.{Checked};
    ghost use Rattle.q_judge.specs.Entries.{entry_of};
    ghost use Rattle.q_judge.specs.Ledgers.{formula_in};

    ghost Value = { Checked };

    ghost view = { λ c. record {
      formula = formula_in c.ledger;
      undo = map entry_of c.undo.items;
      limits = c.settings.limits;
      keeps = c.settings.keeps;
    } };

    ghost invariant = { λ c. AreModerate c.settings.limits × IsProper (formula_in c.ledger) };
}

/// What an accepted proof leaves.
#[derive(Drop)]
pub struct Verified {
    pub undo: Undos,
}

impl Checker {
    pub fn start(
        alloc: Global,
        formula: &Formula,
        limits: Limits,
        keep_undo: bool,
    ) -> Result<Checker, CheckError>
        requires { AreModerate limits }
        ensures started { IfOk result (λ c. AreAlike formula.now c.formula × (c.undo ≡ [])
            × (c.limits ≡ limits) × (c.keeps ≡ keep_undo)) }
        ensures only_memory { IfErr result (λ e. e ≡ MemoryError) }
    {
        let _ = formula.prefix();
        let ledger = Ledger::start(alloc, formula)?;
        Ok(Checker {
            ledger,
            undo: Vec::new(alloc),
            settings: Settings {
                limits,
                keeps: keep_undo,
            },
            rows: StepRows::new(alloc),
        })
    }

    /// Takes the step if it is valid. After an error the checker is as before.
    pub fn step(&mut self, step: &Step) -> Result<(), CheckError>
        ensures valid { OnOk result (Valid self.old.limits self.old.formula step.now) }
        ensures after { OnOk result (AreAlike (after self.old.formula step.now) self.new.formula) }
        ensures undo { OnOk result (HasGrown self.old.keeps self.old.formula step.now self.old.undo
            self.new.undo) }
        ensures settings { (self.new.limits ≡ self.old.limits) × (self.new.keeps ≡ self.old.keeps) }
        ensures refused { IfErr result (IsRefusal self.old.limits self.old.formula step.now) }
        ensures unchanged { OnErr result (self.new ≡ self.old) }
    {
        self.undo.reserve(1)?;
        let _ = step.lits();
        let entry = try_step(&mut self.ledger, &mut self.rows, self.settings, step)?;
        if let Some(entry) = entry {
            self.undo.push_reserved(entry);
        }
        Ok(())
    }

    /// Makes the step if it can be made, whether or not it is valid: another one judges it. What the undo list notes needs a judgement, so
    /// it isn't kept. After an error the checker is as before.
    pub fn pass(&mut self, step: &Step) -> Result<(), CheckError>
        requires { self.old.keeps ≡ false }
        ensures fit { OnOk result (Applies self.old.limits self.old.formula step.now) }
        ensures after { OnOk result (AreAlike (after self.old.formula step.now) self.new.formula) }
        ensures kept { (self.new.limits ≡ self.old.limits) × (self.new.keeps ≡ self.old.keeps) × (self.new.undo ≡ self.old.undo) }
        ensures refused { IfErr result (IsUnfitFor self.old.limits self.old.formula step.now) }
        ensures unchanged { OnErr result (self.new ≡ self.old) }
    {
        let _ = step.lits();
        make(&mut self.ledger, &mut self.rows, self.settings.limits, step)?;
        Ok(())
    }

    /// The formula now: the prefix as it stands, and the clauses in some order.
    pub fn formula(&self, alloc: Global) -> Result<Formula, NoMemory>
        ensures { IfOk result (λ f. f ≡ self.now.formula) }
    {
        let prefix = self.ledger.scope().bounds(alloc)?;
        let (lits, ends) = self.ledger.clauses()?.into_parts();
        Ok(Formula::from_parts(prefix, lits, ends))
    }

    /// Whether the empty clause is there, so that the formula is false.
    pub fn has_empty(&self) -> bool
        ensures { IsTrue result ↔ IsIn [] self.now.formula.matrix }
    {
        self.ledger.store().find(&[]).is_some()
    }

    /// Ends the check: blocks and clauses are those of the output, in any order.
    pub fn finish(self, output: &Formula) -> Result<Verified, CheckError>
        ensures same { OnOk result (SameFormula self.formula output.now) }
        ensures undo { IfOk result (λ v. v.undo ≡ self.undo) }
        ensures refused { IfErr result (IsEndRefusal self.formula output.now) }
    {
        self.ledger.finish(output)?;
        Ok(Verified {
            undo: Undos::from_entries(self.undo),
        })
    }
}

// Tries the step on the formula.
fn try_step(
    ledger: &mut Ledger,
    rows: &mut StepRows,
    settings: Settings,
    step: &Step,
) -> Result<Option<Undo>, CheckError>
    requires { AreModerate settings.limits }
    ensures { IsTried settings.keeps settings.limits (formula_in ledger.old) step.now
        (formula_in ledger.new) result }
{
    let lits = step.lits();
    let clause = &mut rows.clause;
    let rest = &mut rows.rest;
    match step.kind() {
        Kind::Add => {
            load_clause(clause, lits)?;
            tries::add(ledger, settings.limits, clause, first_lit(lits))
        }
        Kind::Delete => {
            load_clause(clause, lits)?;
            tries::delete(ledger, clause, lits, settings.keeps)
        }
        Kind::Drop => {
            load_clause(clause, lits)?;
            load_rest(rest, lits)?;
            tries::drop_literal(ledger, clause, rest, lits[0])
        }
        Kind::Fresh => tries::fresh(ledger, settings, lits[0].var(), lits[1].var()),
        Kind::Remove => tries::remove(ledger, lits[0].var(), settings.keeps),
    }
}
