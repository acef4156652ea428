//! The checker of hints: it takes the steps of a log whose proof parts show that they are valid, and searches for
//! nothing but whether a deletion by a pivot is implied, where the undo list is kept.
ghost use Rattle.std.specs.Prelude.{◌≡◌, ◌<◌, ◌+◌, ◌^◌, [], false, IfOk, IfErr, OnOk, OnErr};
ghost use Rattle.q_logic.specs.Prelude.{begun, plain, HintedValid, hinted_after, AreModerate, SameFormula};
ghost use Rattle.q_judge.specs.Tried.{IsEndRefusal};
ghost use Rattle.q_judge.specs.declared.error.CheckError.TheVariants.{NoMemory as MemoryError};
ghost use Rattle.q_check.specs.Checked.{HasGrown};
ghost use Rattle.q_check.specs.HintChecks.{IsHintRefusal, IsHintTried};
ghost use Rattle.q_check.specs.Replays.{IsHintUnfitFor};
ghost use Rattle.q_same_steps.specs.HintedMaking.{HintedApplies};

use crate::checker::Verified;
use crate::hint_passing::make;
use crate::hinted::{add, delete, drop_literal, fresh, remove};
use crate::named::{Cut, Named};
use crate::numbered::NumberedBook;
use crate::rows::{Settings, StepRows};
use q_judge::{CheckError, Undo, Undos, first_lit, load_clause, load_rest};
use q_logic::{Formula, Kind, Limits, Proof, Step};
use std::alloc::Global;
use std::marker::Model;

/// Tries the steps of a proof with hints, one after the other.
#[derive(Drop)]
pub struct HintChecker {
    book: NumberedBook,
    undo: Vec<Undo>,
    settings: Settings,
    steps: u64,
    rows: StepRows,
}

impl Model for HintChecker {
    ghost use Rattle.std.specs.Prelude.{map};
    ghost use Rattle.q_logic.specs.Prelude.{AreModerate};
    ghost use Rattle.q_judge.specs.Entries.{entry_of};
    ghost use Rattle.q_check.specs.HintChecks.{HintChecked};

    ghost Value = { HintChecked };

    ghost view = { λ c. record {
      formula = c.book;
      undo = map entry_of c.undo.items;
      limits = c.settings.limits;
      keeps = c.settings.keeps;
      steps = c.steps;
    } };

    ghost invariant = { λ c. AreModerate c.settings.limits };
}

impl HintChecker {
    /// The clauses of the formula have the numbers 1, 2 and so on.
    pub fn start(
        alloc: Global,
        formula: &Formula,
        limits: Limits,
        keep_undo: bool,
    ) -> Result<HintChecker, CheckError>
        requires { AreModerate limits }
        ensures started { IfOk result (λ c. c ≡ record {
          formula = begun formula.now;
          undo = [];
          limits = limits;
          keeps = keep_undo;
          steps = 0;
        }) }
        ensures only_memory { IfErr result (λ e. e ≡ MemoryError) }
    {
        let book = NumberedBook::start(alloc, formula)?;
        Ok(HintChecker {
            book,
            undo: Vec::new(alloc),
            settings: Settings {
                limits,
                keeps: keep_undo,
            },
            steps: 0,
            rows: StepRows::new(alloc),
        })
    }

    /// Takes the step if its proof part shows that it is valid. After an error the checker is as before.
    pub fn step(&mut self, step: &Step, proof: &Proof) -> Result<(), CheckError>
        requires { self.old.steps < 2 ^ 61 }
        ensures valid { OnOk result (HintedValid self.old.limits self.old.formula step.now
            proof.now) }
        ensures after { OnOk result (self.new.formula ≡ hinted_after self.old.formula step.now
            proof.now) }
        ensures undo { OnOk result (HasGrown self.old.keeps (plain self.old.formula) step.now
            self.old.undo self.new.undo) }
        ensures settings { (self.new.limits ≡ self.old.limits) × (self.new.keeps ≡ self.old.keeps) }
        ensures steps { OnOk result (self.new.steps ≡ self.old.steps + 1) }
        ensures refused { IfErr result (IsHintRefusal self.old.limits self.old.formula step.now
            proof.now) }
        ensures unchanged { OnErr result (self.new ≡ self.old) }
    {
        self.undo.reserve(1)?;
        let entry = try_step(&mut self.book, &mut self.rows, self.settings, step, proof)?;
        if let Some(entry) = entry {
            self.undo.push_reserved(entry);
        }
        self.steps += 1;
        Ok(())
    }

    /// Makes the step if it can be made, without a look at its hints: another one judges it. What the undo list notes needs a judgement, so
    /// it isn't kept. After an error the checker is as before.
    pub fn pass(&mut self, step: &Step, proof: &Proof) -> Result<(), CheckError>
        requires keeps { self.old.keeps ≡ false }
        requires count { self.old.steps < 2 ^ 61 }
        ensures fit { OnOk result (HintedApplies self.old.limits self.old.formula step.now
            proof.now) }
        ensures after { OnOk result (self.new.formula ≡ hinted_after self.old.formula step.now
            proof.now) }
        ensures kept { (self.new.limits ≡ self.old.limits) × (self.new.keeps ≡ self.old.keeps) × (self.new.undo ≡ self.old.undo) }
        ensures steps { OnOk result (self.new.steps ≡ self.old.steps + 1) }
        ensures refused { IfErr result (IsHintUnfitFor self.old.limits self.old.formula step.now
            proof.now) }
        ensures unchanged { OnErr result (self.new ≡ self.old) }
    {
        make(&mut self.book, &mut self.rows, self.settings, step, proof)?;
        self.steps += 1;
        Ok(())
    }

    /// Ends the check: blocks and clauses are those of the output, in any order.
    pub fn finish(self, output: &Formula) -> Result<Verified, CheckError>
        ensures same { OnOk result (SameFormula (plain self.formula) output.now) }
        ensures undo { IfOk result (λ v. v.undo ≡ self.undo) }
        ensures refused { IfErr result (IsEndRefusal (plain self.formula) output.now) }
    {
        self.book.finish(output)?;
        Ok(Verified {
            undo: Undos::from_entries(self.undo),
        })
    }
}

// Tries the step on the formula.
fn try_step(
    book: &mut NumberedBook,
    rows: &mut StepRows,
    settings: Settings,
    step: &Step,
    proof: &Proof,
) -> Result<Option<Undo>, CheckError>
    requires { AreModerate settings.limits }
    ensures { IsHintTried settings.keeps settings.limits book.old step.now proof.now book.new
        result }
{
    let lits = step.lits();
    let StepRows {
        clause,
        rest,
        hints,
    } = rows;
    let targets = &mut hints.targets;
    match step.kind() {
        Kind::Add => {
            load_clause(clause, lits)?;
            let first = first_lit(lits);
            add(
                book,
                targets,
                settings.limits,
                &Named { clause, first },
                proof,
            )
        }
        Kind::Delete => {
            load_clause(clause, lits)?;
            let first = first_lit(lits);
            delete(
                book,
                targets,
                &Named { clause, first },
                settings.keeps,
                proof,
            )
        }
        Kind::Drop => {
            load_clause(clause, lits)?;
            load_rest(rest, lits)?;
            let lit = lits[0];
            drop_literal(book, targets, &Cut { clause, rest, lit }, proof)
        }
        Kind::Fresh => fresh(book, settings, lits[0].var(), lits[1].var(), proof),
        Kind::Remove => remove(book, lits[0].var(), settings.keeps, proof),
    }
}
