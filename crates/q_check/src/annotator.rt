//! The annotator: it takes the steps that the checker takes, and gives each the proof part that shows it. So a log is
//! checked once with search, and later by its hints alone.
ghost use Rattle.std.specs.Prelude.{◌≡◌, ◌<◌, ◌+◌, ◌^◌, [], IfOk, IfErr, OnOk, OnErr};
ghost use Rattle.q_logic.specs.Prelude.{begun, plain, kind_of, HintedValid, hinted_after, AreModerate, SameFormula};
ghost use Rattle.q_logic.specs.declared.limits.Limits.{Limits as AnyLimits};
ghost use Rattle.q_logic.specs.declared.steps.Kind.TheVariants.{Delete};
ghost use Rattle.q_same_steps.specs.HintedMaking.{HintedApplies};
ghost use Rattle.q_judge.specs.Tried.{IsEndRefusal};
ghost use Rattle.q_judge.specs.declared.error.CheckError.TheVariants.{NoMemory as MemoryError};
ghost use Rattle.q_check.specs.Annotations.{HasForm, IsAnnotated, implied_part};
ghost use Rattle.q_check.specs.Checked.{IsRefusal};
ghost use Rattle.q_check.specs.Replays.{IsDeletionNamed, IsNumberedStep, IsUnfitFor};

use crate::annotating::{add, delete, delete_named, drop_literal, fresh, remove};
use crate::named::{Cut, Named};
use crate::named_passing::make;
use crate::numbered::NumberedBook;
use crate::rows::StepRows;
use q_judge::{CheckError, first_lit, load_clause, load_rest};
use q_logic::{Formula, Kind, Limits, Proof, Step};
use std::alloc::Global;
use std::marker::Model;

/// Tries the steps of a proof, one after the other, and shows each by hints.
#[derive(Drop)]
pub struct Annotator {
    book: NumberedBook,
    limits: Limits,
    steps: u64,
    rows: StepRows,
}

impl Model for Annotator {
    ghost use Rattle.q_logic.specs.Prelude.{AreModerate};
    ghost use Rattle.q_check.specs.Annotations.{Annotating};

    ghost Value = { Annotating };

    ghost view = { λ a. record { formula = a.book; limits = a.limits; steps = a.steps } };

    ghost invariant = { λ a. AreModerate a.limits };
}

impl Annotator {
    pub fn start(alloc: Global, formula: &Formula, limits: Limits) -> Result<Annotator, CheckError>
        requires { AreModerate limits }
        ensures started { IfOk result (λ a. a ≡ record {
          formula = begun formula.now;
          limits = limits;
          steps = 0;
        }) }
        ensures only_memory { IfErr result (λ e. e ≡ MemoryError) }
    {
        let book = NumberedBook::start(alloc, formula)?;
        Ok(Annotator {
            book,
            limits,
            steps: 0,
            rows: StepRows::new(alloc),
        })
    }

    /// The number of steps that were taken.
    pub fn steps(&self) -> u64
        ensures { result ≡ self.now.steps }
    {
        self.steps
    }

    /// Takes the step if it is valid, and answers the proof part that shows it. After an error the annotator is as before.
    pub fn step(&mut self, step: &Step) -> Result<Proof, CheckError>
        requires { self.old.steps < 2 ^ 61 }
        ensures shown { IfOk result (HintedValid self.old.limits self.old.formula step.now) }
        ensures after { IfOk result (λ t. self.new.formula ≡ hinted_after self.old.formula step.now
            t) }
        ensures form { IfOk result (HasForm step.now) }
        ensures limits { self.new.limits ≡ self.old.limits }
        ensures steps { OnOk result (self.new.steps ≡ self.old.steps + 1) }
        ensures refused { IfErr result (IsRefusal self.old.limits (plain self.old.formula)
            step.now) }
        ensures unchanged { OnErr result (self.new ≡ self.old) }
    {
        let proof = annotate(&mut self.book, &mut self.rows, self.limits, step)?;
        self.steps += 1;
        Ok(proof)
    }

    /// Makes a deletion, for whatever reason, and answers a proof part that names its clause and shows nothing. After an error the annotator
    /// is as before.
    pub fn delete(&mut self, step: &Step) -> Result<Proof, CheckError>
        requires few { self.old.steps < 2 ^ 61 }
        requires deletion { kind_of step.now ≡ Delete }
        ensures named { IfOk result (HintedApplies self.old.limits self.old.formula step.now) }
        ensures after { IfOk result (λ t. self.new.formula ≡ hinted_after self.old.formula step.now
            t) }
        ensures form { IfOk result (λ t. t ≡ implied_part t.number []) }
        ensures limits { self.new.limits ≡ self.old.limits }
        ensures steps { OnOk result (self.new.steps ≡ self.old.steps + 1) }
        ensures refused { IfErr result (IsUnfitFor self.old.limits (plain self.old.formula)
            step.now) }
        ensures unchanged { OnErr result (self.new ≡ self.old) }
    {
        let proof = name_deleted(&mut self.book, &mut self.rows, step)?;
        self.steps += 1;
        Ok(proof)
    }

    /// Makes the step if it can be made, and shows nothing: another one does. The clauses have the numbers that they have where the step is
    /// shown. After an error the annotator is as before.
    pub fn pass(&mut self, step: &Step) -> Result<(), CheckError>
        requires { self.old.steps < 2 ^ 61 }
        ensures made { OnOk result (IsNumberedStep self.old.limits self.old.formula step.now
            self.new.formula) }
        ensures limits { self.new.limits ≡ self.old.limits }
        ensures steps { OnOk result (self.new.steps ≡ self.old.steps + 1) }
        ensures refused { IfErr result (IsUnfitFor self.old.limits (plain self.old.formula)
            step.now) }
        ensures unchanged { OnErr result (self.new ≡ self.old) }
    {
        make(&mut self.book, &mut self.rows, self.limits, step)?;
        self.steps += 1;
        Ok(())
    }

    /// Ends the check: blocks and clauses are those of the output, in any order.
    pub fn finish(self, output: &Formula) -> Result<(), CheckError>
        ensures same { OnOk result (SameFormula (plain self.formula) output.now) }
        ensures refused { IfErr result (IsEndRefusal (plain self.formula) output.now) }
    {
        self.book.finish(output)
    }
}

// Tries the step on the formula, and shows it.
fn annotate(
    book: &mut NumberedBook,
    rows: &mut StepRows,
    limits: Limits,
    step: &Step,
) -> Result<Proof, CheckError>
    requires { AreModerate limits }
    ensures { IsAnnotated limits book.old step.now book.new result }
{
    let lits = step.lits();
    let StepRows {
        clause,
        rest,
        hints,
    } = rows;
    match step.kind() {
        Kind::Add => {
            load_clause(clause, lits)?;
            let first = first_lit(lits);
            add(book, hints, limits, &Named { clause, first })
        }
        Kind::Delete => {
            load_clause(clause, lits)?;
            let first = first_lit(lits);
            delete(book, hints, &Named { clause, first })
        }
        Kind::Drop => {
            load_clause(clause, lits)?;
            load_rest(rest, lits)?;
            let lit = lits[0];
            drop_literal(book, hints, &Cut { clause, rest, lit })
        }
        Kind::Fresh => fresh(hints.alloc, book, limits, lits[0].var(), lits[1].var()),
        Kind::Remove => remove(hints.alloc, book, lits[0].var()),
    }
}

// Makes the deletion on the formula, and names its clause.
fn name_deleted(
    book: &mut NumberedBook,
    rows: &mut StepRows,
    step: &Step,
) -> Result<Proof, CheckError>
    requires { kind_of step.now ≡ Delete }
    ensures { (m : AnyLimits) → IsDeletionNamed m book.old step.now book.new result }
{
    let StepRows { clause, hints, .. } = rows;
    load_clause(clause, step.lits())?;
    delete_named(hints.alloc, book, clause)
}
