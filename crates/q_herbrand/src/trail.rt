//! The reversals of a run, noted step by step. What an entry needs of the formula is found when its step comes, before
//! the formula changes.
ghost use Rattle.std.specs.Prelude.{◌≡◌, ◌++◌, ℕ, true, false, List, [], ◌∷◌, IfOk, IfErr, OnOk, OnErr};
ghost use Rattle.q_logic.specs.Prelude.{PrenexFormula, standard, AreAlike, ProofStep, Valid, after, Distinct, is_universal};
ghost use Rattle.q_logic.specs.Reversals.{IsExtended, Reversals as ReversalsOf};
ghost use Rattle.q_refutation.specs.Refutations.{MayBeMade};
ghost use Rattle.q_judge.specs.Ledgers.{formula_in};
ghost use Rattle.q_herbrand.specs.Trails.{HasGrownBy, HasMade, HasNoted, IsNoted, IsPassed};
ghost use Rattle.q_herbrand.specs.Disproved.{AreZeros};

use crate::error::TrailError;
use crate::reversal::{Reversal, Reversals};
use crate::steps;
use crate::zeros::zeros_among;
use q_aig::Certificate;
use q_judge::{Ledger, first_lit, load_clause, load_rest};
use q_logic::{Bound, Formula, Kind, Lit, NoMemory, Step};
use std::alloc::Global;
use std::marker::Model;

/// The formula that the steps so far left, and their reversals.
#[derive(Drop)]
pub struct Trail {
    alloc: Global,
    ledger: Ledger,
    entries: Vec<Reversal>,
    clause: Vec<Lit>,
    rest: Vec<Lit>,
}

impl Model for Trail {
    ghost use Rattle.std.specs.Prelude.{map};
    ghost use Rattle.q_judge.specs.Ledgers.{formula_in};
    ghost use Rattle.q_herbrand.specs.Trails.{Trailed};
    ghost use Rattle.q_herbrand.specs.Entries.{entry_of};

    ghost Value = { Trailed };

    ghost view = { λ t. record {
      formula = formula_in t.ledger;
      reversals = map entry_of t.entries.items;
    } };
}

impl Trail {
    /// The trail of no step.
    pub fn start(alloc: Global, formula: &Formula) -> Result<Trail, NoMemory>
        ensures formula { IfOk result (λ t. AreAlike formula.now t.formula) }
        ensures reversals { IfOk result (λ t. t.reversals ≡ []) }
        ensures noted { IfOk result (HasNoted formula.now []) }
        ensures made { IfOk result (HasMade formula.now []) }
    {
        let ledger = Ledger::start(alloc, formula)?;
        Ok(Trail {
            alloc,
            ledger,
            entries: Vec::new(alloc),
            clause: Vec::new(alloc),
            rest: Vec::new(alloc),
        })
    }

    /// Notes a valid step. An extended drop is refused; after an error the trail is as before.
    pub fn note(&mut self, step: &Step) -> Result<(), TrailError>
        requires { Valid standard self.old.formula step.now }
        ensures formula { OnOk result
            (AreAlike (after self.old.formula step.now) self.new.formula) }
        ensures reversals { OnOk result
            (HasGrownBy self.old.formula step.now self.old.reversals self.new.reversals) }
        ensures noted { OnOk result ((F : PrenexFormula) → (ss : List ProofStep) →
            HasNoted F ss self.old → HasNoted F (ss ++ step.now ∷ []) self.new) }
        ensures plain { OnOk result (¬ IsExtended self.old.formula step.now) }
        ensures refused { IfErr result (IsNoted self.old.formula step.now) }
        ensures unchanged { OnErr result (self.new ≡ self.old) }
    {
        self.note_made(step)
    }

    /// Notes a step that may be made: a valid one, or a deletion for whatever reason. An extended drop is refused; after an error
    /// the trail is as before.
    pub fn note_made(&mut self, step: &Step) -> Result<(), TrailError>
        requires { MayBeMade false standard self.old.formula step.now }
        ensures formula { OnOk result
            (AreAlike (after self.old.formula step.now) self.new.formula) }
        ensures reversals { OnOk result
            (HasGrownBy self.old.formula step.now self.old.reversals self.new.reversals) }
        ensures made { OnOk result ((F : PrenexFormula) → (ss : List ProofStep) →
            HasMade F ss self.old → HasMade F (ss ++ step.now ∷ []) self.new) }
        ensures plain { OnOk result (¬ IsExtended self.old.formula step.now) }
        ensures refused { IfErr result (IsNoted self.old.formula step.now) }
        ensures unchanged { OnErr result (self.new ≡ self.old) }
    {
        self.entries.reserve(1)?;
        let entry = pass(
            self.alloc,
            &mut self.ledger,
            &mut self.clause,
            &mut self.rest,
            step,
        )?;
        if let Some(entry) = entry {
            self.entries.push_reserved(entry);
        }
        Ok(())
    }

    /// A circuit for each universal of the formula that the steps left, which are among those of a prefix: each is 0.
    pub(crate) fn zeros(&self, prefix: &[Bound]) -> Result<Certificate, NoMemory>
        requires distinct { Distinct prefix.now }
        requires among { (u : ℕ) → is_universal self.now.formula.prefix u ≡ true →
            is_universal prefix.now u ≡ true }
        ensures { IfOk result (AreZeros self.now.formula) }
    {
        zeros_among(self.alloc, self.ledger.scope(), prefix)
    }

    /// The reversals of the steps noted, in their order. It takes no memory.
    pub fn finish(self) -> Reversals
        ensures value { result ≡ self.reversals }
        ensures reversals { (F : PrenexFormula) → (ss : List ProofStep) → HasNoted F ss self →
            ReversalsOf F ss result }
    {
        Reversals::from_entries(self.entries)
    }
}

// Passes over a step.
fn pass(
    alloc: Global,
    ledger: &mut Ledger,
    clause: &mut Vec<Lit>,
    rest: &mut Vec<Lit>,
    step: &Step,
) -> Result<Option<Reversal>, TrailError>
    requires { MayBeMade false standard (formula_in ledger.old) step.now }
    ensures { IsPassed (formula_in ledger.old) step.now (formula_in ledger.new) result }
{
    let lits = step.lits();
    match step.kind() {
        Kind::Add => {
            load_clause(clause, lits)?;
            steps::add(ledger, clause, first_lit(lits))
        }
        Kind::Delete => {
            load_clause(clause, lits)?;
            steps::delete(ledger, clause);
            Ok(None)
        }
        Kind::Drop => {
            load_clause(clause, lits)?;
            load_rest(rest, lits)?;
            steps::drop_literal(alloc, ledger, clause, rest, lits[0])
        }
        Kind::Fresh => steps::fresh(ledger, lits[0].var(), lits[1].var()),
        Kind::Remove => Ok(steps::remove(ledger, lits[0].var())),
    }
}
