// Places for the checkers and for the trail. Each stands in a row of one, so that its place is let go by one call.
ghost use Rattle.std.specs.Prelude.{◌≡◌, ◌↔◌, ◌<◌, ◌+◌, ◌^◌, ◌++◌, ◌∷◌, false, IsTrue, List, [], IfOk, IfErr, OnOk};
ghost use Rattle.q_logic.specs.Prelude.{AreAlike, HintedValid, IsIn, PrenexFormula, ProofStep, Valid, after, begun, hinted_after, standard};
ghost use Rattle.q_logic.specs.Reversals.{IsExtended};
ghost use Rattle.q_refutation.specs.Refutations.{MayBeMade};
ghost use Rattle.q_same_steps.specs.HintedMaking.{HintedApplies};
ghost use Rattle.q_same_steps.specs.Making.{Applies};
ghost use Rattle.q_check.specs.Checked.{IsRefusal};
ghost use Rattle.q_check.specs.HintChecks.{IsHintRefusal};
ghost use Rattle.q_check.specs.Replays.{IsHintUnfitFor, IsUnfitFor};
ghost use Rattle.q_herbrand.specs.Trails.{HasMade, IsNoted};

use q_check::{CheckError, Checker, HintChecker};
use q_herbrand::{Trail, TrailError};
use q_logic::{Formula, Limits, NoMemory, Proof, Step};
use std::alloc::Global;
use std::marker::Model;

/// A place that holds a checker.
#[derive(Drop)]
pub(crate) struct BoxedChecker {
    row: Vec<Checker>,
}

impl Model for BoxedChecker {
    ghost use Rattle.std.specs.Prelude.{◌≡◌, length};
    ghost use Rattle.q_check.specs.Checked.{Checked};
    ghost use Rattle.q_run_disprove.specs.Boxed.{boxed_checker};

    ghost Value = { Checked };

    ghost view = { λ s. boxed_checker s.row.items };

    ghost invariant = { λ s. length s.row.items ≡ 1 };
}

impl BoxedChecker {
    /// Begins with the formula. Nothing can be undone.
    pub fn start(alloc: Global, formula: &Formula) -> Result<BoxedChecker, NoMemory>
        ensures started { IfOk result (λ c. AreAlike formula.now c.formula × (c.limits ≡ standard)
            × (c.keeps ≡ false)) }
    {
        match Checker::start(alloc, formula, Limits::standard(), false) {
            Ok(checker) => placed_checker(alloc, checker),
            Err(_) => Err(NoMemory),
        }
    }

    /// Takes the step if it is valid.
    pub fn step(&mut self, step: &Step) -> Result<(), CheckError>
        ensures valid { OnOk result (Valid self.old.limits self.old.formula step.now) }
        ensures after { OnOk result (AreAlike (after self.old.formula step.now) self.new.formula) }
        ensures settings { (self.new.limits ≡ self.old.limits) × (self.new.keeps ≡ self.old.keeps) }
        ensures refused { IfErr result (IsRefusal self.old.limits self.old.formula step.now) }
    {
        self.row[0].step(step)
    }

    /// Makes the step if it can be made, without judging it.
    pub fn pass(&mut self, step: &Step) -> Result<(), CheckError>
        requires { self.old.keeps ≡ false }
        ensures fit { OnOk result (Applies self.old.limits self.old.formula step.now) }
        ensures after { OnOk result (AreAlike (after self.old.formula step.now) self.new.formula) }
        ensures kept { (self.new.limits ≡ self.old.limits) × (self.new.keeps ≡ self.old.keeps) }
        ensures refused { IfErr result (IsUnfitFor self.old.limits self.old.formula step.now) }
    {
        self.row[0].pass(step)
    }

    /// Whether the empty clause is there, so that the formula is false.
    pub fn has_empty(&self) -> bool
        ensures { IsTrue result ↔ IsIn [] self.now.formula.matrix }
    {
        self.row[0].has_empty()
    }
}

// The checker in a place of its own.
fn placed_checker(alloc: Global, checker: Checker) -> Result<BoxedChecker, NoMemory>
    ensures { IfOk result (λ c. c ≡ checker) }
{
    let mut row = Vec::new(alloc);
    row.push(checker)?;
    Ok(BoxedChecker { row })
}

/// A place that holds a checker of hints.
#[derive(Drop)]
pub(crate) struct BoxedHintChecker {
    row: Vec<HintChecker>,
}

impl Model for BoxedHintChecker {
    ghost use Rattle.std.specs.Prelude.{◌≡◌, length};
    ghost use Rattle.q_check.specs.HintChecks.{HintChecked};
    ghost use Rattle.q_run_disprove.specs.Boxed.{boxed_hint_checker};

    ghost Value = { HintChecked };

    ghost view = { λ s. boxed_hint_checker s.row.items };

    ghost invariant = { λ s. length s.row.items ≡ 1 };
}

impl BoxedHintChecker {
    /// Begins with the formula, whose clauses have the numbers 1, 2 and so on. Nothing can be undone.
    pub fn start(alloc: Global, formula: &Formula) -> Result<BoxedHintChecker, NoMemory>
        ensures started { IfOk result (λ c. c ≡ record {
          formula = begun formula.now;
          undo = [];
          limits = standard;
          keeps = false;
          steps = 0;
        }) }
    {
        match HintChecker::start(alloc, formula, Limits::standard(), false) {
            Ok(checker) => placed_hint_checker(alloc, checker),
            Err(_) => Err(NoMemory),
        }
    }

    /// Takes the step if its proof part shows that it is valid.
    pub fn step(&mut self, step: &Step, proof: &Proof) -> Result<(), CheckError>
        requires { self.old.steps < 2 ^ 61 }
        ensures valid { OnOk result (HintedValid self.old.limits self.old.formula step.now
            proof.now) }
        ensures after { OnOk result (self.new.formula ≡ hinted_after self.old.formula step.now
            proof.now) }
        ensures settings { (self.new.limits ≡ self.old.limits) × (self.new.keeps ≡ self.old.keeps) }
        ensures steps { OnOk result (self.new.steps ≡ self.old.steps + 1) }
        ensures refused { IfErr result (IsHintRefusal self.old.limits self.old.formula step.now
            proof.now) }
    {
        self.row[0].step(step, proof)
    }

    /// Makes the step if it can be made, without a look at its hints.
    pub fn pass(&mut self, step: &Step, proof: &Proof) -> Result<(), CheckError>
        requires keeps { self.old.keeps ≡ false }
        requires count { self.old.steps < 2 ^ 61 }
        ensures fit { OnOk result (HintedApplies self.old.limits self.old.formula step.now
            proof.now) }
        ensures after { OnOk result (self.new.formula ≡ hinted_after self.old.formula step.now
            proof.now) }
        ensures kept { (self.new.limits ≡ self.old.limits) × (self.new.keeps ≡ self.old.keeps) }
        ensures steps { OnOk result (self.new.steps ≡ self.old.steps + 1) }
        ensures refused { IfErr result (IsHintUnfitFor self.old.limits self.old.formula step.now
            proof.now) }
    {
        self.row[0].pass(step, proof)
    }
}

// The checker of hints in a place of its own.
fn placed_hint_checker(alloc: Global, checker: HintChecker) -> Result<BoxedHintChecker, NoMemory>
    ensures { IfOk result (λ c. c ≡ checker) }
{
    let mut row = Vec::new(alloc);
    row.push(checker)?;
    Ok(BoxedHintChecker { row })
}

/// A place that holds a trail.
#[derive(Drop)]
pub(crate) struct BoxedTrail {
    row: Vec<Trail>,
}

impl Model for BoxedTrail {
    ghost use Rattle.std.specs.Prelude.{◌≡◌, length};
    ghost use Rattle.q_herbrand.specs.Trails.{Trailed};
    ghost use Rattle.q_run_disprove.specs.Boxed.{boxed_trail};

    ghost Value = { Trailed };

    ghost view = { λ s. boxed_trail s.row.items };

    ghost invariant = { λ s. length s.row.items ≡ 1 };
}

impl BoxedTrail {
    /// The trail of no step.
    pub fn start(alloc: Global, formula: &Formula) -> Result<BoxedTrail, NoMemory>
        ensures formula { IfOk result (λ t. AreAlike formula.now t.formula) }
        ensures made { IfOk result (HasMade formula.now []) }
    {
        match Trail::start(alloc, formula) {
            Ok(trail) => placed(alloc, trail),
            Err(_) => Err(NoMemory),
        }
    }

    /// Notes a step that may be made.
    pub fn note_made(&mut self, step: &Step) -> Result<(), TrailError>
        requires { MayBeMade false standard self.old.formula step.now }
        ensures formula { OnOk result
            (AreAlike (after self.old.formula step.now) self.new.formula) }
        ensures made { OnOk result ((F : PrenexFormula) → (ss : List ProofStep) →
            HasMade F ss self.old → HasMade F (ss ++ step.now ∷ []) self.new) }
        ensures refused { IfErr result (IsNoted self.old.formula step.now) }
    {
        self.row[0].note_made(step)
    }

    /// The trail, out of its place.
    pub fn take(self) -> Trail
        ensures { result ≡ self }
    {
        let BoxedTrail { mut row } = self;
        row.remove(0)
    }
}

// The trail in a place of its own.
fn placed(alloc: Global, trail: Trail) -> Result<BoxedTrail, NoMemory>
    ensures { IfOk result (λ t. t ≡ trail) }
{
    let mut row = Vec::new(alloc);
    row.push(trail)?;
    Ok(BoxedTrail { row })
}
