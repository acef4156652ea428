//! Laws on hints: each is the contract of a function that does nothing. Hints tell which clauses unit propagation
//! takes, and in which order; a step with its proof part is valid where these hints show it.
ghost use Rattle.std.specs.Prelude.{◌≡◌, ℕ, List};
ghost use Rattle.q_logic.specs.declared.limits.Limits.{Limits};
ghost use Rattle.q_logic.specs.Formulas.{Clause, PrenexFormula};
ghost use Rattle.q_logic.specs.Numbered.{Slots, live};
ghost use Rattle.q_logic.specs.Propagation.{Implied};
ghost use Rattle.q_logic.specs.Runs.{Run, AreAlike};
ghost use Rattle.q_logic.specs.Steps.{ProofStep, Valid, after};
ghost use Rattle.q_logic.specs.Hints.{Chained};
ghost use Rattle.q_logic.specs.Hinted.{NumberedFormula, ProofPart, HintedValid, HintedCause, hinted_after, plain, Hinted, HintedRun, strip};

/// What hints show is implied by propagation, and what is implied has hints.
pub fn chained_is_implied()
    ensures sound { (N : Slots) → (S : Clause) → (hints : List ℕ) → Chained N S hints
        → Implied (live N) S }
    ensures complete { (N : Slots) → (S : Clause) → Implied (live N) S → (hints : List ℕ)
        × Chained N S hints }
{}

/// A step that its proof part shows to be valid is valid, with the same result.
pub fn hinted_steps_are_valid()
    ensures valid { (m : Limits) → (F : NumberedFormula) → (s : ProofStep) → (t : ProofPart) →
        HintedValid m F s t → Valid m (plain F) s }
    ensures after { (m : Limits) → (F : NumberedFormula) → (s : ProofStep) → (t : ProofPart) →
        HintedValid m F s t → AreAlike (after (plain F) s) (plain (hinted_after F s t)) }
{}

/// A run with hints is a run without them.
pub fn hinted_runs_are_runs()
    ensures { (F G : PrenexFormula) → (hs : List Hinted) → HintedRun F hs G → Run F (strip hs) G }
{}

/// Each valid step has a proof part that shows it.
pub fn valid_steps_have_hints()
    ensures { (m : Limits) → (F : NumberedFormula) → (s : ProofStep) → Valid m (plain F) s →
        (t : ProofPart) × HintedValid m F s t }
{}

/// A step with its proof part has one cause of refusal, or it is valid and has none.
pub fn hinted_causes_are_exact()
    ensures none { (m : Limits) → (F : NumberedFormula) → (s : ProofStep) → (t : ProofPart)
        → (n : ℕ) →
        HintedValid m F s t → ¬ HintedCause m F s t n }
    ensures some { (m : Limits) → (F : NumberedFormula) → (s : ProofStep) → (t : ProofPart) →
        ¬ HintedValid m F s t → ¬ ((n : ℕ) → ¬ HintedCause m F s t n) }
    ensures one { (m : Limits) → (F : NumberedFormula) → (s : ProofStep) → (t : ProofPart)
        → (i j : ℕ) →
        HintedCause m F s t i → HintedCause m F s t j → i ≡ j }
{}
