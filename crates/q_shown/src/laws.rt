//! Each law is the contract of a function that does nothing.
ghost use Rattle.std.specs.Prelude.{◌≡◌, ◌↔◌, ℕ, false, List, Option};
ghost use Rattle.q_logic.specs.declared.limits.Limits.{Limits};
ghost use Rattle.q_logic.specs.Prelude.{PrenexFormula, NumberedFormula, IsFormula, Holds, Hinted, ProofPart, ProofStep, begun, strip};
ghost use Rattle.q_refutation.specs.Refutations.{Refutes};
ghost use Rattle.q_shown.specs.HintedRefutations.{HintedBadCause, HintedMayBeMade, HintedRefusedAt, HintedRefutedIn, HintedRefutes};

/// A refutation with hints is one without its proof parts, so its formula is false; and each refutation has hints.
pub fn hinted_refutations_refute()
    ensures stripped { (m : Limits) → (F : PrenexFormula) → (hs : List Hinted) → HintedRefutes m (begun F) hs →
        Refutes false m F (strip hs) }
    ensures wrong { (m : Limits) → (F : PrenexFormula) → (hs : List Hinted) → IsFormula F → HintedRefutes m (begun F) hs →
        ¬ Holds F }
    ensures shown { (m : Limits) → (F : PrenexFormula) → (ss : List ProofStep) → Refutes false m F ss →
        (hs : List Hinted) × (strip hs ≡ ss) × HintedRefutes m (begun F) hs }
{}

/// A step with its proof part may be made, or it has one cause.
pub fn hinted_bad_causes_are_exact()
    ensures none { (m : Limits) → (N : NumberedFormula) → (s : ProofStep) → (t : ProofPart) → (n : ℕ) → HintedMayBeMade m N s t →
        ¬ HintedBadCause m N s t n }
    ensures some { (m : Limits) → (N : NumberedFormula) → (s : ProofStep) → (t : ProofPart) → ¬ HintedMayBeMade m N s t →
        ¬ ((n : ℕ) → ¬ HintedBadCause m N s t n) }
    ensures one { (m : Limits) → (N : NumberedFormula) → (s : ProofStep) → (t : ProofPart) → (i j : ℕ) → HintedBadCause m N s t i →
        HintedBadCause m N s t j → i ≡ j }
{}

/// Steps with proof parts are a refutation, and then one number says of how many; or they are refused, at one place for one cause.
pub fn hinted_refuted_or_refused()
    ensures number { (m : Limits) → (N : NumberedFormula) → (hs : List Hinted) → HintedRefutes m N hs ↔
        ((n : ℕ) × HintedRefutedIn m N hs n) }
    ensures one { (m : Limits) → (N : NumberedFormula) → (hs : List Hinted) → (i j : ℕ) → HintedRefutedIn m N hs i →
        HintedRefutedIn m N hs j → i ≡ j }
    ensures not_both { (m : Limits) → (N : NumberedFormula) → (hs : List Hinted) → (n at : ℕ) → (cause : Option ℕ) →
        HintedRefutedIn m N hs n → ¬ HintedRefusedAt m N hs at cause }
    ensures either { (m : Limits) → (N : NumberedFormula) → (hs : List Hinted) → ¬ HintedRefutes m N hs →
        ¬ ((at : ℕ) → (cause : Option ℕ) → ¬ HintedRefusedAt m N hs at cause) }
{}
