//! Laws on the definitions: each is the contract of a function that does nothing.
ghost use Rattle.std.specs.Prelude.{◌++◌, ℕ, List};
ghost use Rattle.q_logic.specs.declared.limits.Limits.{Limits};
ghost use Rattle.q_logic.specs.Prelude.{PrenexFormula, IsFormula, ProofStep, Valid, Cause, ValidSteps, after, SameFormula, Run};
ghost use Rattle.q_same_steps.specs.Making.{Applies};
ghost use Rattle.q_same_steps.specs.Parts.{Part, AreRuns, steps_in, end_of};

/// Formulas with the same blocks and the same clauses, however these stand, have the same valid steps and the same causes of
/// refusal, and are the same behind them.
pub fn same_formulas_have_the_same_steps()
    ensures valid { (m : Limits) → (F G : PrenexFormula) → (s : ProofStep) → SameFormula F G →
        Valid m F s → Valid m G s }
    ensures cause { (m : Limits) → (F G : PrenexFormula) → (s : ProofStep) → (n : ℕ) → SameFormula F G →
        Cause m F s n → Cause m G s n }
    ensures after { (m : Limits) → (F G : PrenexFormula) → (s : ProofStep) → IsFormula F → IsFormula G →
        SameFormula F G → Valid m F s → SameFormula (after F s) (after G s) }
    ensures steps { (m : Limits) → (F G E : PrenexFormula) → (ss : List ProofStep) → IsFormula F → IsFormula G →
        SameFormula F G → ValidSteps m F ss E → (L : PrenexFormula) × ValidSteps m G ss L × SameFormula E L }
{}

/// Runs one after the other are one run.
pub fn parts_make_runs()
    ensures two { (F G H : PrenexFormula) → (ss us : List ProofStep) → IsFormula F → IsFormula G →
        Run F ss G → Run G us H → Run F (ss ++ us) H }
    ensures all { (F : PrenexFormula) → (ps : List Part) → IsFormula F → AreRuns F ps →
        Run F (steps_in ps) (end_of F ps) }
{}

/// A run can be cut behind any of its steps, and whatever formula stands there, what is behind it is a run.
pub fn runs_have_parts()
    ensures cut { (F H : PrenexFormula) → (ss us : List ProofStep) → IsFormula F → Run F (ss ++ us) H →
        (G : PrenexFormula) × IsFormula G × Run F ss G × Run G us H }
    ensures rest { (F G H : PrenexFormula) → (ss us : List ProofStep) → IsFormula F → IsFormula G →
        Run F (ss ++ us) H → Run F ss G → Run G us H }
{}

/// A valid step can be made.
pub fn valid_steps_are_made()
    ensures { (m : Limits) → (F : PrenexFormula) → (s : ProofStep) → Valid m F s → Applies m F s }
{}
