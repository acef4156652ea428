//! The rules of simplification: laws on where they apply and what they change. Each is the contract of a
//! function that does nothing.
ghost use Rattle.std.specs.Prelude.{◌≡◌, ◌≢◌, ◌↔◌, ◌⊎◌, ◌+◌, ◌≤◌, ℕ, true, List, [], ◌∷◌};
ghost use Rattle.q_logic.specs.declared.rule_bounds.Bounds.{Bounds};
ghost use Rattle.q_logic.specs.Literals.{IsBelow};
ghost use Rattle.q_logic.specs.Formulas.{Clause, Matrix, Prefix, IsIn, PrenexFormula};
ghost use Rattle.q_logic.specs.Prefixes.{IsFormula};
ghost use Rattle.q_logic.specs.Parts.{ArePairs};
ghost use Rattle.q_logic.specs.Steps.{ProofStep};
ghost use Rattle.q_logic.specs.Runs.{Run};
ghost use Rattle.q_logic.specs.Limits.{standard};
ghost use Rattle.q_logic.specs.Sweep.{swept};
ghost use Rattle.q_logic.specs.Measure.{measure_of};
ghost use Rattle.q_logic.specs.Sets.{IsSubset};
ghost use Rattle.q_logic.specs.InLimits.{IsInLimits};
ghost use Rattle.q_logic.specs.Numbered.{Slots, live, formula_of};
ghost use Rattle.q_logic.specs.Targets.{Target, cover};
ghost use Rattle.q_logic.specs.Covering.{Grows, Ends, Covers};
ghost use Rattle.q_logic.specs.Expanding.{in_list, expansion_vars, Spread};
ghost use Rattle.q_logic.specs.Rules.{Applicable, result_of};
ghost use Rattle.q_logic.specs.Settled.{Settled};
ghost use Rattle.q_logic.specs.Deciding.{applicable};

/// From a formula within the limits, a run leads to the result of each applicable target, and the result
/// is again a formula within the limits.
pub fn targets_run()
    ensures run { (B : Bounds) → (P : Prefix) → (N : Slots) → (t : Target) →
        IsFormula (formula_of P (live N)) → IsInLimits standard (formula_of P (live N)) →
        Applicable B P N t →
        (ss : List ProofStep) × Run (formula_of P (live N)) ss (result_of P N t) }
    ensures formula { (B : Bounds) → (P : Prefix) → (N : Slots) → (t : Target) →
        IsFormula (formula_of P (live N)) → IsInLimits standard (formula_of P (live N)) →
        Applicable B P N t → IsFormula (result_of P N t) × IsInLimits standard (result_of P N t) }
{}

/// Each applicable target lowers the measure, whatever the bounds.
pub fn targets_lower()
    ensures { (B : Bounds) → (P : Prefix) → (N : Slots) → (t : Target) → Applicable B P N t →
        measure_of B (result_of P N t) + 1 ≤ measure_of B (formula_of P (live N)) }
{}

/// Sweeping is a run, twice is once, and it never raises the measure.
pub fn sweeping_runs()
    ensures run { (F : PrenexFormula) → IsFormula F → IsInLimits standard F →
        (ss : List ProofStep) × Run F ss (swept F) }
    ensures twice { (F : PrenexFormula) → swept (swept F) ≡ swept F }
    ensures measure { (B : Bounds) → (F : PrenexFormula) → measure_of B (swept F) ≤ measure_of B F }
{}

/// Growing never takes away a possible end or growth of a larger set, so any order of growths decides.
pub fn growing_keeps()
    ensures end { (P : Prefix) → (X : Matrix) → (S T : Clause) → IsSubset S T →
        Ends P X S → Ends P X T }
    ensures growth { (P : Prefix) → (X : Matrix) → (S T U : Clause) →
        IsSubset S T → Grows P X S U →
        IsSubset U T ⊎ (((V : Clause) × Grows P X T V × IsSubset U V) ⊎ Ends P X T) }
    ensures order { (P : Prefix) → (X : Matrix) → (S T : Clause) → Grows P X S T →
        Covers P X S ↔ Covers P X T }
{}

/// Over the empty prefix, no clauses and the single empty clause are settled.
pub fn settled_at_once()
    ensures nothing { (B : Bounds) → (N : Slots) → live N ≡ [] → Settled B [] N }
    ensures falsity { (B : Bounds) → (N : Slots) → live N ≡ [] ∷ [] → Settled B [] N }
{}

/// The plain programs decide where a target other than Cover applies, and find the variables that an
/// expansion copies.
pub fn plain_programs_decide()
    ensures targets { (B : Bounds) → (P : Prefix) → (N : Slots) → (t : Target) →
        ((D : Clause) → IsIn D (live N) → ArePairs IsBelow D) → ((c : ℕ) → t ≢ cover c) →
        (applicable B P N t ≡ true) ↔ Applicable B P N t }
    ensures copies { (P : Prefix) → (X : Matrix) → (u v : ℕ) →
        (in_list v (expansion_vars P X u) ≡ true) ↔ Spread P X u v }
{}
