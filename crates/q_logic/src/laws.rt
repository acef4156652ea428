//! Laws on the definitions: each is the contract of a function that does nothing.
ghost use Rattle.std.specs.Prelude.{◌≡◌, ◌↔◌, ◌++◌, ℕ, true, List, ◌∷◌, IsTrue};
ghost use Rattle.q_logic.specs.declared.limits.Limits.{Limits};
ghost use Rattle.q_logic.specs.Literals.{Literal};
ghost use Rattle.q_logic.specs.Limits.{AreWithin};
ghost use Rattle.q_logic.specs.Formulas.{Clause, Matrix, Prefix, IsIn, PrenexFormula};
ghost use Rattle.q_logic.specs.Prefixes.{IsFormula, is_bound, outer_or_same, OuterOrSame};
ghost use Rattle.q_logic.specs.Truth.{Assignment, ClauseTrue, MatrixTrue, Holds, is_true};
ghost use Rattle.q_logic.specs.Skolems.{Strategy, Lawful, SkolemOf};
ghost use Rattle.q_logic.specs.Propagation.{Implied, IsSaturated, Conflicts, negations};
ghost use Rattle.q_logic.specs.Reach.{Reducible, ReducibleByVariable};
ghost use Rattle.q_logic.specs.Steps.{ProofStep, Valid, Cause, after};
ghost use Rattle.q_logic.specs.Runs.{ValidSteps, Run, SameFormula};
ghost use Rattle.q_logic.specs.Undos.{UndoEntry, Undos, Back};

/// A formula holds exactly where it has Skolem functions.
pub fn truth_is_skolem()
    ensures { (F : PrenexFormula) → IsFormula F → Holds F ↔ ((c : Strategy) × SkolemOf F c) }
{}

/// The slow program decides truth.
pub fn truth_is_decided()
    ensures { (F : PrenexFormula) → IsTrue (is_true F) ↔ Holds F }
{}

/// What is implied by propagation follows.
pub fn implied_is_sound()
    ensures { (X : Matrix) → (S : Clause) → Implied X S → (A : Assignment) → MatrixTrue A X
        → ClauseTrue A S }
{}

/// More clauses and more literals imply no less, and neither order nor copies matter.
pub fn implied_by_more()
    ensures clauses { (X Y : Matrix) → (S : Clause) → ((D : Clause) → IsIn D X → IsIn D Y)
        → Implied X S → Implied Y S }
    ensures literals { (X : Matrix) → (S T : Clause) → ((k : Literal) → IsIn k S → IsIn k T)
        → Implied X S → Implied X T }
{}

/// Propagation may go in any order: literals that are closed under it conflict where any chain does.
pub fn saturated_conflicts()
    ensures { (X : Matrix) → (S : Clause) → (K : List Literal) → IsSaturated X (negations S) K
        → Implied X S → Conflicts X K }
{}

/// The order of a prefix, computed and told by places.
pub fn order_by_places()
    ensures { (P : Prefix) → (a v : ℕ) → is_bound P a ≡ true → is_bound P v ≡ true →
        IsTrue (outer_or_same P a v) ↔ OuterOrSame P a v }
{}

/// What is reducible where clauses are linked by shared variables is reducible where they are linked
/// by literals of opposite sign.
pub fn reducible_by_variable()
    ensures { (P : Prefix) → (X : Matrix) → (C : Clause) → (l : Literal) →
        ReducibleByVariable P X C l → Reducible P X C l }
{}

/// Formulas with equal blocks and equal collections of clauses have one truth value and the same
/// Skolem functions.
pub fn same_formulas()
    ensures truth { (F G : PrenexFormula) → IsFormula F → SameFormula F G → Holds F ↔ Holds G }
    ensures skolem { (F G : PrenexFormula) → (c : Strategy) → SameFormula F G → SkolemOf F c
        ↔ SkolemOf G c }
{}

/// Valid steps lead from a formula to a formula.
pub fn steps_keep_formulas()
    ensures one { (m : Limits) → (F : PrenexFormula) → (s : ProofStep) →
        IsFormula F → Valid m F s → IsFormula (after F s) }
    ensures all { (m : Limits) → (F E : PrenexFormula) → (ss : List ProofStep) →
        IsFormula F → ValidSteps m F ss E → IsFormula E }
{}

/// Valid steps keep truth, in both directions, and so do runs.
pub fn runs_keep_truth()
    ensures steps { (m : Limits) → (F E : PrenexFormula) → (ss : List ProofStep) →
        IsFormula F → ValidSteps m F ss E → Holds F ↔ Holds E }
    ensures run { (F G : PrenexFormula) → (ss : List ProofStep) →
        IsFormula F → Run F ss G → Holds F ↔ Holds G }
{}

/// Circuits of the end of a run, taken back over its undo list, are circuits of its beginning: Skolem
/// functions where they were Skolem functions, and lawful ones in any case.
pub fn runs_rebuild()
    ensures skolem { (F G : PrenexFormula) → (ss : List ProofStep) → (us : List UndoEntry)
        → (c : Strategy) →
        IsFormula F → Run F ss G → Undos F ss us → SkolemOf G c → SkolemOf F (Back us c) }
    ensures lawful { (F G : PrenexFormula) → (ss : List ProofStep) → (us : List UndoEntry)
        → (c : Strategy) →
        IsFormula F → Run F ss G → Undos F ss us → Lawful G.prefix c → Lawful F.prefix (Back us c) }
{}

/// What is valid under smaller limits is valid under larger ones, with the same result.
pub fn larger_limits_keep_steps()
    ensures one { (m n : Limits) → (F : PrenexFormula) → (s : ProofStep) →
        AreWithin m n → Valid m F s → Valid n F s }
    ensures all { (m n : Limits) → (F E : PrenexFormula) → (ss : List ProofStep) →
        AreWithin m n → ValidSteps m F ss E → ValidSteps n F ss E }
{}

/// A step has one cause of refusal, or it is valid and has none.
pub fn causes_are_exact()
    ensures none { (m : Limits) → (F : PrenexFormula) → (s : ProofStep) → (n : ℕ) → Valid m F s
        → ¬ Cause m F s n }
    ensures some { (m : Limits) → (F : PrenexFormula) → (s : ProofStep) → ¬ Valid m F s
        → ¬ ((n : ℕ) → ¬ Cause m F s n) }
    ensures one { (m : Limits) → (F : PrenexFormula) → (s : ProofStep) → (i j : ℕ) → Cause m F s i
        → Cause m F s j → i ≡ j }
{}
