//! A law on the stricter form of the reduction: the contract of a function that does nothing.
ghost use Rattle.std.specs.Prelude.{List};
ghost use Rattle.q_logic.specs.declared.limits.Limits.{Limits};
ghost use Rattle.q_logic.specs.Formulas.{PrenexFormula};
ghost use Rattle.q_logic.specs.Steps.{ProofStep, Valid};
ghost use Rattle.q_logic.specs.Runs.{ValidSteps};
ghost use Rattle.q_logic.specs.ByVariable.{ValidByVariable, ValidStepsByVariable};

/// What is valid where clauses are linked by shared variables is valid where they are linked by literals of opposite
/// sign, with the same result.
pub fn valid_by_variable()
    ensures one { (m : Limits) → (F : PrenexFormula) → (s : ProofStep) → ValidByVariable m F s
        → Valid m F s }
    ensures all { (m : Limits) → (F E : PrenexFormula) → (ss : List ProofStep) →
        ValidStepsByVariable m F ss E → ValidSteps m F ss E }
{}
