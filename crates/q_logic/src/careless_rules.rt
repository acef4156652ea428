//! Careless forms of rules break truth, as laws at small formulas.
ghost use Rattle.std.specs.Prelude.{◌≡◌, true};
ghost use Rattle.q_logic.specs.declared.rule_bounds.Bounds.{Bounds};
ghost use Rattle.q_logic.specs.Truth.{Holds};
ghost use Rattle.q_logic.specs.StepForms.{positive};
ghost use Rattle.q_logic.specs.Examples.{of_two, guessed, guessed_less};
ghost use Rattle.q_logic.specs.Numbered.{numbered};
ghost use Rattle.q_logic.specs.Targets.{blocked, eliminate, expand_universal};
ghost use Rattle.q_logic.specs.Rules.{Applicable, result_of};
ghost use Rattle.q_logic.specs.CarelessRules.{all_clash_anywhere, connected, forgetful_expansion};

/// A clause that is blocked only where inner literals count too may not go.
pub fn careless_blocking_is_wrong()
    ensures careless { all_clash_anywhere guessed_less.matrix (positive 2)
        (of_two (positive 1) (positive 2)) ≡
        true }
    ensures refused { (B : Bounds) →
        ¬ Applicable B guessed.prefix (numbered guessed.matrix) (blocked 0 (positive 2)) }
    ensures before { ¬ Holds guessed }
    ensures after { Holds (result_of guessed.prefix (numbered guessed.matrix)
        (blocked 0 (positive 2))) }
{}

/// An elimination needs one side whose literals are all outer or same to the variable.
pub fn careless_elimination_is_wrong()
    ensures refused { (B : Bounds) →
        ¬ Applicable B guessed.prefix (numbered guessed.matrix) (eliminate 2) }
    ensures before { ¬ Holds guessed }
    ensures after { Holds (result_of guessed.prefix (numbered guessed.matrix) (eliminate 2)) }
{}

/// An expansion that forgets one connected variable breaks truth, where the right one keeps it.
pub fn careless_expansion_is_wrong()
    ensures before { Holds connected }
    ensures right { Holds (result_of connected.prefix (numbered connected.matrix)
        (expand_universal 1)) }
    ensures forgetful { ¬ Holds (forgetful_expansion connected 1) }
{}
