//! What the definitions say of small formulas, as laws.
ghost use Rattle.std.specs.Prelude.{◌≡◌, [], ◌∷◌};
ghost use Rattle.q_logic.specs.Truth.{Holds};
ghost use Rattle.q_logic.specs.Pivots.{outer};
ghost use Rattle.q_logic.specs.StepForms.{positive};
ghost use Rattle.q_logic.specs.Examples.{negative, of_two, answered, guessed, guessed_less, answered_less, copied_behind, copied_before, CarelessPivot, CarelessReduction};

/// The order of the quantifiers matters to truth.
pub fn order_matters_to_truth()
    ensures answered { Holds answered }
    ensures guessed { ¬ Holds guessed }
{}

/// The order of the quantifiers matters to outer clauses.
pub fn order_matters_to_outer_clauses()
    ensures outer_universal { outer answered.prefix (negative 2) (of_two (negative 1) (negative 2))
        ≡ negative 1 ∷ [] }
    ensures inner_universal { outer guessed.prefix (negative 2) (of_two (negative 1) (negative 2))
        ≡ [] }
{}

/// A pivot that looks at inner literals too makes a false formula true.
pub fn careless_pivot_is_wrong()
    ensures pivot { CarelessPivot guessed.prefix guessed_less.matrix
        (of_two (positive 1) (positive 2)) (positive 2) }
    ensures before { ¬ Holds guessed }
    ensures after { Holds guessed_less }
{}

/// A reduction that does not mind the negation of its literal makes a true formula false.
pub fn careless_reduction_is_wrong()
    ensures reduction { CarelessReduction answered.prefix (of_two (positive 1) (positive 2))
        (positive 1) }
    ensures before { Holds answered }
    ensures after { ¬ Holds answered_less }
{}

/// A fresh variable that is to copy another one has to stand behind the universals that it reads.
pub fn fresh_place_matters()
    ensures behind { Holds copied_behind }
    ensures before { ¬ Holds copied_before }
{}
