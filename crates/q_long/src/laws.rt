//! Laws on long-distance resolution: each is the contract of a function that does nothing.
ghost use Rattle.std.specs.Prelude.{◌≡◌, List};
ghost use Rattle.q_logic.specs.Formulas.{Prefix, PrenexFormula};
ghost use Rattle.q_logic.specs.Prefixes.{IsFormula, Distinct};
ghost use Rattle.q_logic.specs.Truth.{Assignment, Holds};
ghost use Rattle.q_logic.specs.Skolems.{Lawful, SkolemOf, outcome};
ghost use Rattle.q_logic.specs.Herbrands.{HerbrandOf};
ghost use Rattle.q_logic.specs.Exchanging.{exchanged};
ghost use Rattle.q_derive.specs.Derivations.{Line, IsHitting, HoldsClause};
ghost use Rattle.q_derive.specs.Extracted.{turned};
ghost use Rattle.q_long.specs.Valued.{Value, Line as ValuedLine, HaveAll, IsDerivation, IsAnyDerivation, IsLeafOf, HasEmpty, AreOf, IsTurned};
ghost use Rattle.q_long.specs.Decided.{circuits_of};
ghost use Rattle.q_long.specs.Distant.{IsLongTermProof, IsLongRefutation, valued};

/// The circuits of a derivation whose lines give values are lawful. If it ends in a line without values, then under them, whatever the
/// inputs are, some line that stands by itself gives all its variables the values that they have.
pub fn valued_derivations_win()
    ensures lawful { (P : Prefix) → (lines : List ValuedLine) → Distinct P → IsAnyDerivation P lines
        → Lawful P (circuits_of P lines) }
    ensures wins { (P : Prefix) → (lines : List ValuedLine) → Distinct P → IsAnyDerivation P lines
        → HasEmpty lines → (A : Assignment) → (T : List Value) × IsLeafOf lines T
        × HaveAll (outcome (circuits_of P lines) A) T }
{}

/// The circuits of such a derivation of the empty line are Skolem functions, where the lines that stand by themselves are terms that hit
/// all clauses; they are Herbrand functions, where these are clauses of the formula, read as the terms that say that they are false.
pub fn valued_derivations_decide()
    ensures skolem { (F : PrenexFormula) → (lines : List ValuedLine) → IsFormula F
        → IsDerivation F.prefix (AreOf (IsHitting F.matrix)) lines → HasEmpty lines
        → SkolemOf F (circuits_of F.prefix lines) }
    ensures herbrand { (F : PrenexFormula) → (lines : List ValuedLine) → IsFormula F
        → IsDerivation (exchanged F.prefix) (AreOf (IsTurned (HoldsClause F.matrix))) lines
        → HasEmpty lines → HerbrandOf F (circuits_of (exchanged F.prefix) lines) }
{}

/// The circuits of a proof by long-distance term resolution are Skolem functions, so the formula is true.
pub fn long_term_proofs_give_skolem()
    ensures skolem { (F : PrenexFormula) → (lines : List Line) → IsFormula F → IsLongTermProof F lines
        → SkolemOf F (circuits_of F.prefix (valued F.prefix lines)) }
    ensures truth { (F : PrenexFormula) → (lines : List Line) → IsFormula F → IsLongTermProof F lines
        → Holds F }
{}

/// The circuits of a refutation by long-distance Q-resolution are Herbrand functions, so the formula is false.
pub fn long_refutations_give_herbrand()
    ensures herbrand { (F : PrenexFormula) → (lines : List Line) → IsFormula F → IsLongRefutation F lines
        → HerbrandOf F (circuits_of (exchanged F.prefix) (valued (exchanged F.prefix) (turned lines))) }
    ensures falsity { (F : PrenexFormula) → (lines : List Line) → IsFormula F → IsLongRefutation F lines
        → ¬ Holds F }
{}
