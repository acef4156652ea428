//! Laws on the clauses that are made: each is the contract of a function that does nothing.
ghost use Rattle.std.specs.Prelude.{◌↔◌};
ghost use Rattle.q_logic.specs.Prelude.{CertificateView, Holds, IsFormula, Lawful, Matrix, PrenexFormula, standard, trees_of};
ghost use Rattle.q_miter.specs.Miters.{IsCnf};
ghost use Rattle.q_encode.specs.declared.side.Side.{Side as TheSide};
ghost use Rattle.q_encode.specs.Encoded.{AreWithin, IsMiter};
ghost use Rattle.q_encode.specs.Sides.{AreFunctionsOf, turned};
ghost use Rattle.q_encode.specs.Sums.{IsSmall};

/// The given circuits are the functions of their side exactly where their miter is false.
pub fn miters_decide_given_circuits()
    ensures { (side : TheSide) → (F : PrenexFormula) → (given : CertificateView) → (X : Matrix) → (G : PrenexFormula)
        → IsFormula F → Lawful (turned side F.prefix) (trees_of given) → IsMiter side F given X → IsCnf X G
        → (AreFunctionsOf side F (trees_of given) ↔ ¬ Holds G)
        × (Holds G ↔ ¬ AreFunctionsOf side F (trees_of given)) }
{}

/// Where the sums are within the limits, so are the clauses; these are in literal order.
pub fn small_miters_keep_limits()
    ensures { (side : TheSide) → (F : PrenexFormula) → (given : CertificateView) → (X : Matrix)
        → IsFormula F → IsMiter side F given X → IsSmall side F given → AreWithin standard X }
{}
