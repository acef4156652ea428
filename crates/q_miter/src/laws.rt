//! Each law is the contract of a function that does nothing.
ghost use Rattle.std.specs.Prelude.{◌≡◌, ◌↔◌, ℕ, ◌+◌, ◌*◌, ◌≤◌, length};
ghost use Rattle.q_logic.specs.Prelude.{PrenexFormula, IsFormula, Holds, Clause, Matrix, Literal, IsIn, CertificateView, trees_of, Lawful, SkolemOf, literals_in, Assignment};
ghost use Rattle.q_logic.specs.Truth.{MatrixTrue};
ghost use Rattle.q_logic.specs.Herbrands.{LawfulHerbrand, HerbrandOf};
ghost use Rattle.q_miter.specs.Miters.{AreCircuits, IsCnf, VarsUpTo, in_order, top_of, skolem_miter, herbrand_miter, lean_miter};

/// Lawful circuits are Skolem functions exactly where their miter is false.
pub fn skolem_miters_decide()
    ensures { (F G : PrenexFormula) → (c : CertificateView) → IsFormula F → AreCircuits c → Lawful F.prefix (trees_of c) →
        IsCnf (skolem_miter F c) G → (SkolemOf F (trees_of c) ↔ ¬ Holds G) × (Holds G ↔ ¬ SkolemOf F (trees_of c)) }
{}

/// Lawful circuits are Herbrand functions exactly where their miter is false.
pub fn herbrand_miters_decide()
    ensures { (F G : PrenexFormula) → (c : CertificateView) → IsFormula F → AreCircuits c → LawfulHerbrand F.prefix (trees_of c) →
        IsCnf (herbrand_miter F c) G → (HerbrandOf F (trees_of c) ↔ ¬ Holds G) × (Holds G ↔ ¬ HerbrandOf F (trees_of c)) }
{}

/// Clauses in literal order are satisfied where they were.
pub fn order_keeps_satisfaction()
    ensures { (X : Matrix) → (A : Assignment) → MatrixTrue A (in_order X) ↔ MatrixTrue A X }
{}

/// Three clauses for each gate, one for each literal or clause of IN, and two.
pub fn miters_are_small()
    ensures skolem { (F : PrenexFormula) → (c : CertificateView) →
        length (skolem_miter F c) ≡ 3 * length c.gates + literals_in F.matrix + 2 }
    ensures herbrand { (F : PrenexFormula) → (c : CertificateView) →
        length (herbrand_miter F c) ≡ 3 * length c.gates + length F.matrix + 1 }
{}

/// So many literals at most, and no number but those of the variables, the inputs and one for each gate, clause and the constant.
pub fn miters_keep_limits()
    ensures skolem { (F : PrenexFormula) → (c : CertificateView) → IsFormula F → AreCircuits c →
        VarsUpTo (top_of F c + length c.gates + length F.matrix + 1) (skolem_miter F c)
        × (literals_in (skolem_miter F c) ≤ 7 * length c.gates + 2 * literals_in F.matrix + length F.matrix + 1) }
    ensures herbrand { (F : PrenexFormula) → (c : CertificateView) → IsFormula F → AreCircuits c →
        VarsUpTo (top_of F c + length c.gates + 1) (herbrand_miter F c)
        × (literals_in (herbrand_miter F c) ≤ 7 * length c.gates + literals_in F.matrix + 1) }
    ensures lean { (F : PrenexFormula) → (c : CertificateView) → IsFormula F → AreCircuits c →
        VarsUpTo (top_of F c + length c.gates + length F.matrix + 1) (lean_miter F c)
        × (literals_in (lean_miter F c) ≤ 7 * length c.gates + 2 * literals_in F.matrix + length F.matrix + 1) }
{}

/// Clauses of IN that are true at once, by what the gates say, need no selectors.
pub fn lean_miters_decide()
    ensures decide { (F G : PrenexFormula) → (c : CertificateView) → IsFormula F → AreCircuits c → Lawful F.prefix (trees_of c) →
        IsCnf (lean_miter F c) G → (SkolemOf F (trees_of c) ↔ ¬ Holds G) × (Holds G ↔ ¬ SkolemOf F (trees_of c)) }
    ensures smaller { (F : PrenexFormula) → (c : CertificateView) → length (lean_miter F c) ≤ length (skolem_miter F c) }
{}
