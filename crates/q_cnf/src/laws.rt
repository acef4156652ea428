//! A law on the text: the contract of a function that does nothing.
ghost use Rattle.q_logic.specs.Prelude.{Matrix, standard};
ghost use Rattle.q_dimacs.specs.Building.{formula_of};
ghost use Rattle.q_dimacs.specs.Dimacs.{Dimacs};
ghost use Rattle.q_miter.specs.Miters.{IsCnf};
ghost use Rattle.q_cnf.specs.Cnf.{AreClauses, AreInLimits, cnf_text, no_sets};

/// The text of clauses within the limits is a formula file, and its formula has these clauses, with existentials alone.
pub fn cnf_is_read()
    ensures { (X : Matrix) → AreClauses X → AreInLimits standard X
        → Dimacs standard (cnf_text X) (formula_of no_sets X) × IsCnf X (formula_of no_sets X) }
{}
