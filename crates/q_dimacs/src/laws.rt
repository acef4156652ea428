//! Laws on the definitions: each is the contract of a function that does nothing.
ghost use Rattle.std.specs.Prelude.{◌≡◌, ◌↔◌, ℕ, List, Ok};
ghost use Rattle.q_logic.specs.declared.limits.Limits.{Limits};
ghost use Rattle.q_logic.specs.Prelude.{PrenexFormula, IsInLimits, AreModerate, standard, AreWithin, IsProper};
ghost use Rattle.q_dimacs.specs.Dimacs.{Dimacs};
ghost use Rattle.q_dimacs.specs.Writing.{formula_text, KeepsLimits};
ghost use Rattle.q_dimacs.specs.Offences.{parse};

/// A text is in the grammar exactly where it has no offence, and its formula is that of the grammar.
pub fn grammar_is_read()
    ensures { (limits : Limits) → (bytes : List ℕ) → (formula : PrenexFormula)
        → Dimacs limits bytes formula ↔ (parse limits bytes ≡ Ok formula) }
{}

/// Under larger limits a text has the same formula.
pub fn larger_limits_read_the_same()
    ensures { (small : Limits) → (large : Limits) → (bytes : List ℕ) → (formula : PrenexFormula)
        → AreWithin small large → Dimacs small bytes formula → Dimacs large bytes formula }
{}

/// The canonical text of a formula that keeps the limits is read as this formula.
pub fn written_is_read()
    ensures { (limits : Limits) → (formula : PrenexFormula)
        → AreModerate limits → IsProper formula → KeepsLimits limits formula
        → Dimacs limits (formula_text formula) formula }
{}

/// The canonical text of a formula within the limits of the program is read as this formula.
pub fn written_within_limits_is_read()
    ensures { (formula : PrenexFormula) → IsProper formula → IsInLimits standard formula
        → Dimacs standard (formula_text formula) formula }
{}
