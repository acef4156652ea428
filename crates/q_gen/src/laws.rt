//! A law on the definition of generated formulas.
ghost use Rattle.std.specs.Prelude.{◌≤◌, ℕ};
ghost use Rattle.q_logic.specs.Prelude.{standard};
ghost use Rattle.q_dimacs.specs.Dimacs.{Dimacs};
ghost use Rattle.q_dimacs.specs.Writing.{formula_text};
ghost use Rattle.q_gen.specs.Generated.{Generated};

use q_dimacs::written_within_limits_is_read;

/// The text of a generated formula is a formula file within the limits of the program, and is read as this formula.
pub fn generated_is_read()
    ensures { (seed : ℕ) → (size : ℕ) → size ≤ 100000
        → Dimacs standard (formula_text (Generated seed size)) (Generated seed size) }
{
    written_within_limits_is_read();
}
