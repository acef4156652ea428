//! Tautologies. A clause that holds a literal and its negation is true under every assignment, so it may go.
//!
//! Source: folklore; in the standard of DIMACS such clauses are allowed. The condition stands in
//! `q_logic/specs/Rules/Tautology.antt`; that the clause is implied is `implied-tautology`.
//!
//! In literal order a literal and its negation are neighbours, so the test is one walk over the clause. What goes may make
//! the negations of its literals pure.
ghost use Rattle.std.specs.Prelude.{◌≡◌, ◌↔◌, Some, IsTrue};
ghost use Rattle.q_logic.specs.Prelude.{Clause, IsTautology, slot};
ghost use Rattle.q_kernel.specs.Prelude.{slots};

use q_kernel::{ClauseId, Kernel};
use q_rule::is_tautology;

/// Whether the id has a clause with a literal and its negation.
pub fn fits_tautology(kernel: &Kernel, c: ClauseId) -> bool
    ensures { IsTrue result ↔ ((C : Clause) × (slot (slots kernel.now) c ≡ Some C)
        × IsTautology C) }
{
    kernel.live(c) && is_tautology(kernel.lits(c))
}
