//! Laws on Herbrand functions: circuits of the universals under which some clause is always false. A formula fails
//! exactly where it has some, and the reversals of a run carry them from its end to its beginning. Each law is the
//! contract of a function that does nothing.
ghost use Rattle.std.specs.Prelude.{◌↔◌, List};
ghost use Rattle.q_logic.specs.declared.limits.Limits.{Limits};
ghost use Rattle.q_logic.specs.Formulas.{PrenexFormula};
ghost use Rattle.q_logic.specs.Prefixes.{IsFormula};
ghost use Rattle.q_logic.specs.Truth.{Holds};
ghost use Rattle.q_logic.specs.Skolems.{Strategy};
ghost use Rattle.q_logic.specs.Steps.{ProofStep, Valid};
ghost use Rattle.q_logic.specs.Runs.{Run};
ghost use Rattle.q_logic.specs.Herbrands.{HerbrandOf, LawfulHerbrand};
ghost use Rattle.q_logic.specs.Reversals.{Reversal, IsExtended, Reversed, Reversals, NoneExtended, Forth};

/// A formula fails exactly where it has Herbrand functions.
pub fn falsity_is_herbrand()
    ensures { (F : PrenexFormula) → IsFormula F → ¬ Holds F ↔ ((c : Strategy) × HerbrandOf F c) }
{}

/// Circuits of the end of a run without extended drops, carried over its reversals, are circuits of its beginning:
/// Herbrand functions where they were Herbrand functions, and lawful ones in any case.
pub fn runs_refute()
    ensures herbrand { (F G : PrenexFormula) → (ss : List ProofStep) → (rs : List Reversal)
        → (c : Strategy) →
        IsFormula F → Run F ss G → Reversals F ss rs → HerbrandOf G c → HerbrandOf F (Forth rs c) }
    ensures lawful { (F G : PrenexFormula) → (ss : List ProofStep) → (rs : List Reversal)
        → (c : Strategy) →
        IsFormula F → Run F ss G → Reversals F ss rs → LawfulHerbrand G.prefix c
        → LawfulHerbrand F.prefix (Forth rs c) }
{}

/// Steps that have reversals have no extended drop among them.
pub fn reversals_are_of_plain_runs()
    ensures { (F : PrenexFormula) → (ss : List ProofStep) → (rs : List Reversal) → Reversals F ss rs
        → NoneExtended F ss }
{}

/// A valid step that is not extended has reversals.
pub fn other_steps_have_reversals()
    ensures { (m : Limits) → (F : PrenexFormula) → (s : ProofStep) → Valid m F s → ¬ IsExtended F s
        →
        ¬ ((rs : List Reversal) → ¬ Reversed F s rs) }
{}
