// The laws of plain logs: the reader and the grammar say the same, runs and targets can be logged, refusals are least.
ghost use Rattle.std.specs.Prelude.{◌≡◌, ◌↔◌, ◌≤◌, ℕ, List, Some, length};
ghost use Rattle.std.specs.List.{AllByRecursion};
ghost use Rattle.q_logic.specs.declared.rule_bounds.Bounds.{Bounds};
ghost use Rattle.q_logic.specs.Prelude.{Prefix, PrenexFormula, IsInLimits, standard, Slots, live, formula_of, IsProper, Applicable, result_of, Run, ProofStep, swept, Target};
ghost use Rattle.q_log.specs.Logs.{Steps};
ghost use Rattle.q_log.specs.Fronts.{RefusalsAreLeast};
ghost use Rattle.q_log.specs.Spelled.{Log};
ghost use Rattle.q_log.specs.Texts.{IsLogged, on_lines, steps_text};

/// A log is read, as its steps, exactly where it is spelled in the grammar.
pub fn grammar_is_read()
    ensures { (limit : ℕ) → (bytes : List ℕ) → (steps : List (ℕ × ProofStep)) →
        Log limit bytes steps ↔ (Steps limit bytes ≡ Some steps) }
{}

/// The canonical text of steps is a log of these steps, each on a line of its own.
pub fn texts_are_read()
    ensures { (limit : ℕ) → (steps : List ProofStep) → AllByRecursion IsLogged steps →
        length (steps_text steps) ≤ limit →
        Steps limit (steps_text steps) ≡ Some (on_lines 1 steps) }
{}

/// Where a run leads from a formula that the code may hold to another one, a run of steps that a log can hold does.
pub fn runs_can_be_logged()
    ensures { (F G : PrenexFormula) → (ss : List ProofStep) → IsProper F → IsProper G → Run F ss G →
        (ts : List ProofStep) × Run F ts G × AllByRecursion IsLogged ts }
{}

/// The run to the result of an applicable target may be one of steps that a log can hold.
pub fn targets_can_be_logged()
    ensures { (B : Bounds) → (P : Prefix) → (N : Slots) → (t : Target) →
        IsProper (formula_of P (live N)) → IsInLimits standard (formula_of P (live N))
        → Applicable B P N t →
        (ss : List ProofStep) × Run (formula_of P (live N)) ss (result_of P N t)
        × AllByRecursion IsLogged ss }
{}

/// The run that sweeps a formula may be one of steps that a log can hold.
pub fn sweeping_can_be_logged()
    ensures { (F : PrenexFormula) → IsProper F → IsInLimits standard F →
        (ss : List ProofStep) × Run F ss (swept F) × AllByRecursion IsLogged ss }
{}

/// A log is refused at the end of the shortest front of its tokens that no log continues, at its own end where it ends inside a step,
/// or at the first byte past the limit.
pub fn log_refusals_are_least()
    ensures { RefusalsAreLeast }
{}
