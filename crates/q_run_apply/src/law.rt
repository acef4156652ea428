//! What `apply` makes of a log that `check` verifies.
ghost use Rattle.std.specs.Prelude.{◌≡◌, ℕ, List, Some};
ghost use Rattle.q_logic.specs.Prelude.{PrenexFormula, SameFormula};
ghost use Rattle.q_command.specs.Checks.{LeadsTo};
ghost use Rattle.q_run_apply.specs.Applications.{CanBeMade, Makes};

/// Where `check` verifies that LOG leads from the formula of IN to that of OUT, `apply` makes a formula with the same blocks and clauses of
/// IN and LOG: the files that `simplify` leaves are of this kind.
pub fn verified_logs_are_applied()
    ensures made { (F G H : PrenexFormula) → (steps : ℕ) → (log : List ℕ) → LeadsTo log F G
        → Makes F log steps H → SameFormula H G }
    ensures can { (F G : PrenexFormula) → (log : List ℕ) → LeadsTo log F G → CanBeMade F log }
{}
