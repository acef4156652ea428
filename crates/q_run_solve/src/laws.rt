//! The law on statuses: the contract of a function that does nothing.
ghost use Rattle.std.specs.Prelude.{ℕ, Option};
ghost use Rattle.q_io.specs.Files.{Disk};
ghost use Rattle.q_command.specs.Sinks.{SinkView, IsDue};
ghost use Rattle.q_command.specs.declared.status.Status.{Status};
ghost use Rattle.q_run_solve.specs.declared.solved.Solved.{Solved};
ghost use Rattle.q_run_solve.specs.SolvedLines.{status_of_solved};
ghost use Rattle.q_run_solve.specs.Solves.{SolveFiles, Solves, SolvesExactly};

/// When each status comes, whether or not the line could be put.
pub fn statuses_are_exact()
    ensures { (given : Status) → (n : SolveFiles) → (budget : Option ℕ) → (before : Disk)
        → (after : Option Disk) → (due : Solved) → (old : SinkView) → (new : SinkView)
        → Solves due n budget before after → IsDue (status_of_solved due) given old new
        → SolvesExactly given n budget before after }
{}
