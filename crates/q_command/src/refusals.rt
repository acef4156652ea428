// What is said of a log that is refused.
ghost use Rattle.std.specs.Prelude.{◌≡◌};
ghost use Rattle.q_command.specs.Checks.{IsUnverified};
ghost use Rattle.q_command.specs.Refusals.{log_refused, step_refused};

use crate::outcome::Outcome;
use q_check::CheckError;
use q_log::LogError;

/// What is said of a log that can't be read on.
pub fn log_refusal(error: LogError) -> Outcome
    ensures is { result ≡ log_refused error }
    ensures unverified { IsUnverified result }
{
    match error {
        LogError::BadLine { line } => Outcome::RefusedLine { line, cause: 1 },
        LogError::Limit { line } => Outcome::RefusedLine { line, cause: 8 },
        LogError::NoMemory => Outcome::NoMemory,
    }
}

/// What is said of a step on this line that is refused.
pub fn step_refusal(line: u64, error: CheckError) -> Outcome
    ensures is { result ≡ step_refused line error }
    ensures unverified { IsUnverified result }
{
    match error {
        CheckError::Refused { cause } => Outcome::RefusedLine { line, cause },
        CheckError::NoMemory => Outcome::NoMemory,
    }
}
