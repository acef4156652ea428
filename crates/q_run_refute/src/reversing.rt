//! The reversals of a log's steps: each kept step is noted in its order, until one is an extended drop.
ghost use Rattle.std.specs.Prelude.{◌≡◌, IfOk, IfErr};
ghost use Rattle.q_logic.specs.Prelude.{PrenexFormula, standard, ValidSteps};
ghost use Rattle.q_logic.specs.Reversals.{Reversals as ReversalsOf};
ghost use Rattle.q_command.specs.Logs.{steps_of};
ghost use Rattle.q_command.specs.Taken.{entries_of};
ghost use Rattle.q_run_refute.specs.Reversing.{IsUnreversed, reason_of as reason_by};

use q_command::TakenStep;
use q_herbrand::{Reversals, Trail, TrailError};
use q_logic::Formula;
use std::alloc::Global;

/// Why steps have no reversals.
#[derive(Clone, Copy, Debug, PartialEq, Eq)]
pub enum Unreversed {
    /// The first extended drop begins on this line.
    Extended { line: u64 },
    NoMemory,
}

fn reason_of(error: TrailError, line: u64) -> Unreversed
    ensures { result ≡ reason_by error line }
{
    match error {
        TrailError::Extended => Unreversed::Extended { line },
        TrailError::NoMemory => Unreversed::NoMemory,
    }
}

/// The reversals of steps that are valid from a formula on.
pub fn reversals_of(
    alloc: Global,
    from: &Formula,
    taken: &[TakenStep],
) -> Result<Reversals, Unreversed>
    requires { (E : PrenexFormula)
        × ValidSteps standard from.now (steps_of (entries_of taken.now)) E }
    ensures reversals { IfOk result (ReversalsOf from.now (steps_of (entries_of taken.now))) }
    ensures refused { IfErr result (IsUnreversed from.now (entries_of taken.now)) }
{
    let mut trail = match Trail::start(alloc, from) {
        Ok(trail) => trail,
        Err(_) => return Err(Unreversed::NoMemory),
    };
    for at in 0..taken.len() {
        match trail.note(&taken[at].step) {
            Ok(()) => {}
            Err(error) => return Err(reason_of(error, taken[at].line)),
        }
    }
    Ok(trail.finish())
}
