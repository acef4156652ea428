//! Herbrand functions by a refutation alone: at the empty clause each universal is 0, and the reversals of the steps that led there
//! carry these circuits back, from the last to the first.
ghost use Rattle.std.specs.Prelude.{IfOk, List};
ghost use Rattle.q_logic.specs.Prelude.{ProofStep};
ghost use Rattle.q_refutation.specs.Refutations.{IsLost};
ghost use Rattle.q_herbrand.specs.Disproved.{IsDisproved};
ghost use Rattle.q_herbrand.specs.Trails.{HasMade};

use crate::carrying::carry;
use crate::exchanging::exchange;
use crate::trail::Trail;
use q_aig::Certificate;
use q_certificate::narrow;
use q_logic::{Formula, NoMemory};
use std::alloc::Global;

/// Herbrand functions of a formula from which the steps noted lead to the empty clause.
pub fn disprove(alloc: Global, input: &Formula, trail: Trail) -> Result<Certificate, NoMemory>
    requires { (ss : List ProofStep) × HasMade input.now ss trail × IsLost trail.formula }
    ensures { IfOk result (IsDisproved input.now trail) }
{
    let prefix = input.prefix();
    let zeros = trail.zeros(prefix)?;
    let reversals = trail.finish();
    let turned = exchange(alloc, prefix)?;
    let wide = carry(alloc, input, &turned, &reversals, &zeros)?;
    let made = narrow(alloc, &turned, &wide)?;
    Ok(made)
}
