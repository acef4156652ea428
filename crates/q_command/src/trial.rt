// The steps of a log on trial: each is tried, counted, and on demand kept with its line.
ghost use Rattle.std.specs.Prelude.{◌≡◌, ◌<◌, ◌≤◌, ◌-◌, ◌^◌, OnOk, IfErr, IsErrOf};
ghost use Rattle.q_command.specs.Checks.{IsUnverified};
ghost use Rattle.q_command.specs.LazyCheckers.{hints_taken};
ghost use Rattle.q_command.specs.Trials.{HasTried, ConvictsBehind, MayPass};

use crate::judges::Judges;
use crate::outcome::Outcome;
use crate::part::Part;
use crate::refusals::step_refusal;
use crate::taken::Taken;
use q_logic::{NoMemory, Proof, Step};

/// The checkers behind the steps so far, what is kept of these, and which of them are judged here.
#[derive(Drop)]
pub(crate) struct Trial {
    pub part: Part,
    pub judges: Judges,
    pub taken: Taken,
}

impl Trial {
    /// Tries a step, and counts it. One that isn't kept is given back.
    pub fn take(
        &mut self,
        line: u64,
        step: Step,
        proof: &Option<Proof>,
    ) -> Result<Option<Step>, Outcome>
        requires hints { hints_taken self.old.judges.hinted < 2 ^ 61 }
        requires count { self.old.taken.count < 2 ^ 64 - 1 }
        requires fewer { self.old.taken.judged ≤ self.old.taken.count }
        requires may { MayPass self.old }
        ensures tried { OnOk result (HasTried (line, step, proof.now) self.old self.new) }
        ensures refused { IfErr result (λ o.
            ConvictsBehind o self.old (line, step, proof.now)) }
        ensures unverified { IfErr result IsUnverified }
        ensures fault { IsErrOf result Outcome.ReadFault → ⊥ }
    {
        let judged = self.part.judges(self.taken.count);
        match self.judges.step(&step, proof, judged) {
            Ok(()) => match self.taken.add(line, step, judged) {
                Ok(back) => Ok(back),
                Err(NoMemory) => Err(Outcome::NoMemory),
            },
            Err(error) => Err(step_refusal(line, error)),
        }
    }
}
