// What is kept of a run for circuits: the formula and the reversals of the steps, up to the first drop that has none.
ghost use Rattle.std.specs.Prelude.{◌≡◌, IfOk, OnOk};
ghost use Rattle.q_run_disprove.specs.Notes.{AreBegun, IsNoted, MayBeNoted};

use crate::boxed::BoxedTrail;
use q_herbrand::TrailError;
use q_logic::{Formula, NoMemory, Step};
use std::alloc::Global;

/// The notes of the steps so far.
#[derive(Drop)]
pub(crate) enum Notes {
    /// None are wanted.
    Unkept,
    /// The formula before all steps, and their reversals.
    Kept { formula: Formula, trail: BoxedTrail },
    /// The first extended drop stands on this line.
    Extended { line: u64 },
}

impl Notes {
    /// The notes of no step from the formula on, where they are wanted.
    pub fn start(alloc: Global, formula: Formula, keeps: bool) -> Result<Notes, NoMemory>
        ensures { IfOk result (AreBegun keeps formula) }
    {
        if !keeps {
            return Ok(Notes::Unkept);
        }
        let trail = BoxedTrail::start(alloc, &formula)?;
        Ok(Notes::Kept { formula, trail })
    }

    /// Notes a step of this line.
    pub fn note(&mut self, line: u64, step: &Step) -> Result<(), NoMemory>
        requires { MayBeNoted self.old step.now }
        ensures { OnOk result (IsNoted line step.now self.old self.new) }
    {
        let Notes::Kept { trail, .. } = self else {
            return Ok(());
        };
        match trail.note_made(step) {
            Ok(()) => Ok(()),
            Err(TrailError::NoMemory) => Err(NoMemory),
            Err(TrailError::Extended) => {
                *self = Notes::Extended { line };
                Ok(())
            }
        }
    }
}
