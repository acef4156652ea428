// How the reading of a proof ends.
ghost use Rattle.std.specs.Prelude.{◌≡◌};

use crate::disproved::Disproved;
use crate::notes::Notes;

/// What there is to say, and the notes of the steps up to the empty clause, if it is there.
#[derive(Drop)]
pub(crate) struct Verdict {
    pub outcome: Disproved,
    pub notes: Notes,
}

impl Verdict {
    /// Where the empty clause is not there.
    pub fn of(outcome: Disproved) -> Verdict
        ensures { result ≡ record { outcome = outcome; notes = Notes.Unkept } }
    {
        Verdict {
            outcome,
            notes: Notes::Unkept,
        }
    }
}
