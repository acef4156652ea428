// A log is tried step by step, while it is read.
ghost use Rattle.std.specs.Prelude.{◌≡◌, ◌≤◌, ◌<◌, ◌+◌, List, ℕ, false, length, take, IfOk, IfErr, OnOk, IfSome, IsErrOf, [], ◌++◌, drop};
ghost use Rattle.q_logic.specs.Prelude.{PrenexFormula};
ghost use Rattle.q_io.specs.Files.{RoseFor, bytes_at};
ghost use Rattle.q_command.specs.Reading.{OnlyReadsFiles};
ghost use Rattle.q_command.specs.Checks.{IsUnverified};
ghost use Rattle.q_command.specs.LazyCheckers.{IsHeld};
ghost use Rattle.q_command.specs.Parts.{share_of};
ghost use Rattle.q_command.specs.Audits.{IsOpen, Advances, Refuses, HasTaken, HasEnded, HasLeft, HasFailed, Passes, Concludes, IsStarted};

use crate::judges::Judges;
use crate::origin::Origin;
use crate::outcome::Outcome;
use crate::part::Part;
use crate::refusals::log_refusal;
use crate::taken::{Taken, TakenStep};
use crate::trial::Trial;
use q_check::{CheckError, Undos};
use q_hinted::BothReader;
use q_io::{DeviceError, Files};
use q_logic::{Formula, Limits, NoMemory};
use std::alloc::Global;

/// What is kept of a log while it is checked: the undo list of its steps, and the steps with their lines.
#[derive(Clone, Copy)]
pub struct Keep {
    pub undo: bool,
    pub steps: bool,
}

/// What is left of a log that leads to the output, with the number of steps that were judged; on demand the formula that they begin
/// with.
#[derive(Drop)]
pub(crate) struct Passed {
    pub origin: Origin,
    pub steps: u64,
    pub undo: Undos,
    pub taken: Vec<TakenStep>,
}

/// The reader of a log of either profile, and the steps so far on trial.
#[derive(Drop)]
pub(crate) struct Audit {
    reader: BothReader,
    trial: Trial,
}

impl Audit {
    /// Nothing is read, and the log begins with this formula.
    pub fn start(alloc: Global, origin: Origin, keep: Keep, part: Part) -> Result<Audit, NoMemory>
        requires { (k : ℕ) → share_of part k ≡ false → keep.undo ≡ false }
        ensures start { IfOk result (λ a.
            (F : PrenexFormula) → IsHeld F origin → IsStarted a keep part F) }
        ensures left { IfOk result (λ a. a.reader.left ≡ 1099511627776) }
        ensures goes_on { IfOk result IsOpen }
    {
        let Ok(reader) = BothReader::new(alloc, Limits::standard().bytes) else {
            return Err(NoMemory);
        };
        let judges = Judges::new(alloc, origin, keep.undo);
        let taken = Taken::new(alloc, keep.steps);
        Ok(Audit {
            reader,
            trial: Trial {
                part,
                judges,
                taken,
            },
        })
    }

    // Takes some bytes at the front of the piece, and tries the step that the last of them makes whole. The memory of one
    // that isn't kept serves for the next one.
    fn take_some(&mut self, piece: &[u8]) -> Result<usize, Outcome>
        requires some { 0 < length piece.now }
        requires goes_on { IsOpen self.old }
        ensures within { IfOk result (λ n. (0 < n) × (n ≤ length piece.now)) }
        ensures ok { IfOk result (λ n. Advances self.old self.new (take n piece.now)) }
        ensures refused { IfErr result (λ o. (rest : List ℕ) →
            Refuses o self.old (piece.now ++ rest)) }
        ensures unverified { IfErr result IsUnverified }
        ensures fault { IsErrOf result Outcome.ReadFault → ⊥ }
    {
        match self.reader.next(piece) {
            Ok((count, None)) => Ok(count),
            Ok((count, Some((line, step, proof)))) => {
                match self.trial.take(line, step, &proof) {
                    Ok(Some(step)) => {
                        self.reader.keep(step, proof);
                        Ok(count)
                    }
                    Ok(None) => Ok(count),
                    Err(outcome) => Err(outcome),
                }
            }
            Err(error) => Err(log_refusal(error)),
        }
    }

    // Takes the bytes of a piece.
    fn take_piece(&mut self, piece: &[u8]) -> Result<(), Outcome>
        requires { IsOpen self.old }
        ensures ok { OnOk result (Advances self.old self.new piece.now) }
        ensures refused { IfErr result (λ o. (rest : List ℕ) →
            Refuses o self.old (piece.now ++ rest)) }
        ensures unverified { IfErr result IsUnverified }
        ensures fault { IsErrOf result Outcome.ReadFault → ⊥ }
    {
        let mut at = 0;
        while at < piece.len() {
            match self.take_some(&piece[at..]) {
                Ok(count) => at += count,
                Err(outcome) => return Err(outcome),
            }
        }
        Ok(())
    }

    /// Reads the next piece of the log, and takes it.
    pub fn read_piece<F: Files>(
        &mut self,
        files: &mut F,
        name: &str,
        at: u64,
        buffer: &mut [u8],
    ) -> Result<usize, Outcome>
        requires place { at ≤ 1099511627776 }
        requires room { 0 < length buffer.old }
        requires goes_on { IsOpen self.old }
        ensures goes_on { OnOk result (IsOpen self.new) }
        ensures advances { OnOk result ((bytes : List ℕ) × Advances self.old self.new bytes) }
        ensures left { IfOk result (λ n. self.new.reader.left + n ≡ self.old.reader.left) }
        ensures taken { IfOk result (λ n. IfSome (F.held files.old)
            (λ disk. HasTaken (bytes_at disk name.now) at n self.old self.new)) }
        ensures refused { IfErr result (λ o. IfSome (F.held files.old)
            (λ disk. Refuses o self.old (drop at (bytes_at disk name.now)))) }
        ensures unverified { IfErr result IsUnverified }
        ensures fault { IsErrOf result Outcome.ReadFault
            → RoseFor F.read_faults name.now files.old files.new }
        ensures only_reads { OnlyReadsFiles F.Files files.old files.new }
    {
        let count = match files.read(name, at, buffer) {
            Ok(count) => count,
            Err(DeviceError::Failed) => return Err(Outcome::ReadFault),
            Err(DeviceError::NoMemory) => return Err(Outcome::NoMemory),
        };
        match self.take_piece(&buffer[..count]) {
            Ok(()) => Ok(count),
            Err(outcome) => Err(outcome),
        }
    }

    /// What is left where the log has come to its end, or what there is to say of it.
    pub fn finish(self, output: &Formula) -> Result<Passed, Outcome>
        requires { IsOpen self }
        ensures passed { IfOk result (Passes self output.now) }
        ensures refused { IfErr result (λ o. Concludes o self output.now) }
        ensures unverified { IfErr result IsUnverified }
        ensures fault { IsErrOf result Outcome.ReadFault → ⊥ }
    {
        match self.take_last() {
            Ok(trial) => end(trial, output),
            Err(outcome) => Err(outcome),
        }
    }

    // Tries the step that the end of the log makes whole, if there is one.
    fn take_last(self) -> Result<Trial, Outcome>
        requires { IsOpen self }
        ensures ended { IfOk result (HasEnded self) }
        ensures refused { IfErr result (λ o. Refuses o self []) }
        ensures unverified { IfErr result IsUnverified }
        ensures fault { IsErrOf result Outcome.ReadFault → ⊥ }
    {
        let Audit { reader, mut trial } = self;
        match reader.finish() {
            Ok(None) => Ok(trial),
            Ok(Some((line, step, proof))) => match trial.take(line, step, &proof) {
                Ok(_) => Ok(trial),
                Err(outcome) => Err(outcome),
            },
            Err(error) => Err(log_refusal(error)),
        }
    }
}

// What is left where all steps are valid.
fn end(trial: Trial, output: &Formula) -> Result<Passed, Outcome>
    ensures passed { IfOk result (λ p. HasLeft trial output.now p) }
    ensures refused { IfErr result (λ o. HasFailed o trial output.now) }
    ensures unverified { IfErr result IsUnverified }
    ensures fault { IsErrOf result Outcome.ReadFault → ⊥ }
{
    let Trial {
        part: _,
        judges,
        taken,
    } = trial;
    match judges.finish(output) {
        Ok(judged) => Ok(Passed {
            origin: judged.origin,
            steps: taken.judged,
            undo: judged.undo,
            taken: taken.steps,
        }),
        Err(CheckError::Refused { cause }) => Err(Outcome::RefusedEnd { cause }),
        Err(CheckError::NoMemory) => Err(Outcome::NoMemory),
    }
}
