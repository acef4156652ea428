// The log is read once, upward: each step is tried as soon as it is read.
ghost use Rattle.std.specs.Prelude.{◌≡◌, ◌≤◌, ◌<◌, ◌+◌, List, ℕ, length, take, drop, IfOk, IfErr, OnOk, IfSome, IsErrOf, [], ◌++◌};
ghost use Rattle.q_io.specs.Files.{RoseFor, bytes_at};
ghost use Rattle.q_command.specs.Reading.{OnlyReadsFiles};
ghost use Rattle.q_command.specs.Checks.{IsUnverified};
ghost use Rattle.q_command.specs.Parts.{share_of};
ghost use Rattle.q_run_annotate.specs.AnnotatedShares.{IsShareAnnotation};
ghost use Rattle.q_run_annotate.specs.AnnotatedParts.{LogRefusesShared};
ghost use Rattle.q_run_annotate.specs.Readings.{IsOpen, IsStarted, Advances, Refuses, HasTaken, HasEnded, Passes, Concludes};

use crate::scribe::{HintedText, Scribe};
use q_command::{Ends, Outcome, Part, log_refusal};
use q_io::{DeviceError, Files};
use q_log::LogReader;
use q_logic::{Formula, Limits, NoMemory};
use std::alloc::Global;

/// The reader of a plain log, and the text of the part's steps so far.
#[derive(Drop)]
pub(crate) struct Reading {
    reader: LogReader,
    scribe: Scribe,
}

impl Reading {
    fn start(alloc: Global, formula: &Formula, part: Part) -> Result<Reading, NoMemory>
        ensures { IfOk result (IsStarted formula.now part) }
    {
        let Ok(reader) = LogReader::new(alloc, Limits::standard().bytes) else {
            return Err(NoMemory);
        };
        let scribe = Scribe::start(alloc, formula, part)?;
        Ok(Reading { reader, scribe })
    }

    // Takes some bytes at the front of the piece, and tries the step that the last of them makes whole. The memory of a step
    // serves for the next one.
    fn take_some(&mut self, piece: &[u8]) -> Result<usize, Outcome>
        requires some { 0 < length piece.now }
        requires goes_on { IsOpen self.old }
        ensures within { IfOk result (λ n. (0 < n) × (n ≤ length piece.now)) }
        ensures ok { IfOk result (λ n. Advances self.old self.new (take n piece.now)) }
        ensures refused { IfErr result (λ o. (rest : List ℕ) →
            Refuses o self.old (piece.now ++ rest)) }
        ensures unverified { IfErr result IsUnverified }
        ensures fault { IsErrOf result Outcome.ReadFault → ⊥ }
    {
        match self.reader.next(piece) {
            Ok((count, None)) => Ok(count),
            Ok((count, Some((line, step)))) => match self.scribe.take(line, &step) {
                Ok(()) => {
                    self.reader.keep(step);
                    Ok(count)
                }
                Err(outcome) => Err(outcome),
            },
            Err(error) => Err(log_refusal(error)),
        }
    }

    // Takes the bytes of a piece.
    fn take_piece(&mut self, piece: &[u8]) -> Result<(), Outcome>
        requires { IsOpen self.old }
        ensures ok { OnOk result (Advances self.old self.new piece.now) }
        ensures refused { IfErr result (λ o. (rest : List ℕ) →
            Refuses o self.old (piece.now ++ rest)) }
        ensures unverified { IfErr result IsUnverified }
        ensures fault { IsErrOf result Outcome.ReadFault → ⊥ }
    {
        let mut at = 0;
        while at < piece.len() {
            match self.take_some(&piece[at..]) {
                Ok(count) => at += count,
                Err(outcome) => return Err(outcome),
            }
        }
        Ok(())
    }

    // Reads the next piece of the log, and takes it.
    fn read_piece<F: Files>(
        &mut self,
        files: &mut F,
        name: &str,
        at: u64,
        buffer: &mut [u8],
    ) -> Result<usize, Outcome>
        requires place { at ≤ 1099511627776 }
        requires room { 0 < length buffer.old }
        requires goes_on { IsOpen self.old }
        ensures goes_on { OnOk result (IsOpen self.new) }
        ensures left { IfOk result (λ n. self.new.reader.left + n ≡ self.old.reader.left) }
        ensures taken { IfOk result (λ n. IfSome (F.held files.old)
            (λ disk. HasTaken (bytes_at disk name.now) at n self.old self.new)) }
        ensures refused { IfErr result (λ o. IfSome (F.held files.old)
            (λ disk. Refuses o self.old (drop at (bytes_at disk name.now)))) }
        ensures unverified { IfErr result IsUnverified }
        ensures fault { IsErrOf result Outcome.ReadFault
            → RoseFor F.read_faults name.now files.old files.new }
        ensures only_reads { OnlyReadsFiles F.Files files.old files.new }
    {
        let count = match files.read(name, at, buffer) {
            Ok(count) => count,
            Err(DeviceError::Failed) => return Err(Outcome::ReadFault),
            Err(DeviceError::NoMemory) => return Err(Outcome::NoMemory),
        };
        match self.take_piece(&buffer[..count]) {
            Ok(()) => Ok(count),
            Err(outcome) => Err(outcome),
        }
    }

    // Tries the step that the end of the log makes whole, if there is one.
    fn take_last(self) -> Result<Scribe, Outcome>
        requires { IsOpen self }
        ensures ended { IfOk result (HasEnded self) }
        ensures refused { IfErr result (λ o. Refuses o self []) }
        ensures unverified { IfErr result IsUnverified }
        ensures fault { IsErrOf result Outcome.ReadFault → ⊥ }
    {
        let Reading { reader, mut scribe } = self;
        match reader.finish() {
            Ok(None) => Ok(scribe),
            Ok(Some((line, step))) => match scribe.take(line, &step) {
                Ok(()) => Ok(scribe),
                Err(outcome) => Err(outcome),
            },
            Err(error) => Err(log_refusal(error)),
        }
    }

    // The text of the whole log, where it leads to the output.
    fn finish(self, output: &Formula) -> Result<HintedText, Outcome>
        requires { IsOpen self }
        ensures passed { IfOk result (Passes self output.now) }
        ensures refused { IfErr result (λ o. Concludes o self output.now) }
        ensures unverified { IfErr result IsUnverified }
        ensures fault { IsErrOf result Outcome.ReadFault → ⊥ }
    {
        match self.take_last() {
            Ok(scribe) => scribe.finish(output),
            Err(outcome) => Err(outcome),
        }
    }
}

/// The text of a part of the log with hints, where its steps lead from the formula of IN to that of OUT.
pub(crate) fn read_log<F: Files>(
    alloc: Global,
    files: &mut F,
    name: &str,
    buffer: &mut [u8],
    ends: &Ends,
    part: Part,
) -> Result<HintedText, Outcome>
    requires room { 0 < length buffer.old }
    ensures annotation { IfOk result (λ t. IfSome (F.held files.old)
        (λ disk. IsShareAnnotation (share_of part) (bytes_at disk name.now) t.steps ends.now.from
        ends.now.to t.text.items)) }
    ensures refused { IfErr result (λ o. IfSome (F.held files.old)
        (λ disk. LogRefusesShared (share_of part) o ends.now.from ends.now.to
        (bytes_at disk name.now))) }
    ensures unverified { IfErr result IsUnverified }
    ensures fault { IsErrOf result Outcome.ReadFault
        → RoseFor F.read_faults name.now files.old files.new }
    ensures only_reads { OnlyReadsFiles F.Files files.old files.new }
{
    let Ok(mut reading) = Reading::start(alloc, &ends.from, part) else {
        return Err(Outcome::NoMemory);
    };
    let mut at = 0u64;
    loop {
        match reading.read_piece(files, name, at, buffer) {
            Ok(0) => return reading.finish(&ends.to),
            Ok(count) => at += count as u64,
            Err(outcome) => return Err(outcome),
        }
    }
}
