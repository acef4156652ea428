// The proof is read once, forward, and no further than to the empty clause: each step is taken as soon as it is read. Its proof part, if it
// has one, is not looked at.
ghost use Rattle.std.specs.Prelude.{◌≡◌, ◌≤◌, ◌<◌, ◌+◌, List, ℕ, length, take, drop, IfOk, IfErr, OnOk, IfSome, [], ◌++◌};
ghost use Rattle.q_io.specs.Files.{RoseFor, bytes_at};
ghost use Rattle.q_binary.specs.Forms.{left_of};
ghost use Rattle.q_command.specs.Reading.{OnlyReadsFiles};
ghost use Rattle.q_command.specs.Parts.{share_of};
ghost use Rattle.q_run_disprove.specs.Disproofs.{proof_of};
ghost use Rattle.q_run_show.specs.Readings.{Advances, EndsAtOnce, HasTaken, IsFault, IsOpen, IsStarted, SaysEnd, Tells};

use crate::ending::Ending;
use crate::scribe::Scribe;
use q_binary::ProofReader;
use q_command::{Outcome, Part, log_refusal};
use q_io::{DeviceError, Files};
use q_logic::{Formula, Limits};
use std::alloc::Global;

/// The reader of a proof, and the text of the part's steps so far.
#[derive(Drop)]
pub(crate) struct Reading {
    reader: ProofReader,
    scribe: Scribe,
}

// The empty clause does not come.
fn refused(why: Outcome) -> Ending
    ensures { result ≡ Ending.Refused why }
{
    Ending::Refused { why }
}

impl Reading {
    /// Nothing is read, and the proof begins with this formula, unless the empty clause is in it.
    pub fn start(
        alloc: Global,
        formula: &Formula,
        binary: bool,
        part: Part,
    ) -> Result<Reading, Ending>
        ensures started { IfOk result (IsStarted binary part formula.now) }
        ensures lost { IfErr result (EndsAtOnce (share_of part) formula.now) }
    {
        let Ok(reader) = ProofReader::new(alloc, Limits::standard().bytes, binary) else {
            return Err(refused(Outcome::NoMemory));
        };
        match Scribe::start(alloc, formula, part) {
            Ok(scribe) => Ok(Reading { reader, scribe }),
            Err(ending) => Err(ending),
        }
    }

    // Takes some bytes at the front of the piece, and the step that the last of them makes whole. The memory of a step serves for the next
    // one.
    fn take_some(&mut self, piece: &[u8]) -> Result<usize, Ending>
        requires some { 0 < length piece.now }
        requires goes_on { IsOpen self.old }
        ensures within { IfOk result (λ n. (0 < n) × (n ≤ length piece.now)) }
        ensures ok { IfOk result (λ n. Advances self.old self.new (take n piece.now)) }
        ensures tells { IfErr result (λ e. (rest : List ℕ) →
            Tells e self.old (piece.now ++ rest)) }
        ensures fault { IfErr result (λ e. IsFault e → ⊥) }
    {
        match self.reader.next(piece) {
            Ok((count, None)) => Ok(count),
            Ok((count, Some((line, step, proof)))) => match self.scribe.take(line, &step) {
                Ok(()) => {
                    self.reader.keep(step, proof);
                    Ok(count)
                }
                Err(ending) => Err(ending),
            },
            Err(error) => Err(refused(log_refusal(error))),
        }
    }

    // Takes the bytes of a piece.
    fn take_piece(&mut self, piece: &[u8]) -> Result<(), Ending>
        requires { IsOpen self.old }
        ensures ok { OnOk result (Advances self.old self.new piece.now) }
        ensures tells { IfErr result (λ e. (rest : List ℕ) →
            Tells e self.old (piece.now ++ rest)) }
        ensures fault { IfErr result (λ e. IsFault e → ⊥) }
    {
        let mut at = 0;
        while at < piece.len() {
            match self.take_some(&piece[at..]) {
                Ok(count) => at += count,
                Err(ending) => return Err(ending),
            }
        }
        Ok(())
    }

    // Reads the next piece of the proof, and takes it.
    fn read_piece<F: Files>(
        &mut self,
        files: &mut F,
        name: &str,
        at: u64,
        buffer: &mut [u8],
    ) -> Result<usize, Ending>
        requires place { at ≤ 1099511627776 }
        requires room { 0 < length buffer.old }
        requires goes_on { IsOpen self.old }
        ensures goes_on { OnOk result (IsOpen self.new) }
        ensures left { IfOk result (λ n. left_of self.new.reader + n ≡ left_of self.old.reader) }
        ensures taken { IfOk result (λ n. IfSome (F.held files.old)
            (λ disk. HasTaken (bytes_at disk name.now) at n self.old self.new)) }
        ensures tells { IfErr result (λ e. IfSome (F.held files.old)
            (λ disk. Tells e self.old (drop at (bytes_at disk name.now)))) }
        ensures fault { IfErr result (λ e. IsFault e
            → RoseFor F.read_faults name.now files.old files.new) }
        ensures only_reads { OnlyReadsFiles F.Files files.old files.new }
    {
        let count = match files.read(name, at, buffer) {
            Ok(count) => count,
            Err(DeviceError::Failed) => return Err(refused(Outcome::ReadFault)),
            Err(DeviceError::NoMemory) => return Err(refused(Outcome::NoMemory)),
        };
        match self.take_piece(&buffer[..count]) {
            Ok(()) => Ok(count),
            Err(ending) => Err(ending),
        }
    }

    // What there is to say where the proof has come to its end, which may make a step whole.
    fn finish(self) -> Ending
        requires { IsOpen self }
        ensures tells { Tells result self [] }
        ensures fault { IsFault result → ⊥ }
    {
        let Reading { reader, mut scribe } = self;
        match reader.finish() {
            Ok(None) => refused(Outcome::RefusedEnd { cause: 11 }),
            Ok(Some((line, step, _))) => match scribe.take(line, &step) {
                Ok(()) => refused(Outcome::RefusedEnd { cause: 11 }),
                Err(ending) => ending,
            },
            Err(error) => refused(log_refusal(error)),
        }
    }
}

// What there is to say of the proof in a file, of which nothing is read yet.
fn read_all<F: Files>(files: &mut F, name: &str, buffer: &mut [u8], mut reading: Reading) -> Ending
    requires room { 0 < length buffer.old }
    requires goes_on { IsOpen reading }
    requires left { left_of reading.reader ≡ 1099511627776 }
    ensures tells { IfSome (F.held files.old)
        (λ disk. Tells result reading (bytes_at disk name.now)) }
    ensures fault { IsFault result → RoseFor F.read_faults name.now files.old files.new }
    ensures only_reads { OnlyReadsFiles F.Files files.old files.new }
{
    let mut at = 0u64;
    loop {
        match reading.read_piece(files, name, at, buffer) {
            Ok(0) => return reading.finish(),
            Ok(count) => at += count as u64,
            Err(ending) => return ending,
        }
    }
}

/// How the reading of a proof ends that begins with a formula.
pub(crate) fn read_proof<F: Files>(
    alloc: Global,
    files: &mut F,
    name: &str,
    buffer: &mut [u8],
    formula: &Formula,
    binary: bool,
    part: Part,
) -> Ending
    requires room { 0 < length buffer.old }
    ensures says { IfSome (F.held files.old) (λ disk.
        SaysEnd (share_of part) result formula.now (proof_of binary (bytes_at disk name.now))) }
    ensures fault { IsFault result → RoseFor F.read_faults name.now files.old files.new }
    ensures only_reads { OnlyReadsFiles F.Files files.old files.new }
{
    match Reading::start(alloc, formula, binary, part) {
        Ok(reading) => read_all(files, name, buffer, reading),
        Err(ending) => ending,
    }
}
