// The proof is read once, forward, and no further than to the empty clause: each step is made as soon as it is read.
ghost use Rattle.std.specs.Prelude.{◌≡◌, ◌≤◌, ◌<◌, ◌+◌, ◌^◌, true, false, IsTrue, List, ℕ, length, take, drop, IfOk, IfErr, OnOk, IfSome, [], ◌++◌};
ghost use Rattle.q_io.specs.Files.{RoseFor, bytes_at};
ghost use Rattle.q_command.specs.Reading.{OnlyReadsFiles};
ghost use Rattle.q_command.specs.Parts.{IsWhole, share_of};
ghost use Rattle.q_binary.specs.Forms.{left_of};
ghost use Rattle.q_refutation.specs.Refutations.{IsLost};
ghost use Rattle.q_run_disprove.specs.Judges.{IsJudging, steps_in};
ghost use Rattle.q_run_disprove.specs.JudgedReadings.{Advances, Concludes, HasTaken, IsOpen, IsStarted, Tells};
ghost use Rattle.q_run_disprove.specs.Readings.{IsReady, TellsAtOnce, log_refused};

use crate::disproved::Disproved;
use crate::form::Form;
use crate::judge::Judge;
use crate::refuter::Refuter;
use crate::verdict::Verdict;
use q_binary::ProofReader;
use q_command::Part;
use q_hinted::Entry;
use q_io::{DeviceError, Files};
use q_log::LogError;
use q_logic::{Formula, Limits};
use std::alloc::Global;

/// The reader of a proof, and who judges its steps.
#[derive(Drop)]
pub(crate) struct Reading {
    reader: ProofReader,
    judge: Judge,
}

fn log_refusal(error: LogError) -> Disproved
    ensures is { result ≡ log_refused error }
    ensures fault { result ≡ Disproved.ReadFault → ⊥ }
{
    match error {
        LogError::BadLine { line } => Disproved::RefusedLine { line, cause: 1 },
        LogError::Limit { line } => Disproved::RefusedLine { line, cause: 8 },
        LogError::NoMemory => Disproved::NoMemory,
    }
}

// Whether the empty clause is in the formula.
fn is_lost(formula: &Formula) -> bool
    ensures yes { IsTrue result → IsLost formula.now }
    ensures no { result ≡ false → ¬ IsLost formula.now }
{
    for at in 0..formula.clauses() {
        if formula.clause(at).is_empty() {
            return true;
        }
    }
    false
}

// What there is to say by the end of the proof, which may make a step whole.
fn conclude(judge: &mut Judge, end: Result<Option<Entry>, LogError>) -> Verdict
    requires judging { IsJudging judge.old }
    requires few { steps_in judge.old < 2 ^ 61 }
    ensures concludes { Concludes end judge.old result }
    ensures ready { IsReady result }
    ensures fault { result.outcome ≡ Disproved.ReadFault → ⊥ }
{
    match end {
        Ok(None) => judge.stop(Disproved::RefusedEnd),
        Ok(Some((line, step, proof))) => match judge.take(line, &step, &proof) {
            Ok(()) => Verdict::of(Disproved::RefusedEnd),
            Err(verdict) => verdict,
        },
        Err(error) => judge.stop(log_refusal(error)),
    }
}

impl Reading {
    /// Nothing is read, and the proof begins with this formula, unless the empty clause is in it. Steps of the part are judged.
    pub fn start(
        alloc: Global,
        formula: Formula,
        form: Form,
        part: Part,
    ) -> Result<Reading, Verdict>
        requires whole { form.keeps ≡ true → IsWhole (share_of part) }
        requires apart { form.hints ≡ true → form.keeps ≡ false }
        ensures started { IfOk result (IsStarted form part formula) }
        ensures lost { IfErr result (TellsAtOnce form.keeps formula) }
        ensures ready { IfErr result IsReady }
        ensures fault { IfErr result (λ v. v.outcome ≡ Disproved.ReadFault → ⊥) }
    {
        let Ok(reader) = ProofReader::new(alloc, Limits::standard().bytes, form.binary) else {
            return Err(Verdict::of(Disproved::NoMemory));
        };
        if form.hints {
            if is_lost(&formula) {
                return Err(Verdict::of(Disproved::False { steps: 0 }));
            }
            let judge = Judge::Open {
                alloc,
                formula,
                part,
            };
            return Ok(Reading { reader, judge });
        }
        match Refuter::start(alloc, formula, form.keeps, part) {
            Ok(refuter) => Ok(Reading {
                reader,
                judge: Judge::Plain { refuter },
            }),
            Err(verdict) => Err(verdict),
        }
    }

    // Takes some bytes at the front of the piece, and makes the step that the last of them makes whole. The memory of a step
    // serves for the next one.
    fn take_some(&mut self, piece: &[u8]) -> Result<usize, Verdict>
        requires some { 0 < length piece.now }
        requires goes_on { IsOpen self.old }
        ensures within { IfOk result (λ n. (0 < n) × (n ≤ length piece.now)) }
        ensures ok { IfOk result (λ n. Advances self.old self.new (take n piece.now)) }
        ensures tells { IfErr result (λ v. (rest : List ℕ) →
            Tells v self.old (piece.now ++ rest)) }
        ensures ready { IfErr result IsReady }
        ensures fault { IfErr result (λ v. v.outcome ≡ Disproved.ReadFault → ⊥) }
    {
        match self.reader.next(piece) {
            Ok((count, None)) => Ok(count),
            Ok((count, Some((line, step, proof)))) => match self.judge.take(line, &step, &proof) {
                Ok(()) => {
                    self.reader.keep(step, proof);
                    Ok(count)
                }
                Err(verdict) => Err(verdict),
            },
            Err(error) => Err(self.judge.stop(log_refusal(error))),
        }
    }

    // Takes the bytes of a piece.
    fn take_piece(&mut self, piece: &[u8]) -> Result<(), Verdict>
        requires { IsOpen self.old }
        ensures ok { OnOk result (Advances self.old self.new piece.now) }
        ensures tells { IfErr result (λ v. (rest : List ℕ) →
            Tells v self.old (piece.now ++ rest)) }
        ensures ready { IfErr result IsReady }
        ensures fault { IfErr result (λ v. v.outcome ≡ Disproved.ReadFault → ⊥) }
    {
        let mut at = 0;
        while at < piece.len() {
            match self.take_some(&piece[at..]) {
                Ok(count) => at += count,
                Err(verdict) => return Err(verdict),
            }
        }
        Ok(())
    }

    // Reads the next piece of the proof, and takes it.
    fn read_piece<F: Files>(
        &mut self,
        files: &mut F,
        name: &str,
        at: u64,
        buffer: &mut [u8],
    ) -> Result<usize, Verdict>
        requires place { at ≤ 1099511627776 }
        requires room { 0 < length buffer.old }
        requires goes_on { IsOpen self.old }
        ensures goes_on { OnOk result (IsOpen self.new) }
        ensures left { IfOk result (λ n. left_of self.new.reader + n ≡ left_of self.old.reader) }
        ensures taken { IfOk result (λ n. IfSome (F.held files.old)
            (λ disk. HasTaken (bytes_at disk name.now) at n self.old self.new)) }
        ensures tells { IfErr result (λ v. IfSome (F.held files.old)
            (λ disk. Tells v self.old (drop at (bytes_at disk name.now)))) }
        ensures ready { IfErr result IsReady }
        ensures fault { IfErr result (λ v. v.outcome ≡ Disproved.ReadFault
            → RoseFor F.read_faults name.now files.old files.new) }
        ensures only_reads { OnlyReadsFiles F.Files files.old files.new }
    {
        let count = match files.read(name, at, buffer) {
            Ok(count) => count,
            Err(DeviceError::Failed) => return Err(Verdict::of(Disproved::ReadFault)),
            Err(DeviceError::NoMemory) => return Err(Verdict::of(Disproved::NoMemory)),
        };
        match self.take_piece(&buffer[..count]) {
            Ok(()) => Ok(count),
            Err(verdict) => Err(verdict),
        }
    }

    // What there is to say where the proof has come to its end.
    fn finish(self) -> Verdict
        requires { IsOpen self }
        ensures tells { Tells result self [] }
        ensures ready { IsReady result }
        ensures fault { result.outcome ≡ Disproved.ReadFault → ⊥ }
    {
        let Reading { reader, mut judge } = self;
        conclude(&mut judge, reader.finish())
    }
}

/// What there is to say of the proof in a file, of which nothing is read yet.
pub(crate) fn read_proof<F: Files>(
    files: &mut F,
    name: &str,
    buffer: &mut [u8],
    mut reading: Reading,
) -> Verdict
    requires room { 0 < length buffer.old }
    requires goes_on { IsOpen reading }
    requires left { left_of reading.reader ≡ 1099511627776 }
    ensures tells { IfSome (F.held files.old)
        (λ disk. Tells result reading (bytes_at disk name.now)) }
    ensures ready { IsReady result }
    ensures fault { result.outcome ≡ Disproved.ReadFault
        → RoseFor F.read_faults name.now files.old files.new }
    ensures only_reads { OnlyReadsFiles F.Files files.old files.new }
{
    let mut at = 0u64;
    loop {
        match reading.read_piece(files, name, at, buffer) {
            Ok(0) => return reading.finish(),
            Ok(count) => at += count as u64,
            Err(verdict) => return verdict,
        }
    }
}
