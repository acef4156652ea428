// The log is read once, upward: each step is made as soon as it is read.
ghost use Rattle.std.specs.Prelude.{◌≡◌, ◌≤◌, ◌<◌, ◌+◌, ◌-◌, ◌^◌, List, ℕ, length, take, drop, IfOk, IfErr, OnOk, IfSome, IsErrOf, [], ◌++◌};
ghost use Rattle.q_logic.specs.Prelude.{PrenexFormula};
ghost use Rattle.q_io.specs.Files.{RoseFor, bytes_at};
ghost use Rattle.q_command.specs.Reading.{OnlyReadsFiles};
ghost use Rattle.q_run_apply.specs.Readings.{Advances, HasTaken, IsMade, IsOpen, IsRefusal, IsStarted, Leaves, LogRefuses, Refuses, log_refused};

use crate::applied::Applied;
use crate::maker::Maker;
use q_hinted::BothReader;
use q_io::{DeviceError, Files};
use q_log::LogError;
use q_logic::{Formula, Limits, NoMemory};
use std::alloc::Global;

/// The reader of a log of either profile, and the formula behind the steps so far.
#[derive(Drop)]
pub(crate) struct Reading {
    reader: BothReader,
    maker: Maker,
}

/// The formula behind all whole steps of a log, and the line on which the log breaks off, if it does.
#[derive(Drop)]
pub(crate) struct Made {
    pub maker: Maker,
    pub broken: Option<u64>,
}

fn log_refusal(error: LogError) -> Applied
    ensures is { result ≡ log_refused error }
    ensures refusal { IsRefusal result }
    ensures fault { result ≡ Applied.ReadFault → ⊥ }
{
    match error {
        LogError::BadLine { line } => Applied::RefusedLine { line, cause: 1 },
        LogError::Limit { line } => Applied::RefusedLine { line, cause: 8 },
        LogError::NoMemory => Applied::NoMemory,
    }
}

impl Reading {
    /// Nothing is read, and the log begins with this formula.
    pub fn start(alloc: Global, formula: Formula) -> Result<Reading, NoMemory>
        ensures started { IfOk result (IsStarted formula) }
    {
        let Ok(reader) = BothReader::new(alloc, Limits::standard().bytes) else {
            return Err(NoMemory);
        };
        let maker = Maker::start(alloc, &formula)?;
        Ok(Reading { reader, maker })
    }

    // Takes the first byte of the piece, and makes the step that it makes whole. The memory of a step serves for the next one.
    fn take_some(&mut self, piece: &[u8]) -> Result<usize, Applied>
        requires some { 0 < length piece.now }
        requires goes_on { IsOpen self.old }
        ensures within { IfOk result (λ n. (0 < n) × (n ≤ length piece.now)) }
        ensures ok { IfOk result (λ n. Advances self.old self.new (take n piece.now)) }
        ensures refused { IfErr result (λ o. (rest : List ℕ) →
            Refuses o self.old (piece.now ++ rest)) }
        ensures refusal { IfErr result IsRefusal }
        ensures fault { IsErrOf result Applied.ReadFault → ⊥ }
    {
        match self.reader.push(piece[0]) {
            Ok(None) => Ok(1),
            Ok(Some((line, step, proof))) => match self.maker.take(line, &step) {
                Ok(()) => {
                    self.reader.keep(step, proof);
                    Ok(1)
                }
                Err(outcome) => Err(outcome),
            },
            Err(error) => Err(log_refusal(error)),
        }
    }

    // Takes the bytes of a piece.
    fn take_piece(&mut self, piece: &[u8]) -> Result<(), Applied>
        requires { IsOpen self.old }
        ensures ok { OnOk result (Advances self.old self.new piece.now) }
        ensures refused { IfErr result (λ o. (rest : List ℕ) →
            Refuses o self.old (piece.now ++ rest)) }
        ensures refusal { IfErr result IsRefusal }
        ensures fault { IsErrOf result Applied.ReadFault → ⊥ }
    {
        let mut at = 0;
        while at < piece.len() {
            match self.take_some(&piece[at..]) {
                Ok(count) => at += count,
                Err(outcome) => return Err(outcome),
            }
        }
        Ok(())
    }

    // Reads the next piece of the log, and takes it.
    fn read_piece<F: Files>(
        &mut self,
        files: &mut F,
        name: &str,
        at: u64,
        buffer: &mut [u8],
    ) -> Result<usize, Applied>
        requires place { at ≤ 1099511627776 }
        requires room { 0 < length buffer.old }
        requires goes_on { IsOpen self.old }
        ensures goes_on { OnOk result (IsOpen self.new) }
        ensures left { IfOk result (λ n. self.new.reader.left + n ≡ self.old.reader.left) }
        ensures taken { IfOk result (λ n. IfSome (F.held files.old)
            (λ disk. HasTaken (bytes_at disk name.now) at n self.old self.new)) }
        ensures refused { IfErr result (λ o. IfSome (F.held files.old)
            (λ disk. Refuses o self.old (drop at (bytes_at disk name.now)))) }
        ensures refusal { IfErr result IsRefusal }
        ensures fault { IsErrOf result Applied.ReadFault
            → RoseFor F.read_faults name.now files.old files.new }
        ensures only_reads { OnlyReadsFiles F.Files files.old files.new }
    {
        let count = match files.read(name, at, buffer) {
            Ok(count) => count,
            Err(DeviceError::Failed) => return Err(Applied::ReadFault),
            Err(DeviceError::NoMemory) => return Err(Applied::NoMemory),
        };
        match self.take_piece(&buffer[..count]) {
            Ok(()) => Ok(count),
            Err(outcome) => Err(outcome),
        }
    }

    // What is left where the log has come to its end: a step that ends there is made, and what is less than a step is left out.
    fn finish(self) -> Result<Made, Applied>
        requires { IsOpen self }
        ensures made { IfOk result (Leaves self) }
        ensures refused { IfErr result (λ o. Refuses o self []) }
        ensures refusal { IfErr result IsRefusal }
        ensures fault { IsErrOf result Applied.ReadFault → ⊥ }
    {
        let Reading { reader, mut maker } = self;
        match reader.finish() {
            Ok(None) => Ok(Made {
                maker,
                broken: None,
            }),
            Ok(Some((line, step, _))) => match maker.take(line, &step) {
                Ok(()) => Ok(Made {
                    maker,
                    broken: None,
                }),
                Err(outcome) => Err(outcome),
            },
            Err(LogError::BadLine { line }) => Ok(Made {
                maker,
                broken: Some(line),
            }),
            Err(LogError::Limit { line }) => Err(Applied::RefusedLine { line, cause: 8 }),
            Err(LogError::NoMemory) => Err(Applied::NoMemory),
        }
    }
}

/// What is left of the log in a file, of which nothing is read yet.
pub(crate) fn read_log<F: Files>(
    files: &mut F,
    name: &str,
    buffer: &mut [u8],
    mut reading: Reading,
) -> Result<Made, Applied>
    requires room { 0 < length buffer.old }
    requires goes_on { IsOpen reading }
    requires left { reading.reader.left ≡ 1099511627776 }
    ensures made { IfOk result (λ m. IfSome (F.held files.old)
        (λ disk. (F : PrenexFormula) → IsStarted F reading
        → IsMade F (bytes_at disk name.now) m)) }
    ensures refused { IfErr result (λ o. IfSome (F.held files.old)
        (λ disk. (F : PrenexFormula) → IsStarted F reading
        → LogRefuses o F (bytes_at disk name.now))) }
    ensures refusal { IfErr result IsRefusal }
    ensures fault { IsErrOf result Applied.ReadFault
        → RoseFor F.read_faults name.now files.old files.new }
    ensures only_reads { OnlyReadsFiles F.Files files.old files.new }
{
    let mut at = 0u64;
    loop {
        match reading.read_piece(files, name, at, buffer) {
            Ok(0) => return reading.finish(),
            Ok(count) => at += count as u64,
            Err(outcome) => return Err(outcome),
        }
    }
}
