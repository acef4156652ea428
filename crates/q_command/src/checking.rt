// `check`: IN and OUT are read whole, and each step of LOG is tried as it is read.
ghost use Rattle.std.specs.Prelude.{◌≡◌, ◌<◌, List, ℕ, false, length, IfOk, IfErr, IfSome, IsErrOf};
ghost use Rattle.q_logic.specs.Prelude.{PrenexFormula, IsProper, IsFormula};
ghost use Rattle.q_io.specs.Files.{RoseAmong, RoseFor, bytes_at};
ghost use Rattle.q_command.specs.FirstFaults.{FaultAt};
ghost use Rattle.q_command.specs.Names.{OfThree, ends_of, three_of, names_read};
ghost use Rattle.q_command.specs.Reading.{OnlyReadsFiles};
ghost use Rattle.q_command.specs.Audits.{IsWithEnds, LogIsShared, LogIsTaken};
ghost use Rattle.q_command.specs.LazyCheckers.{IsHeld};
ghost use Rattle.q_command.specs.Taken.{AreRun};
ghost use Rattle.q_command.specs.Checks.{AreEnds, Checks, FilesPass, HaveOneTruth, IfVerified, IsEarly, IsFileOf, IsInputRefusal, IsUnverified, LeadsBack, LogSays, input_refused, turns_of_ends, turns_read};
ghost use Rattle.q_command.specs.Parts.{ChecksShared, LogSaysShared, share_of};

use crate::audit::{Audit, Keep, Passed};
use crate::input::{InputError, read_formula};
use crate::names::Names;
use crate::origin::Origin;
use crate::outcome::{Outcome, Role};
use crate::part::Part;
use crate::taken::TakenStep;
use q_check::Undos;
use q_io::{Files, PIECE};
use q_logic::Formula;
use std::alloc::Global;

fn refused_input(role: Role, error: InputError) -> Outcome
    ensures { result ≡ input_refused role error }
{
    match error {
        InputError::Refused { line, cause } => Outcome::RefusedInput { role, line, cause },
        InputError::Fault => Outcome::ReadFault,
        InputError::NoMemory => Outcome::NoMemory,
    }
}

// The formula of an operand, read through the buffer, or what there is to say of it.
fn read_operand<F: Files>(
    alloc: Global,
    files: &mut F,
    role: Role,
    name: &str,
    buffer: &mut [u8],
) -> Result<Formula, Outcome>
    requires room { 0 < length buffer.old }
    ensures formula { IfOk result (λ f. IfSome (F.held files.old)
        (λ disk. IsFileOf (bytes_at disk name.now) f)) }
    ensures proper { IfOk result IsProper }
    ensures refused { IfErr result (λ o. IfSome (F.held files.old)
        (λ disk. IsInputRefusal role o (bytes_at disk name.now))) }
    ensures early { IfErr result IsEarly }
    ensures fault { IsErrOf result Outcome.ReadFault
        → RoseFor F.read_faults name.now files.old files.new }
    ensures only_reads { OnlyReadsFiles F.Files files.old files.new }
{
    match read_formula(alloc, files, name, buffer) {
        Ok(formula) => Ok(formula),
        Err(error) => Err(refused_input(role, error)),
    }
}

// A log is to lead from the formula of IN, which `origin` holds, to that of OUT, and this is kept of it.
#[derive(Drop)]
struct Claim<'a> {
    origin: Origin,
    output: &'a Formula,
    keep: Keep,
}

// Tries the log, from the formula of IN to that of OUT, and judges a part of its steps.
fn check_part_of_log<F: Files>(
    alloc: Global,
    files: &mut F,
    name: &str,
    buffer: &mut [u8],
    claim: Claim,
    part: Part,
) -> Result<Passed, Outcome>
    requires room { 0 < length buffer.old }
    requires undo { (k : ℕ) → share_of part k ≡ false → claim.keep.undo ≡ false }
    ensures taken { IfOk result (λ p.
        (input : PrenexFormula) → IsHeld input claim.entry.origin
        → IfSome (F.held files.old) (λ disk.
        LogIsShared (share_of part) claim.entry.keep (bytes_at disk name.now) input
        claim.entry.output.now p)) }
    ensures leads { IfOk result (λ p.
        (input : PrenexFormula) → IsHeld input claim.entry.origin → (log : List ℕ)
        × LogIsShared (share_of part) claim.entry.keep log input claim.entry.output.now p) }
    ensures says { IfErr result (λ o.
        (input : PrenexFormula) → IsHeld input claim.entry.origin
        → IfSome (F.held files.old) (λ disk.
        LogSaysShared (share_of part) o input claim.entry.output.now (bytes_at disk name.now))) }
    ensures unverified { IfErr result IsUnverified }
    ensures fault { IsErrOf result Outcome.ReadFault
        → RoseFor F.read_faults name.now files.old files.new }
    ensures only_reads { OnlyReadsFiles F.Files files.old files.new }
{
    let Claim {
        origin,
        output,
        keep,
    } = claim;
    let Ok(mut audit) = Audit::start(alloc, origin, keep, part) else {
        return Err(Outcome::NoMemory);
    };
    let mut at = 0u64;
    loop {
        match audit.read_piece(files, name, at, buffer) {
            Ok(0) => return audit.finish(output),
            Ok(count) => at += count as u64,
            Err(outcome) => return Err(outcome),
        }
    }
}

// Tries the log, from the formula of IN to that of OUT.
fn check_log<F: Files>(
    alloc: Global,
    files: &mut F,
    name: &str,
    buffer: &mut [u8],
    claim: Claim,
) -> Result<Passed, Outcome>
    requires room { 0 < length buffer.old }
    ensures taken { IfOk result (λ p.
        (input : PrenexFormula) → IsHeld input claim.entry.origin
        → IfSome (F.held files.old) (λ disk.
        LogIsTaken claim.entry.keep (bytes_at disk name.now) input claim.entry.output.now p)) }
    ensures held { IfOk result (λ p.
        (input : PrenexFormula) → IsHeld input claim.entry.origin → IsHeld input p.origin) }
    ensures run { IfOk result (λ p. (input : PrenexFormula) → IsHeld input claim.entry.origin →
        LeadsBack claim.entry.keep.undo input claim.entry.output.now p.undo) }
    ensures kept { IfOk result (λ p. (input : PrenexFormula) → IsHeld input claim.entry.origin →
        AreRun claim.entry.keep.steps input claim.entry.output.now p.taken.items) }
    ensures says { IfErr result (λ o.
        (input : PrenexFormula) → IsHeld input claim.entry.origin
        → IfSome (F.held files.old)
        (λ disk. LogSays o input claim.entry.output.now (bytes_at disk name.now))) }
    ensures unverified { IfErr result IsUnverified }
    ensures fault { IsErrOf result Outcome.ReadFault
        → RoseFor F.read_faults name.now files.old files.new }
    ensures only_reads { OnlyReadsFiles F.Files files.old files.new }
{
    check_part_of_log(alloc, files, name, buffer, claim, Part::whole())
}

/// The formulas of IN and OUT.
#[derive(Drop)]
pub struct Ends {
    pub from: Formula,
    pub to: Formula,
}

/// What the files IN and OUT hold, read through the buffer.
pub fn read_ends<F: Files>(
    alloc: Global,
    files: &mut F,
    names: Names,
    buffer: &mut [u8],
) -> Result<Ends, Outcome>
    requires room { 0 < length buffer.old }
    ensures formulas { IfOk result
        (λ e. OfThree (F.held files.old) (three_of names.entry) (λ i o l. AreEnds i o e)) }
    ensures proper { IfOk result (λ e. IsProper e.from × IsProper e.to) }
    ensures checks { IfErr result
        (λ o. OfThree (F.held files.old) (three_of names.entry) (Checks o)) }
    ensures early { IfErr result IsEarly }
    ensures unverified { IfErr result IsUnverified }
    ensures fault { IsErrOf result Outcome.ReadFault
        → RoseAmong F.read_faults (ends_of (three_of names.entry)) files.old files.new }
    ensures fault_at { IsErrOf result Outcome.ReadFault
        → FaultAt F.read_faults (turns_of_ends (three_of names.entry)) (F.held files.old)
        (F.held files.new) files.old files.new }
    ensures only_reads { OnlyReadsFiles F.Files files.old files.new }
{
    let from = match read_operand(alloc, files, Role::In, names.input, buffer) {
        Ok(formula) => formula,
        Err(outcome) => return Err(outcome),
    };
    match read_operand(alloc, files, Role::Out, names.output, buffer) {
        Ok(to) => Ok(Ends { from, to }),
        Err(outcome) => Err(outcome),
    }
}

/// The formulas of IN and OUT, where the log leads from the one to the other: its number of steps, what they leave to
/// undo, and they themselves; the last two are empty where they aren't kept.
#[derive(Drop)]
pub struct Checked {
    pub from: Formula,
    pub to: Formula,
    pub steps: u64,
    pub undo: Undos,
    pub taken: Vec<TakenStep>,
}

// What is left of a log whose steps are a run, with the formulas that it leads from and to.
fn with_ends(passed: Passed, to: Formula) -> Result<Checked, Outcome>
    ensures checked { IfOk result (λ c. IsWithEnds passed to c) }
    ensures memory { IfErr result (λ o. o ≡ Outcome.NoMemory) }
{
    match passed.origin.into_formula() {
        Some(from) => Ok(Checked {
            from,
            to,
            steps: passed.steps,
            undo: passed.undo,
            taken: passed.taken,
        }),
        None => Err(Outcome::NoMemory),
    }
}

// What the files of these names hold, read through the buffer.
fn check_files<F: Files>(
    alloc: Global,
    files: &mut F,
    names: Names,
    buffer: &mut [u8],
    keep: Keep,
) -> Result<Checked, Outcome>
    requires room { 0 < length buffer.old }
    ensures passes { IfOk result
        (λ c. OfThree (F.held files.old) (three_of names.entry) (λ i o l. FilesPass keep i o l c)) }
    ensures run { IfOk result (λ c. LeadsBack keep.undo c.from c.to c.undo) }
    ensures kept { IfOk result (λ c. AreRun keep.steps c.from c.to c.taken.items) }
    ensures proper { IfOk result (λ c. IsFormula c.from) }
    ensures checks { IfErr result
        (λ o. OfThree (F.held files.old) (three_of names.entry) (Checks o)) }
    ensures unverified { IfErr result IsUnverified }
    ensures fault { IsErrOf result Outcome.ReadFault
        → RoseAmong F.read_faults (names_read (three_of names.entry)) files.old files.new }
    ensures fault_at { IsErrOf result Outcome.ReadFault
        → FaultAt F.read_faults (turns_read (three_of names.entry)) (F.held files.old)
        (F.held files.new) files.old files.new }
    ensures only_reads { OnlyReadsFiles F.Files files.old files.new }
{
    let Ends { from, to } = match read_ends(alloc, files, names, buffer) {
        Ok(ends) => ends,
        Err(outcome) => return Err(outcome),
    };
    let Ok(origin) = Origin::new(alloc, from, true) else {
        return Err(Outcome::NoMemory);
    };
    let claim = Claim {
        origin,
        output: &to,
        keep,
    };
    match check_log(alloc, files, names.log, buffer, claim) {
        Ok(passed) => with_ends(passed, to),
        Err(outcome) => Err(outcome),
    }
}

/// Checks the log of these names, and keeps on demand the undo list of its steps, and the steps.
pub fn verify<F: Files>(
    alloc: Global,
    files: &mut F,
    names: Names,
    keep: Keep,
) -> Result<Checked, Outcome>
    ensures passes { IfOk result
        (λ c. OfThree (F.held files.old) (three_of names.entry) (λ i o l. FilesPass keep i o l c)) }
    ensures run { IfOk result (λ c. LeadsBack keep.undo c.from c.to c.undo) }
    ensures kept { IfOk result (λ c. AreRun keep.steps c.from c.to c.taken.items) }
    ensures proper { IfOk result (λ c. IsFormula c.from) }
    ensures checks { IfErr result
        (λ o. OfThree (F.held files.old) (three_of names.entry) (Checks o)) }
    ensures unverified { IfErr result IsUnverified }
    ensures fault { IsErrOf result Outcome.ReadFault
        → RoseAmong F.read_faults (names_read (three_of names.entry)) files.old files.new }
    ensures fault_at { IsErrOf result Outcome.ReadFault
        → FaultAt F.read_faults (turns_read (three_of names.entry)) (F.held files.old)
        (F.held files.new) files.old files.new }
    ensures only_reads { OnlyReadsFiles F.Files files.old files.new }
{
    match vec![in alloc; 0u8; PIECE] {
        Ok(mut room) => check_files(alloc, files, names, &mut room, keep),
        Err(_) => Err(Outcome::NoMemory),
    }
}

// The number of steps that are judged of a log that leads from IN to OUT. The formula of IN is let go once a checker has it.
fn count_steps<F: Files>(
    alloc: Global,
    files: &mut F,
    names: Names,
    buffer: &mut [u8],
    part: Part,
) -> Result<u64, Outcome>
    requires room { 0 < length buffer.old }
    ensures verified { IfOk result (λ n. OfThree (F.held files.old) (three_of names.entry)
        (ChecksShared (share_of part) (Outcome.Verified n))) }
    ensures checks { IfErr result (λ o. OfThree (F.held files.old) (three_of names.entry)
        (ChecksShared (share_of part) o)) }
    ensures fault { IsErrOf result Outcome.ReadFault
        → RoseAmong F.read_faults (names_read (three_of names.entry)) files.old files.new }
    ensures fault_at { IsErrOf result Outcome.ReadFault
        → FaultAt F.read_faults (turns_read (three_of names.entry)) (F.held files.old)
        (F.held files.new) files.old files.new }
    ensures only_reads { OnlyReadsFiles F.Files files.old files.new }
{
    let Ends { from, to } = match read_ends(alloc, files, names, buffer) {
        Ok(ends) => ends,
        Err(outcome) => return Err(outcome),
    };
    let Ok(origin) = Origin::new(alloc, from, false) else {
        return Err(Outcome::NoMemory);
    };
    let nothing = Keep {
        undo: false,
        steps: false,
    };
    let claim = Claim {
        origin,
        output: &to,
        keep: nothing,
    };
    match check_part_of_log(alloc, files, names.log, buffer, claim, part) {
        Ok(passed) => Ok(passed.steps),
        Err(outcome) => Err(outcome),
    }
}

/// The outcome of a part of `check` over the files of these names: all steps are made, and those of the part are judged.
pub fn check_part<F: Files>(alloc: Global, files: &mut F, names: Names, part: Part) -> Outcome
    ensures checks { OfThree (F.held files.old) (three_of names.entry)
        (ChecksShared (share_of part) result) }
    ensures fault { result ≡ Outcome.ReadFault
        → RoseAmong F.read_faults (names_read (three_of names.entry)) files.old files.new }
    ensures fault_at { result ≡ Outcome.ReadFault
        → FaultAt F.read_faults (turns_read (three_of names.entry)) (F.held files.old)
        (F.held files.new) files.old files.new }
    ensures held { F.held files.new ≡ F.held files.old }
    ensures only_reads { OnlyReadsFiles F.Files files.old files.new }
{
    let Ok(mut room) = vec![in alloc; 0u8; PIECE] else {
        return Outcome::NoMemory;
    };
    match count_steps(alloc, files, names, &mut room, part) {
        Ok(steps) => Outcome::Verified { steps },
        Err(outcome) => outcome,
    }
}

/// The outcome of `check` over the files of these names.
pub fn check<F: Files>(alloc: Global, files: &mut F, names: Names) -> Outcome
    ensures checks { OfThree (F.held files.old) (three_of names.entry) (Checks result) }
    ensures truth { IfVerified result
        (OfThree (F.held files.old) (three_of names.entry) (λ i o l. HaveOneTruth i o)) }
    ensures fault { result ≡ Outcome.ReadFault
        → RoseAmong F.read_faults (names_read (three_of names.entry)) files.old files.new }
    ensures fault_at { result ≡ Outcome.ReadFault
        → FaultAt F.read_faults (turns_read (three_of names.entry)) (F.held files.old)
        (F.held files.new) files.old files.new }
    ensures held { F.held files.new ≡ F.held files.old }
    ensures only_reads { OnlyReadsFiles F.Files files.old files.new }
{
    check_part(alloc, files, names, Part::whole())
}
