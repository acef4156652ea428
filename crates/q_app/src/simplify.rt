// `simplify`: IN is read whole, then the formula is simplified into OUT and LOG, until an alarm rings.
ghost use Rattle.std.specs.Prelude.{◌≡◌, ◌≢◌, IfSome, [], ◌∷◌};
ghost use Rattle.q_io.specs.Files.{Later, RoseAmong, RoseFor};
ghost use Rattle.q_command.specs.FirstFaults.{FaultAt};
ghost use Rattle.q_command.specs.Names.{three_of};
ghost use Rattle.q_app.specs.Refusals.{failure_of, refusal_of};
ghost use Rattle.q_app.specs.Simplifying.{Ends, Stops, turns_written};
ghost use Rattle.q_sched.specs.Alarms.{IsHeard, UnlessRung, WasAsked};
ghost use Rattle.q_sched.specs.AlarmViews.{view_alarm};
ghost use Rattle.q_simplify.specs.declared.report.Report.{Report};

use crate::simplified::Simplified;
use q_command::{InputError, Names, read_input};
use q_io::{DeviceError, Files};
use q_sched::Guide;
use q_simplify::{Alarm, Options, simplify};
use std::alloc::Global;

fn refused(error: InputError) -> Simplified
    ensures { result ≡ refusal_of error }
{
    match error {
        InputError::Refused { line, cause } => Simplified::RefusedInput { line, cause },
        InputError::Fault => Simplified::ReadFault,
        InputError::NoMemory => Simplified::NoMemory,
    }
}

fn failed(error: DeviceError) -> Simplified
    ensures { result ≡ failure_of error }
{
    match error {
        DeviceError::Failed => Simplified::WriteFault,
        DeviceError::NoMemory => Simplified::NoMemory,
    }
}

/// What there is to say of `simplify` over the files of these names. The guides are asked which target is tried next, and the alarm
/// before each turn and within long searches.
pub(crate) fn simplify_file<F: Files, A: Alarm>(
    alloc: Global,
    files: &mut F,
    names: Names,
    options: &Options,
    guides: Vec<Box<dyn Guide>>,
    alarm: &mut A,
) -> Simplified
    requires names { names.output.now ≢ names.log.now }
    ensures ends { UnlessRung (view_alarm A.Alarm alarm.old) (view_alarm A.Alarm alarm.new)
        (IfSome (F.held files.old) (λ disk.
        Ends result options.now names.entry.input.now names.entry.output.now names.entry.log.now
        disk (F.held files.new)))
        (IfSome (F.held files.old) (λ disk.
        Stops result options.now names.entry.input.now names.entry.output.now names.entry.log.now
        disk (F.held files.new))) }
    ensures later { Later F.read_faults F.write_faults files.old files.new }
    ensures read_fault { result ≡ Simplified.ReadFault
        → RoseFor F.read_faults names.entry.input.now files.old files.new }
    ensures write_fault { result ≡ Simplified.WriteFault
        → RoseAmong F.write_faults (names.entry.output.now ∷ names.entry.log.now ∷ []) files.old
        files.new }
    ensures write_fault_at { result ≡ Simplified.WriteFault
        → FaultAt F.write_faults (turns_written (three_of names.entry)) (F.held files.old)
        (F.held files.new) files.old files.new }
    ensures heard { IsHeard (view_alarm A.Alarm alarm.old) (view_alarm A.Alarm alarm.new) }
    ensures asked { (r : Report) → result ≡ Simplified.Written r
        → WasAsked (view_alarm A.Alarm alarm.old) (view_alarm A.Alarm alarm.new) }
{
    let formula = match read_input(alloc, files, names.input) {
        Ok(formula) => formula,
        Err(error) => return refused(error),
    };
    match simplify(
        alloc,
        files,
        formula,
        names.output,
        names.log,
        options,
        guides,
        alarm,
    ) {
        Ok(report) => Simplified::Written { report },
        Err(error) => failed(error),
    }
}
