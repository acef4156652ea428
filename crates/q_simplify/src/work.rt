// Simplification from the formula read to the files written.
ghost use Rattle.std.specs.Prelude.{◌≡◌, ◌≢◌, ◌⊎◌, ◌≤◌, ◌^◌, [], IfOk, OnOk, OnErr, IfSome, IsErrOf, ◌∷◌};
ghost use Rattle.q_logic.specs.Prelude.{PrenexFormula, standard, IsInLimits, IsProper, measure_of};
ghost use Rattle.q_io.specs.Files.{Disk, Empties, Later, RoseAmong, RoseFor};
ghost use Rattle.q_kernel.specs.Prelude.{formula_in, IsReady};
ghost use Rattle.q_simplify.specs.Logs.{LeavesLog};
ghost use Rattle.q_simplify.specs.Results.{IsReportUntil, Leaves, LeadsTo, LogStands, SimplifiesUntil, ends_as};
ghost use Rattle.q_sched.specs.Alarms.{IsHeard, WasAsked};
ghost use Rattle.q_sched.specs.AlarmViews.{view_alarm};

use crate::driving::follow;
use crate::log_file::flush;
use crate::options::Options;
use crate::report::{Ending, Report};
use crate::stop::Stop;
use q_dimacs::written_within_limits_is_read;
use q_io::{DeviceError, Files};
use q_kernel::Kernel;
use q_logic::{Bounds, Formula, NoMemory};
use q_output::write_output;
use q_sched::{Alarm, Guide};
use std::alloc::Global;

// How it ended, by the clauses that are left.
fn ending_of(last: Stop, formula: &Formula) -> Ending
    ensures { result ≡ ends_as last formula.now }
{
    match last {
        Stop::Spent => Ending::Spent,
        Stop::Stopped => Ending::Stopped,
        Stop::Settled => {
            if formula.clauses() == 0 {
                Ending::True
            } else if formula.clause(0).is_empty() {
                Ending::False
            } else {
                Ending::Settled
            }
        }
    }
}

// The measure of the formula as it came.
fn first_measure(kernel: &Kernel, bounds: &Bounds) -> u64
    ensures value { result ≡ measure_of bounds.now (formula_in kernel.now) }
    ensures small { result ≤ 2 ^ 60 }
{
    kernel.sound();
    kernel.measure(bounds)
}

// The formula that is left, and what there is to say of it.
#[derive(Drop)]
struct Reduced {
    formula: Formula,
    report: Report,
}

// Simplifies the formula of a kernel where no step is pending, and writes the log into its file, which is empty.
fn reduce<F: Files, A: Alarm>(
    alloc: Global,
    files: &mut F,
    log: &str,
    kernel: &mut Kernel,
    options: &Options,
    guides: Vec<Box<dyn Guide>>,
    alarm: &mut A,
) -> Result<Reduced, DeviceError>
    requires limits { IsInLimits standard (formula_in kernel.old) }
    requires text { kernel.old.text ≡ [] }
    ensures report { IfOk result (λ r.
        IsReportUntil (view_alarm A.Alarm alarm.old) (view_alarm A.Alarm alarm.new) options.now
        (formula_in kernel.old) r.report r.formula) }
    ensures log { IfOk result (λ r. (before : Disk) → Empties log.now before (F.held files.old) →
        LeadsTo (formula_in kernel.old) r.formula log.now before (F.held files.new)) }
    ensures log_left { OnErr result ((before : Disk) → Empties log.now before (F.held files.old) →
        LeavesLog (formula_in kernel.old) log.now before (F.held files.new)) }
    ensures cause { IsErrOf result DeviceError.Failed
        → RoseFor F.write_faults log.now files.old files.new }
    ensures later { Later F.read_faults F.write_faults files.old files.new }
    ensures heard { IsHeard (view_alarm A.Alarm alarm.old) (view_alarm A.Alarm alarm.new) }
    ensures asked { OnOk result
        (WasAsked (view_alarm A.Alarm alarm.old) (view_alarm A.Alarm alarm.new)) }
{
    let before = first_measure(kernel, &options.bounds);
    kernel.sweep()?;
    let last = follow(files, log, kernel, options, before, guides, alarm)?;
    flush(files, log, kernel, 1)?;
    let formula = kernel.formula(alloc)?;
    kernel.sound();
    written_within_limits_is_read();
    let report = Report {
        ending: ending_of(last, &formula),
        before,
        after: kernel.measure(&options.bounds),
    };
    Ok(Reduced { formula, report })
}

// The kernel of a formula, which is let go.
fn kernel_of(alloc: Global, formula: Formula) -> Result<Kernel, NoMemory>
    requires { IsInLimits standard formula }
    ensures formula { IfOk result (λ k. formula_in k ≡ formula) }
    ensures text { IfOk result (λ k. k.text ≡ []) }
{
    Kernel::start(alloc, &formula)
}

// The same for a formula, which is let go before the first step.
fn reduce_formula<F: Files, A: Alarm>(
    alloc: Global,
    files: &mut F,
    log: &str,
    formula: Formula,
    options: &Options,
    guides: Vec<Box<dyn Guide>>,
    alarm: &mut A,
) -> Result<Reduced, DeviceError>
    requires limits { IsInLimits standard formula }
    ensures report { IfOk result (λ r.
        IsReportUntil (view_alarm A.Alarm alarm.old) (view_alarm A.Alarm alarm.new) options.now
        formula r.report r.formula) }
    ensures log { IfOk result (λ r. (before : Disk) → Empties log.now before (F.held files.old) →
        LeadsTo formula r.formula log.now before (F.held files.new)) }
    ensures log_left { OnErr result ((before : Disk) → Empties log.now before (F.held files.old) →
        LeavesLog formula log.now before (F.held files.new)) }
    ensures cause { IsErrOf result DeviceError.Failed
        → RoseFor F.write_faults log.now files.old files.new }
    ensures later { Later F.read_faults F.write_faults files.old files.new }
    ensures heard { IsHeard (view_alarm A.Alarm alarm.old) (view_alarm A.Alarm alarm.new) }
    ensures asked { OnOk result
        (WasAsked (view_alarm A.Alarm alarm.old) (view_alarm A.Alarm alarm.new)) }
{
    let mut kernel = kernel_of(alloc, formula)?;
    reduce(alloc, files, log, &mut kernel, options, guides, alarm)
}

/// Simplifies the formula by the rules that there are: sweeps it, and takes one target after another until none
/// applies, the budget is spent or the alarm rings, which is asked before each turn and within long searches. Each change goes into the
/// log, which is written in pieces; the formula that is left is written behind it, in pieces too. The formula is let go as soon as the
/// kernel has its clauses. Where the alarm rang, the run is one whose budget is just spent, and whether a target is left is not looked
/// for; but of a formula that is decided it says so.
pub fn simplify<F: Files, A: Alarm>(
    alloc: Global,
    files: &mut F,
    formula: Formula,
    output: &str,
    log: &str,
    options: &Options,
    guides: Vec<Box<dyn Guide>>,
    alarm: &mut A,
) -> Result<Report, DeviceError>
    requires proper { IsProper formula }
    requires limits { IsInLimits standard formula }
    requires names { output.now ≢ log.now }
    ensures report { IfOk result (λ r. IfSome (F.held files.old) (λ before.
        SimplifiesUntil (view_alarm A.Alarm alarm.old) (view_alarm A.Alarm alarm.new) options.now
        formula r output.now log.now before (F.held files.new))) }
    ensures left { OnErr result (IfSome (F.held files.old) (λ before.
        Leaves formula output.now log.now before (F.held files.new))) }
    ensures cause { IsErrOf result DeviceError.Failed →
        RoseAmong F.write_faults (output.now ∷ log.now ∷ []) files.old files.new }
    ensures cause_at { IsErrOf result DeviceError.Failed →
        RoseFor F.write_faults log.now files.old files.new
        ⊎ (IfSome (F.held files.old) (λ before. LogStands formula log.now (F.held files.new))
        × RoseFor F.write_faults output.now files.old files.new) }
    ensures later { Later F.read_faults F.write_faults files.old files.new }
    ensures heard { IsHeard (view_alarm A.Alarm alarm.old) (view_alarm A.Alarm alarm.new) }
    ensures asked { OnOk result
        (WasAsked (view_alarm A.Alarm alarm.old) (view_alarm A.Alarm alarm.new)) }
{
    files.create(log)?;
    let reduced = reduce_formula(alloc, files, log, formula, options, guides, alarm)?;
    write_output(alloc, files, output, &reduced.formula)?;
    Ok(reduced.report)
}
