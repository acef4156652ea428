// Turns until there is no further one or an alarm rings, and the log of each.
ghost use Rattle.std.specs.Prelude.{◌≤◌, ◌^◌, IfOk, OnErr};
ghost use Rattle.q_logic.specs.declared.rule_bounds.Bounds.{Bounds};
ghost use Rattle.q_logic.specs.Prelude.{measure_of};
ghost use Rattle.q_kernel.specs.Prelude.{formula_in, IsReady};
ghost use Rattle.q_reduce.specs.Learned.{IsFitFor};
ghost use Rattle.q_sched.specs.Seen.{seen, learned};
ghost use Rattle.q_sched.specs.Alarms.{IsHeard, IsQuiet, WasAsked};
ghost use Rattle.q_sched.specs.AlarmViews.{view_alarm};
ghost use Rattle.q_sched.specs.Looks.{Heeds};
ghost use Rattle.q_simplify.specs.Stops.{Closes, HasFallen, IsTurn, TurnsEndFrom, TurnsEndUntil};
ghost use Rattle.q_simplify.specs.Logs.{LogGoesOn};

use crate::log_file::flush;
use crate::options::Options;
use crate::stop::Stop;
use q_io::{DeviceError, Files, PIECE};
use q_kernel::Kernel;
use q_logic::NoMemory;
use q_sched::{Alarm, Drive, Guide, Turn};

// What there is to say where an alarm rang. Whether a target is left would take a round of searches. A formula that has no literal is
// decided, and then none is.
fn close(kernel: &Kernel) -> Stop
    requires ready { IsReady kernel.now }
    ensures { (B : Bounds) → Closes B kernel.now result }
{
    if kernel.size() > 1 {
        Stop::Stopped
    } else {
        Stop::Settled
    }
}

// Asks the alarm, and takes a turn where it does not ring.
fn take_turn<A: Alarm>(
    kernel: &mut Kernel,
    drive: &mut Drive,
    alarm: &mut A,
) -> Result<Turn, NoMemory>
    requires ready { IsReady kernel.old }
    requires fit { IsFitFor kernel.old (learned drive.old) }
    ensures turn { IfOk result (λ t. IsTurn t
        (seen (λ b. (⟦<dyn Guide as Guide>⟧ b.vtable).asked b.value) (λ b.
        (⟦<dyn Guide as Guide>⟧ b.vtable).last b.value) (λ b.
        (⟦<dyn Guide as Guide>⟧ b.vtable).heard b.value) drive.old) kernel.old
        (seen (λ b. (⟦<dyn Guide as Guide>⟧ b.vtable).asked b.value) (λ b.
        (⟦<dyn Guide as Guide>⟧ b.vtable).last b.value) (λ b.
        (⟦<dyn Guide as Guide>⟧ b.vtable).heard b.value) drive.new) kernel.new) }
    ensures ready { IsReady kernel.new }
    ensures fit { IsFitFor kernel.new (learned drive.new) }
    ensures heeds { IfOk result (λ t.
        Heeds t (view_alarm A.Alarm alarm.old) (view_alarm A.Alarm alarm.new)) }
    ensures quiet { OnErr result
        (IsQuiet (view_alarm A.Alarm alarm.old) (view_alarm A.Alarm alarm.new)) }
    ensures asked { WasAsked (view_alarm A.Alarm alarm.old) (view_alarm A.Alarm alarm.new) }
{
    if alarm.rings(drive.left() > 0) {
        return Ok(Turn::GaveWay);
    }
    drive.next_turn(kernel, alarm)
}

/// Takes turns until no target applies, the budget is spent or an alarm rings: guides are asked, and once none is left, the rules
/// are searched. The alarm is asked before each turn, and within a search.
pub(crate) fn take_turns<F: Files, A: Alarm>(
    files: &mut F,
    log: &str,
    kernel: &mut Kernel,
    drive: &mut Drive,
    alarm: &mut A,
) -> Result<Stop, DeviceError>
    requires ready { IsReady kernel.old }
    requires fit { IsFitFor kernel.old (learned drive.old) }
    requires fell { HasFallen kernel.old
        (seen (λ b. (⟦<dyn Guide as Guide>⟧ b.vtable).asked b.value) (λ b.
        (⟦<dyn Guide as Guide>⟧ b.vtable).last b.value) (λ b.
        (⟦<dyn Guide as Guide>⟧ b.vtable).heard b.value) drive.old) }
    ensures ready { IsReady kernel.new }
    ensures stops { IfOk result (λ t.
        TurnsEndFrom (view_alarm A.Alarm alarm.old) (view_alarm A.Alarm alarm.new) t
        (seen (λ b. (⟦<dyn Guide as Guide>⟧ b.vtable).asked b.value) (λ b.
        (⟦<dyn Guide as Guide>⟧ b.vtable).last b.value) (λ b.
        (⟦<dyn Guide as Guide>⟧ b.vtable).heard b.value) drive.old)
        kernel.old kernel.new) }
    ensures goes_on { LogGoesOn F.held F.read_faults F.write_faults log.now result kernel.old
        kernel.new files.old files.new }
    ensures heard { IsHeard (view_alarm A.Alarm alarm.old) (view_alarm A.Alarm alarm.new) }
    ensures asked { WasAsked (view_alarm A.Alarm alarm.old) (view_alarm A.Alarm alarm.new) }
{
    loop {
        match take_turn(kernel, drive, alarm)? {
            Turn::Moved => flush(files, log, kernel, PIECE)?,
            Turn::Asked => {}
            Turn::Settled => return Ok(Stop::Settled),
            Turn::Spent => return Ok(Stop::Spent),
            Turn::GaveWay => return Ok(close(kernel)),
        }
    }
}

/// The same with a drive that begins with these guides, for a formula whose measure was `first`.
pub(crate) fn follow<F: Files, A: Alarm>(
    files: &mut F,
    log: &str,
    kernel: &mut Kernel,
    options: &Options,
    first: u64,
    guides: Vec<Box<dyn Guide>>,
    alarm: &mut A,
) -> Result<Stop, DeviceError>
    requires ready { IsReady kernel.old }
    requires first { first ≤ 2 ^ 60 }
    requires fell { measure_of options.now.bounds (formula_in kernel.old) ≤ first }
    ensures ready { IsReady kernel.new }
    ensures stops { IfOk result (λ t.
        TurnsEndUntil (view_alarm A.Alarm alarm.old) (view_alarm A.Alarm alarm.new) t
        options.now.bounds options.now.budget first kernel.old kernel.new) }
    ensures goes_on { LogGoesOn F.held F.read_faults F.write_faults log.now result kernel.old
        kernel.new files.old files.new }
    ensures heard { IsHeard (view_alarm A.Alarm alarm.old) (view_alarm A.Alarm alarm.new) }
    ensures asked { WasAsked (view_alarm A.Alarm alarm.old) (view_alarm A.Alarm alarm.new) }
{
    let mut drive = Drive::start(guides, options.bounds, options.budget, first);
    take_turns(files, log, kernel, &mut drive, alarm)
}
