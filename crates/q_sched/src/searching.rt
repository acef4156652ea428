//! The rules are searched in their order.
ghost use Rattle.std.specs.Prelude.{◌≡◌, IfOk, OnErr};
ghost use Rattle.q_kernel.specs.Prelude.{SameView, IsReady};
ghost use Rattle.q_reduce.specs.Learned.{IsFitFor};
ghost use Rattle.q_sched.specs.Alarms.{IsQuiet};
ghost use Rattle.q_sched.specs.AlarmViews.{view_alarm};
ghost use Rattle.q_sched.specs.Drives.{Searched, Closes};
ghost use Rattle.q_sched.specs.Looks.{Heeds};

use crate::alarm::Alarm;
use crate::looking::Look;
use crate::searches::Searches;
use crate::turns::Turn;
use q_kernel::{Kernel, Taken};
use q_logic::{Bounds, NoMemory};

// Whether any target is left.
pub(crate) fn close<A: Alarm>(
    kernel: &Kernel,
    searches: &mut Searches,
    bounds: &Bounds,
    alarm: &mut A,
    guided: bool,
) -> Result<Turn, NoMemory>
    requires ready { IsReady kernel.now }
    requires fit { IsFitFor kernel.now searches.old }
    ensures closes { IfOk result (Closes bounds.now kernel.now) }
    ensures fit { IsFitFor kernel.now searches.new }
    ensures heeds { IfOk result (λ turn.
        Heeds turn (view_alarm A.Alarm alarm.old) (view_alarm A.Alarm alarm.new)) }
    ensures quiet { OnErr result
        (IsQuiet (view_alarm A.Alarm alarm.old) (view_alarm A.Alarm alarm.new)) }
{
    match searches.look_any(kernel, bounds, alarm, guided) {
        Ok(Look::Found(_)) => Ok(Turn::Spent),
        Ok(Look::Nothing) => Ok(Turn::Settled),
        Ok(Look::GaveWay) => Ok(Turn::GaveWay),
        Err(error) => Err(error),
    }
}

// Takes the first target that is found. No guide is left.
pub(crate) fn search<A: Alarm>(
    kernel: &mut Kernel,
    searches: &mut Searches,
    bounds: &Bounds,
    alarm: &mut A,
) -> Result<Turn, NoMemory>
    requires ready { IsReady kernel.old }
    requires fit { IsFitFor kernel.old searches.old }
    ensures searches { IfOk result (λ turn. Searched bounds.now kernel.old turn kernel.new) }
    ensures err { OnErr result (SameView kernel.old kernel.new) }
    ensures fit { IsFitFor kernel.new searches.new }
    ensures heeds { IfOk result (λ turn.
        Heeds turn (view_alarm A.Alarm alarm.old) (view_alarm A.Alarm alarm.new)) }
    ensures quiet { OnErr result
        (IsQuiet (view_alarm A.Alarm alarm.old) (view_alarm A.Alarm alarm.new)) }
{
    match searches.look_any(kernel, bounds, alarm, false) {
        Ok(Look::Found(target)) => match searches.take(kernel, &target, bounds) {
            Ok(Taken::Yes) => Ok(Turn::Moved),
            Ok(Taken::No) => unreachable!(),
            Err(error) => Err(error),
        },
        Ok(Look::Nothing) => Ok(Turn::Settled),
        Ok(Look::GaveWay) => Ok(Turn::GaveWay),
        Err(error) => Err(error),
    }
}
