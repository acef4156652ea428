//! A search under an alarm.
//!
//! The alarm is asked before each group of rules but the first. The search for blocked and covered clauses is by far the longest, so
//! there it is asked after some places again. What that search has learned of the kernel stays right from one call to the next, so a
//! search place by place costs what a whole one does.
ghost use Rattle.std.specs.Prelude.{◌≡◌, true, false, Some, None, IfOk, OnErr};
ghost use Rattle.q_kernel.specs.Prelude.{IsReady};
ghost use Rattle.q_sched.specs.Alarms.{IsQuiet, IsRung};
ghost use Rattle.q_sched.specs.AlarmViews.{view_alarm};
ghost use Rattle.q_sched.specs.Looks.{HeedsIn, LooksOf};

use crate::alarm::Alarm;
use crate::moves::{Group, Move};
use q_kernel::Kernel;
use q_logic::{Bounds, NoMemory};
use q_rule::Rules;

// So many places are looked at before the alarm is asked again.
const PLACES: u32 = 64;

/// What a search under an alarm answers.
#[derive(Clone, Copy, Debug, PartialEq, Eq)]
pub enum Look {
    /// A target that applies.
    Found(Move),
    /// None does.
    Nothing,
    /// The alarm rang before all were looked at.
    GaveWay,
}

/// The same of a search that nothing breaks off.
pub(crate) fn look_of(found: Option<Move>) -> Look
    ensures some { (m : Move) → found ≡ Some m → result ≡ Look.Found m }
    ensures none { found ≡ None → result ≡ Look.Nothing }
{
    match found {
        Some(target) => Look::Found(target),
        None => Look::Nothing,
    }
}

/// Asks the alarm before the group at a place of the order. Before the first one it was just asked.
pub(crate) fn rings_before<A: Alarm>(alarm: &mut A, place: u32, guided: bool) -> bool
    ensures rung { result ≡ true
        → IsRung (view_alarm A.Alarm alarm.old) (view_alarm A.Alarm alarm.new) }
    ensures quiet { result ≡ false
        → IsQuiet (view_alarm A.Alarm alarm.old) (view_alarm A.Alarm alarm.new) }
{
    if place == 0 {
        return false;
    }
    alarm.rings(guided)
}

/// A blocked or covered clause.
pub(crate) fn look_for_blocked<A: Alarm>(
    kernel: &Kernel,
    search: &mut q_blocked::Search,
    bounds: &Bounds,
    alarm: &mut A,
    guided: bool,
) -> Result<Look, NoMemory>
    requires ready { IsReady kernel.now }
    ensures looks { IfOk result (LooksOf Group.Block bounds.now kernel.now) }
    ensures heeds { IfOk result (λ look.
        HeedsIn look (view_alarm A.Alarm alarm.old) (view_alarm A.Alarm alarm.new)) }
    ensures quiet { OnErr result
        (IsQuiet (view_alarm A.Alarm alarm.old) (view_alarm A.Alarm alarm.new)) }
{
    search.forget();
    let mut from = 0;
    while let Some(first) = kernel.next_live(from) {
        let Some(upto) = first.checked_add(PLACES) else {
            // no more than the last of all numbers are left
            let found = search.find(kernel, bounds, 0)?;
            return Ok(look_of(found.map(Move::Block)));
        };
        if let Some(target) = search.find_within(kernel, bounds, first, upto)? {
            return Ok(Look::Found(Move::Block(target)));
        }
        if alarm.rings(guided) {
            return Ok(Look::GaveWay);
        }
        from = upto;
    }
    Ok(Look::Nothing)
}
