//! The searches of all groups of rules, kept from turn to turn.
ghost use Rattle.std.specs.Prelude.{◌≡◌, ◌↔◌, IfOk, OnErr, IsTrue};
ghost use Rattle.q_kernel.specs.Prelude.{Seen, SameView, IsReady, Applies};
ghost use Rattle.q_reduce.specs.Learned.{nothing_learned, IsFitFor};
ghost use Rattle.q_rule.specs.Searching.{Tries};
ghost use Rattle.q_sched.specs.Moves.{target_of};
ghost use Rattle.q_sched.specs.Searching.{FindsOf};
ghost use Rattle.q_sched.specs.Alarms.{IsQuiet};
ghost use Rattle.q_sched.specs.AlarmViews.{view_alarm};
ghost use Rattle.q_sched.specs.Looks.{HeedsIn, LooksOf, LooksAny};

use crate::alarm::Alarm;
use crate::looking::{Look, look_for_blocked, look_of, rings_before};
use crate::moves::{GROUPS, Group, Move};
use q_blocked::Step;
use q_kernel::{Kernel, Taken};
use q_logic::{Bounds, NoMemory};
use q_rule::Rules;
use std::alloc::Global;
use std::marker::Model;

/// What the searches of the rules keep from call to call: buffers, and what universal reduction has learned of the formula,
/// which has to be right for the kernel before (`IsFitFor`) and is so after.
#[derive(Drop)]
pub struct Searches {
    plain: q_reduce::Search,
    subsume: q_subsume::Search,
    equiv: q_equiv::Search,
    blocked: q_blocked::Search,
    eliminate: q_eliminate::Search,
    expand: q_expand::Search,
}

impl Model for Searches {
    ghost use Rattle.q_reduce.specs.Learned.{Learned};

    ghost Value = { Learned };

    ghost view = { λ s. s.plain };
}

impl Searches {
    /// Nothing is learned. It takes no memory.
    pub fn new(alloc: Global) -> Searches
        ensures nothing { result ≡ nothing_learned }
        ensures fit { (k : Seen) → IsFitFor k result }
    {
        Searches {
            plain: Rules::new(alloc),
            subsume: Rules::new(alloc),
            equiv: Rules::new(alloc),
            blocked: Rules::new(alloc),
            eliminate: Rules::new(alloc),
            expand: Rules::new(alloc),
        }
    }

    /// Nothing is learned any more.
    pub(crate) fn forget(&mut self)
        ensures { self.new ≡ nothing_learned }
    {
        self.plain.forget();
    }

    /// Takes the steps by which the clause of a target may be covered, for the next call with this target. They are tested there.
    pub(crate) fn suggest(&mut self, target: &Move, steps: &[Step])
        ensures { self.new ≡ self.old }
    {
        if let Move::Block(q_blocked::Target::Cover { c }) = target {
            self.blocked.suggest(*c, steps);
        }
    }

    /// Whether a target applies.
    pub fn applies(
        &mut self,
        kernel: &Kernel,
        target: &Move,
        bounds: &Bounds,
    ) -> Result<bool, NoMemory>
        requires ready { IsReady kernel.now }
        requires fit { IsFitFor kernel.now self.old }
        ensures yes { IfOk result (λ yes.
            IsTrue yes ↔ Applies bounds.now kernel.now (target_of target.now)) }
        ensures fit { IsFitFor kernel.now self.new }
    {
        match target {
            Move::Reduce(t) => self.plain.applies(kernel, t, bounds),
            Move::Subsume(t) => self.subsume.applies(kernel, t, bounds),
            Move::Merge(t) => self.equiv.applies(kernel, t, bounds),
            Move::Block(t) => self.blocked.applies(kernel, t, bounds),
            Move::Eliminate(t) => self.eliminate.applies(kernel, t, bounds),
            Move::Expand(t) => self.expand.applies(kernel, t, bounds),
        }
    }

    /// Takes a target exactly where it applies. What universal reduction has learned lasts over its own targets alone.
    pub fn take(
        &mut self,
        kernel: &mut Kernel,
        target: &Move,
        bounds: &Bounds,
    ) -> Result<Taken, NoMemory>
        requires ready { IsReady kernel.old }
        requires fit { IsFitFor kernel.old self.old }
        ensures tries { IfOk result
            (Tries bounds.now kernel.old kernel.new (target_of target.now)) }
        ensures err { OnErr result (SameView kernel.old kernel.new) }
        ensures fit { IsFitFor kernel.new self.new }
    {
        if target.group() != Group::Reduce {
            self.plain.forget();
        }
        match target {
            Move::Reduce(t) => self.plain.take(kernel, t, bounds),
            Move::Subsume(t) => self.subsume.take(kernel, t, bounds),
            Move::Merge(t) => self.equiv.take(kernel, t, bounds),
            Move::Block(t) => self.blocked.take(kernel, t, bounds),
            Move::Eliminate(t) => self.eliminate.take(kernel, t, bounds),
            Move::Expand(t) => self.expand.take(kernel, t, bounds),
        }
    }

    /// A target of a group whose place is at least a number; none exactly where none from that place on applies.
    pub fn find(
        &mut self,
        kernel: &Kernel,
        group: Group,
        bounds: &Bounds,
        from: u32,
    ) -> Result<Option<Move>, NoMemory>
        requires ready { IsReady kernel.now }
        requires fit { IsFitFor kernel.now self.old }
        ensures finds { IfOk result (FindsOf group bounds.now kernel.now from) }
        ensures fit { IsFitFor kernel.now self.new }
    {
        let found = match group {
            Group::Reduce => self.plain.find(kernel, bounds, from)?.map(Move::Reduce),
            Group::Subsume => self.subsume.find(kernel, bounds, from)?.map(Move::Subsume),
            Group::Merge => self.equiv.find(kernel, bounds, from)?.map(Move::Merge),
            Group::Block => self.blocked.find(kernel, bounds, from)?.map(Move::Block),
            Group::Eliminate => self
                .eliminate
                .find(kernel, bounds, from)?
                .map(Move::Eliminate),
            Group::Expand => self.expand.find(kernel, bounds, from)?.map(Move::Expand),
        };
        Ok(found)
    }

    // A target of a group, under an alarm that is asked within the longest search.
    fn look<A: Alarm>(
        &mut self,
        kernel: &Kernel,
        group: Group,
        bounds: &Bounds,
        alarm: &mut A,
        guided: bool,
    ) -> Result<Look, NoMemory>
        requires ready { IsReady kernel.now }
        requires fit { IsFitFor kernel.now self.old }
        ensures looks { IfOk result (LooksOf group bounds.now kernel.now) }
        ensures fit { IsFitFor kernel.now self.new }
        ensures heeds { IfOk result (λ look.
            HeedsIn look (view_alarm A.Alarm alarm.old) (view_alarm A.Alarm alarm.new)) }
        ensures quiet { OnErr result
            (IsQuiet (view_alarm A.Alarm alarm.old) (view_alarm A.Alarm alarm.new)) }
    {
        match group {
            Group::Block => look_for_blocked(kernel, &mut self.blocked, bounds, alarm, guided),
            _ => Ok(look_of(self.find(kernel, group, bounds, 0)?)),
        }
    }

    /// A target of the first group that has one; none exactly where no target applies. The alarm is asked on the way, and where it rings,
    /// the search gives way.
    pub fn look_any<A: Alarm>(
        &mut self,
        kernel: &Kernel,
        bounds: &Bounds,
        alarm: &mut A,
        guided: bool,
    ) -> Result<Look, NoMemory>
        requires ready { IsReady kernel.now }
        requires fit { IsFitFor kernel.now self.old }
        ensures looks { IfOk result (LooksAny bounds.now kernel.now) }
        ensures fit { IsFitFor kernel.now self.new }
        ensures heeds { IfOk result (λ look.
            HeedsIn look (view_alarm A.Alarm alarm.old) (view_alarm A.Alarm alarm.new)) }
        ensures quiet { OnErr result
            (IsQuiet (view_alarm A.Alarm alarm.old) (view_alarm A.Alarm alarm.new)) }
    {
        for place in 0..GROUPS {
            if rings_before(alarm, place, guided) {
                return Ok(Look::GaveWay);
            }
            match self.look(kernel, Group::at(place), bounds, alarm, guided)? {
                Look::Found(target) => return Ok(Look::Found(target)),
                Look::Nothing => {}
                Look::GaveWay => return Ok(Look::GaveWay),
            }
        }
        Ok(Look::Nothing)
    }
}
