//! A drive asks its guides in turn.
//!
//! Each turn looks at the budget first. Where it is spent, one round of searches decides between `Settled` and `Spent`. Else
//! the first guide is asked, or dropped once it is over or was refused often enough; where none is left, the rules are searched
//! in their order. Each turn but the last lowers the formula's measure, or what `left` says, so turns come to an end whatever
//! the guides do. An alarm is asked on the way of each search; where it rings, the search gives way, and the turn says so.
ghost use Rattle.std.specs.Prelude.{◌≡◌, ◌≢◌, ◌≤◌, ◌<◌, ◌^◌, [], take, IfOk, OnErr, vec_len, IsTrue, ◌↔◌, false};
ghost use Rattle.q_kernel.specs.Prelude.{IsReady};
ghost use Rattle.q_reduce.specs.Learned.{IsFitFor, nothing_learned};
ghost use Rattle.q_sched.specs.Alarms.{IsQuiet};
ghost use Rattle.q_sched.specs.AlarmViews.{view_alarm};
ghost use Rattle.q_sched.specs.Looks.{Heeds};

use crate::alarm::{Alarm, Never};
use crate::asking::{Reply, ask_last};
use crate::guide::Guide;
use crate::searches::Searches;
use crate::searching::{close, search};
use crate::turns::Turn;
use q_kernel::Kernel;
use q_logic::{Bounds, NoMemory};

// At most so many guides are asked.
const MOST_GUIDES: usize = 1_000_000;

// A guide is dropped after so many refusals.
const MOST_REFUSALS: u64 = 1_024;

/// Asks guides, and searches once none is left. The guides stand in reverse, so the first of them is the last of `waiting`.
#[derive(Drop)]
pub struct Drive {
    bounds: Bounds,
    limit: Option<u64>,
    from: u64,
    waiting: Vec<Box<dyn Guide>>,
    refusals: u64,
    is_over: bool,
    searches: Searches,
    ghost few_guides: { vec_len waiting ≤ 1000000 },
    ghost few_refusals: { refusals ≤ 1024 },
}

impl Drive {
    ghost use Rattle.q_sched.specs.Drives.{Driving, left_of, IsSpentAt, IsFinished, Drops, AsksFirst, Turned, Stays};
    ghost use Rattle.q_sched.specs.Meanings.{meanings};
    ghost use Rattle.q_sched.specs.Seen.{seen, learned};

    /// Begins with these guides, the first of them asked first; those past `MOST_GUIDES` are dropped unasked. It takes no memory.
    pub fn start(
        guides: Vec<Box<dyn Guide>>,
        bounds: Bounds,
        budget: Option<u64>,
        first_measure: u64,
    ) -> Drive
        requires first { first_measure ≤ 2 ^ 60 }
        ensures seen { seen (λ b. asked b) (λ b. last b) (λ b.
            heard b) result ≡ record {
              bounds = bounds;
              budget = budget;
              first_measure = first_measure;
              guides = meanings (λ b. asked b) (λ b. last b) (λ b.
                  heard b) (take 1000000 guides.items);
              refused = 0;
              over = false;
            } }
        ensures learned { learned result ≡ nothing_learned }
    {
        let searches = Searches::new(*guides.allocator());
        let mut waiting = guides;
        waiting.truncate(MOST_GUIDES);
        waiting.reverse();
        Drive {
            bounds,
            limit: budget,
            from: first_measure,
            waiting,
            refusals: 0,
            is_over: false,
            searches,
        }
    }

    /// How many turns with `Asked` may still come.
    pub fn left(&self) -> u64
        ensures { result ≡ left_of (seen (λ b. asked b) (λ b. last b) (λ b. heard b) self.now) }
    {
        let guides = self.waiting.len() as u64;
        if guides == 0 {
            return 0;
        }
        let first = if self.is_over {
            1
        } else {
            1025 - self.refusals
        };
        first + 1025 * (guides - 1)
    }

    fn is_spent(&self, measure: u64) -> bool
        ensures { IsTrue result ↔ IsSpentAt
            (seen (λ b. asked b) (λ b. last b) (λ b. heard b) self.now).budget
            (seen (λ b. asked b) (λ b. last b) (λ b. heard b) self.now).first_measure measure }
    {
        match self.limit {
            None => false,
            Some(budget) => budget <= self.from && measure <= self.from - budget,
        }
    }

    fn drop_first(&mut self)
        requires some { (seen (λ b. asked b) (λ b. last b) (λ b. heard b) self.old).guides ≢ [] }
        ensures drops { Drops (seen (λ b. asked b) (λ b. last b) (λ b. heard b) self.old)
            (seen (λ b. asked b) (λ b. last b) (λ b. heard b) self.new) }
        ensures left { IsFinished (seen (λ b. asked b) (λ b. last b) (λ b. heard b) self.old)
            → left_of (seen (λ b. asked b) (λ b. last b) (λ b. heard b) self.new)
            < left_of (seen (λ b. asked b) (λ b. last b) (λ b. heard b) self.old) }
        ensures learned { learned self.new ≡ learned self.old }
    {
        self.waiting.pop();
        self.refusals = 0;
        self.is_over = false;
    }

    fn ask_first(&mut self, kernel: &mut Kernel) -> Result<Turn, NoMemory>
        requires some { (seen (λ b. asked b) (λ b. last b) (λ b. heard b) self.old).guides ≢ [] }
        requires unfinished { ¬ IsFinished
            (seen (λ b. asked b) (λ b. last b) (λ b. heard b) self.old) }
        requires ready { IsReady kernel.old }
        requires fit { IsFitFor kernel.old (learned self.old) }
        ensures asks { IfOk result (λ turn.
            AsksFirst (seen (λ b. asked b) (λ b. last b) (λ b. heard b) self.old) kernel.old turn
            (seen (λ b. asked b) (λ b. last b) (λ b. heard b) self.new) kernel.new) }
        ensures err { OnErr result
            (Stays (seen (λ b. asked b) (λ b. last b) (λ b. heard b) self.old) kernel.old
            (seen (λ b. asked b) (λ b. last b) (λ b. heard b) self.new) kernel.new) }
        ensures ready { IsReady kernel.new }
        ensures fit { IsFitFor kernel.new (learned self.new) }
    {
        match ask_last(&mut self.waiting, kernel, &mut self.searches, &self.bounds)? {
            Reply::Over => {
                self.is_over = true;
                Ok(Turn::Asked)
            }
            Reply::Taken => Ok(Turn::Moved),
            Reply::Refused => {
                self.refusals += 1;
                Ok(Turn::Asked)
            }
        }
    }

    /// One turn, by itself. The kernel is as before but where a target is taken. It may be any kernel: what was learned in earlier turns
    /// is forgotten.
    pub fn turn(&mut self, kernel: &mut Kernel) -> Result<Turn, NoMemory>
        requires ready { IsReady kernel.old }
        ensures turned { IfOk result (λ turn.
            Turned (seen (λ b. asked b) (λ b. last b) (λ b. heard b) self.old) kernel.old turn
            (seen (λ b. asked b) (λ b. last b) (λ b. heard b) self.new) kernel.new) }
        ensures whole { IfOk result (λ turn. turn ≢ Turn.GaveWay) }
        ensures err { OnErr result
            (Stays (seen (λ b. asked b) (λ b. last b) (λ b. heard b) self.old) kernel.old
            (seen (λ b. asked b) (λ b. last b) (λ b. heard b) self.new) kernel.new) }
        ensures ready { IsReady kernel.new }
        ensures fit { IsFitFor kernel.new (learned self.new) }
    {
        self.searches.forget();
        self.next_turn(kernel, &mut Never::new())
    }

    /// The same under an alarm, which is asked within a search, and for a caller that shows that what was learned is right for this
    /// kernel, as it is after a turn over it. It is not forgotten.
    pub fn next_turn<A: Alarm>(
        &mut self,
        kernel: &mut Kernel,
        alarm: &mut A,
    ) -> Result<Turn, NoMemory>
        requires ready { IsReady kernel.old }
        requires fit { IsFitFor kernel.old (learned self.old) }
        ensures turned { IfOk result (λ turn.
            Turned (seen (λ b. (⟦<dyn Guide as Guide>⟧ b.vtable).asked b.value) (λ b.
            (⟦<dyn Guide as Guide>⟧ b.vtable).last b.value) (λ b.
            (⟦<dyn Guide as Guide>⟧ b.vtable).heard b.value) self.old) kernel.old turn
            (seen (λ b. (⟦<dyn Guide as Guide>⟧ b.vtable).asked b.value) (λ b.
            (⟦<dyn Guide as Guide>⟧ b.vtable).last b.value) (λ b.
            (⟦<dyn Guide as Guide>⟧ b.vtable).heard b.value) self.new) kernel.new) }
        ensures err { OnErr result
            (Stays (seen (λ b. (⟦<dyn Guide as Guide>⟧ b.vtable).asked b.value) (λ b.
            (⟦<dyn Guide as Guide>⟧ b.vtable).last b.value) (λ b.
            (⟦<dyn Guide as Guide>⟧ b.vtable).heard b.value) self.old) kernel.old
            (seen (λ b. (⟦<dyn Guide as Guide>⟧ b.vtable).asked b.value) (λ b.
            (⟦<dyn Guide as Guide>⟧ b.vtable).last b.value) (λ b.
            (⟦<dyn Guide as Guide>⟧ b.vtable).heard b.value) self.new) kernel.new) }
        ensures ready { IsReady kernel.new }
        ensures fit { IsFitFor kernel.new (learned self.new) }
        ensures heeds { IfOk result (λ turn.
            Heeds turn (view_alarm A.Alarm alarm.old) (view_alarm A.Alarm alarm.new)) }
        ensures quiet { OnErr result
            (IsQuiet (view_alarm A.Alarm alarm.old) (view_alarm A.Alarm alarm.new)) }
    {
        let guided = !self.waiting.is_empty();
        if self.is_spent(kernel.measure(&self.bounds)) {
            return close(kernel, &mut self.searches, &self.bounds, alarm, guided);
        }
        if self.waiting.is_empty() {
            return search(kernel, &mut self.searches, &self.bounds, alarm);
        }
        if self.is_over || self.refusals == MOST_REFUSALS {
            self.drop_first();
            return Ok(Turn::Asked);
        }
        self.ask_first(kernel)
    }
}
