// Guides as rows write them: by name, or by a script of what they propose, one proposal after the other. A script that is at
// its end is done.
ghost use Rattle.std.specs.Prelude.{◌≡◌};
ghost use Rattle.q_kernel.specs.Prelude.{IsReady};
ghost use Rattle.q_logic.specs.Prelude.{Rose};

use crate::row_targets::{RowTarget, row_target_of};
use crate::trouble::Trouble;
use q_blocked::Step;
use q_guides::{Quiet, Touched};
use q_kernel::{ClauseId, Kernel};
use q_logic::Bounds;
use q_reduce::Target as Reduce;
use q_sched::{FewestFirst, Guide, Move, Proposal, ShortestFirst};
use std::alloc::Global;

/// After which answer to the proposal before a part of a script is due.
#[derive(Clone, Copy, PartialEq, Eq)]
enum When {
    Always,
    Taken,
    Refused,
}

/// A part of a script: a target, when it is due, and how often it is still proposed, without a number for ever.
#[derive(Clone, Copy)]
struct Part {
    row_target: RowTarget,
    when: When,
    left: Option<u32>,
}

impl Part {
    // Whether it is proposed now. A part that is passed over is over.
    fn is_due(&mut self, was_taken: bool) -> bool {
        let fits = match self.when {
            When::Always => true,
            When::Taken => was_taken,
            When::Refused => !was_taken,
        };
        if !fits {
            self.left = Some(0);
        }
        let Some(left) = self.left else {
            return true;
        };
        self.left = Some(left.saturating_sub(1));
        left > 0
    }
}

#[derive(Drop)]
struct Script {
    parts: Vec<Part>,
    was_taken: bool,
}

impl Script {
    fn next(&mut self) -> Proposal {
        for part in &mut self.parts {
            if part.is_due(self.was_taken) {
                return Proposal::Take(part.row_target.target);
            }
        }
        Proposal::Done
    }
}

#[derive(Drop)]
enum Plan {
    Script(Script),
    /// Proposes the clause that it met first as a unit clause for ever, also once this clause is gone.
    Remembering(Option<ClauseId>),
    Fewest(FewestFirst),
    Shortest(ShortestFirst),
    Touched(Touched<Quiet>),
}

impl Plan {
    fn next(&mut self, kernel: &Kernel) -> Proposal
        requires { IsReady kernel.now }
    {
        match self {
            Plan::Script(script) => script.next(),
            Plan::Remembering(id) => remembered(id, kernel),
            Plan::Fewest(guide) => guide.propose(kernel),
            Plan::Shortest(guide) => guide.propose(kernel),
            Plan::Touched(guide) => guide.propose(kernel),
        }
    }

    fn told(&mut self, taken: bool) {
        match self {
            Plan::Script(script) => script.was_taken = taken,
            Plan::Remembering(_) => {}
            Plan::Fewest(guide) => guide.told(taken),
            Plan::Shortest(guide) => guide.told(taken),
            Plan::Touched(guide) => guide.told(taken),
        }
    }

    fn hint(&self) -> &[Step] {
        match self {
            Plan::Touched(guide) => guide.hint(),
            _ => &[],
        }
    }
}

fn remembered(id: &mut Option<ClauseId>, kernel: &Kernel) -> Proposal {
    if id.is_none() {
        *id = kernel.next_live(0);
    }
    match *id {
        Some(c) => Proposal::Take(Move::Reduce(Reduce::Unit { c })),
        None => Proposal::Done,
    }
}

/// A guide of a row.
#[derive(Drop)]
pub struct RowGuide {
    asked: u64,
    last: Proposal,
    heard: bool,
    plan: Plan,
}

impl Guide for RowGuide {
    ghost asked = { λ g. g.asked };

    ghost last = { λ g. g.last };

    ghost heard = { λ g. g.heard };

    fn propose(&mut self, kernel: &Kernel) -> Proposal {
        self.asked = self.asked.saturating_add(1);
        self.last = self.plan.next(kernel);
        self.last
    }

    fn told(&mut self, taken: bool) {
        self.heard = taken;
        self.plan.told(taken);
    }

    fn hint(&self) -> &[Step] {
        self.plan.hint()
    }
}

/// The guide that a row writes.
pub(crate) fn guide_of(alloc: Global, text: &str) -> Result<RowGuide, Trouble> {
    let plan = match text {
        "remembering" => Plan::Remembering(None),
        "fewest" => Plan::Fewest(FewestFirst::new()),
        "shortest" => Plan::Shortest(ShortestFirst::new()),
        "touched" => Plan::Touched(Touched::new(alloc, Bounds::usual(), Quiet)),
        _ => Plan::Script(script_of(alloc, text)?),
    };
    Ok(RowGuide {
        asked: 0,
        last: Proposal::Done,
        heard: false,
        plan,
    })
}

// `done`, or parts divided by `, `.
fn script_of(alloc: Global, text: &str) -> Result<Script, Trouble> {
    let mut parts = Vec::new(alloc);
    if text != "done" {
        for part in text.split(", ") {
            parts.push(part_of(part)?)?;
        }
    }
    Ok(Script {
        parts,
        was_taken: false,
    })
}

// `TARGET`, `N times TARGET` or `for ever TARGET`, and behind it `if taken`, `if refused` or nothing.
fn part_of(text: &str) -> Result<Part, Trouble> {
    let (text, when) = when_of(text);
    let (text, left) = times_of(text)?;
    Ok(Part {
        row_target: row_target_of(text)?,
        when,
        left,
    })
}

fn when_of(text: &str) -> (&str, When) {
    if let Some(front) = text.strip_suffix(" if taken") {
        return (front, When::Taken);
    }
    match text.strip_suffix(" if refused") {
        Some(front) => (front, When::Refused),
        None => (text, When::Always),
    }
}

fn times_of(text: &str) -> Result<(&str, Option<u32>), Trouble> {
    if let Some(target) = text.strip_prefix("for ever ") {
        return Ok((target, None));
    }
    let Some((count, target)) = text.split_once(" times ") else {
        return Ok((text, Some(1)));
    };
    match count.parse::<u32>() {
        Ok(count) => Ok((target, Some(count))),
        Err(_) => Err(Trouble::Unreadable("how often a target is proposed")),
    }
}
