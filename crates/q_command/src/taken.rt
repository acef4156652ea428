// The steps of a log that were taken: how many there are, how many of them were judged, and on demand they themselves with
// their lines.
ghost use Rattle.std.specs.Prelude.{◌≡◌, ◌<◌, ◌≤◌, ◌+◌, ◌-◌, ◌^◌, OnOk, cond};
ghost use Rattle.q_command.specs.Taken.{HasAdded, HasNone};

use q_logic::{NoMemory, Step};
use std::alloc::Global;

/// A step of a log, with the line on which it begins.
#[derive(Drop)]
pub struct TakenStep {
    pub line: u64,
    pub step: Step,
}

/// The steps so far.
#[derive(Drop)]
pub(crate) struct Taken {
    pub count: u64,
    pub judged: u64,
    pub keeps: bool,
    pub steps: Vec<TakenStep>,
}

fn one_more_if(is_one: bool, count: u64) -> u64
    requires { count < 2 ^ 64 - 1 }
    ensures { result ≡ cond is_one (count + 1) count }
{
    if is_one { count + 1 } else { count }
}

impl Taken {
    pub fn new(alloc: Global, keeps: bool) -> Taken
        ensures { HasNone keeps result }
    {
        Taken {
            count: 0,
            judged: 0,
            keeps,
            steps: Vec::new(alloc),
        }
    }

    /// Counts a step, and keeps it on demand. One that isn't kept is given back.
    pub fn add(&mut self, line: u64, step: Step, judged: bool) -> Result<Option<Step>, NoMemory>
        requires room { self.old.count < 2 ^ 64 - 1 }
        requires fewer { self.old.judged ≤ self.old.count }
        ensures { OnOk result (HasAdded (line, step) judged self.old self.new) }
    {
        self.count += 1;
        self.judged = one_more_if(judged, self.judged);
        if !self.keeps {
            return Ok(Some(step));
        }
        self.steps.push(TakenStep { line, step })?;
        Ok(None)
    }
}
