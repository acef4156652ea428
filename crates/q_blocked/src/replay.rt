//! A growth is gone through again.
//!
//! **The idea.** A growth is a list of steps: a clause gave a hidden literal, or covered literals came on a literal of the set.
//! Who has found that a clause is covered knows them. A second search takes these steps alone, and needs no walk along the lists
//! that lie between them.
//!
//! **Why a hint may be wrong.** A step is tested where it is taken, as if it had been found here: a clause that gives no
//! hidden literal is passed by, and so is a literal on which nothing is covered. Each step keeps what a growth keeps (`Growing`),
//! and where the last one leads to no end, the growth goes on from there as without a hint. So a hint may be of another formula,
//! or made up.
//!
//! **Cost.** One look at a clause for each hidden literal, and one walk along a list for each step of covered ones.
ghost use Rattle.std.specs.Prelude.{◌≡◌, IfOk};
ghost use Rattle.q_blocked.specs.Growths.{Growing, HasReplayed};
ghost use Rattle.q_blocked.specs.Notes.{AreApart};

use crate::apart::Apart;
use crate::cover::cover_at;
use crate::growth::Growth;
use crate::hidden::{give, hidden_by};
use crate::search::Search;
use q_kernel::{ClauseId, Kernel};
use q_logic::NoMemory;
use std::alloc::Global;

/// A step of a growth.
#[derive(Clone, Copy, Debug, PartialEq, Eq)]
pub enum Step {
    /// The clause of an id gave a hidden literal.
    Hidden(ClauseId),
    /// Covered literals came on the literal at a place of the set, or the set was blocked on it.
    Covered(usize),
}

/// Steps by which a clause may be covered, for one test.
#[derive(Drop)]
pub struct Hint {
    c: Option<ClauseId>,
    steps: Vec<Step>,
}

impl Hint {
    pub(crate) fn new(alloc: Global) -> Hint {
        Hint {
            c: None,
            steps: Vec::new(alloc),
        }
    }

    /// Takes steps for a clause: none of them, where memory is wanting.
    pub(crate) fn set(&mut self, c: ClauseId, steps: &[Step]) {
        self.c = Some(c);
        self.steps.clear();
        let _had_room = self.steps.extend_from_slice(steps);
    }

    // Whether the steps are for a clause. They are for none after that.
    fn is_used_for(&mut self, c: ClauseId) -> bool {
        let Some(d) = self.c.take() else {
            return false;
        };
        d == c
    }
}

// Grows by the hidden literal that the clause of an id gives, if it gives one. Yes where the growth ends.
fn redo_hidden(
    kernel: &Kernel,
    growth: &mut Growth,
    c: ClauseId,
    d: ClauseId,
) -> Result<bool, NoMemory>
    requires { Growing kernel.now c growth.old }
    ensures { IfOk result (HasReplayed kernel.now c growth.old growth.new) }
{
    let Some(new) = hidden_by(kernel, &growth.set, c, d) else {
        return Ok(false);
    };
    let ended = give(kernel, growth, c, d, new)?;
    Ok(ended)
}

// Takes a step, where it can be taken. Yes where the growth ends.
fn redo(
    kernel: &Kernel,
    growth: &mut Growth,
    apart: &mut Apart,
    c: ClauseId,
    step: Step,
) -> Result<bool, NoMemory>
    requires growing { Growing kernel.now c growth.old }
    requires apart { AreApart kernel.now apart.old }
    ensures replayed { IfOk result (HasReplayed kernel.now c growth.old growth.new) }
    ensures apart { AreApart kernel.now apart.new }
{
    match step {
        Step::Hidden(d) => redo_hidden(kernel, growth, c, d),
        Step::Covered(place) => {
            if place >= growth.set.len() {
                return Ok(false);
            }
            let progress = cover_at(kernel, growth, apart, c, place)?;
            Ok(progress.is_ended())
        }
    }
}

fn replay(
    kernel: &Kernel,
    growth: &mut Growth,
    apart: &mut Apart,
    c: ClauseId,
    steps: &[Step],
) -> Result<bool, NoMemory>
    requires growing { Growing kernel.now c growth.old }
    requires apart { AreApart kernel.now apart.old }
    ensures replayed { IfOk result (HasReplayed kernel.now c growth.old growth.new) }
    ensures apart { AreApart kernel.now apart.new }
{
    for step in steps {
        if redo(kernel, growth, apart, c, *step)? {
            return Ok(true);
        }
    }
    Ok(false)
}

/// Grows by the steps of the hint, if it is for this clause. Yes where the growth ends.
pub(crate) fn use_hint(kernel: &Kernel, search: &mut Search, c: ClauseId) -> Result<bool, NoMemory>
    requires growing { Growing kernel.now c search.old.growth }
    requires apart { AreApart kernel.now search.old.apart }
    ensures replayed { IfOk result (HasReplayed kernel.now c search.old.growth search.new.growth) }
    ensures units { search.new.units ≡ search.old.units }
    ensures watches { search.new.watches ≡ search.old.watches }
    ensures apart { AreApart kernel.now search.new.apart }
{
    if !search.hint.is_used_for(c) {
        return Ok(false);
    }
    replay(
        kernel,
        &mut search.growth,
        &mut search.apart,
        c,
        &search.hint.steps,
    )
}
