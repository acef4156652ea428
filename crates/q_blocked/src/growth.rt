//! A set of literals that grows, and the stages at which its clause is made larger.
ghost use Rattle.std.specs.Prelude.{◌≡◌, ◌<◌, ◌≤◌, ◌∷◌, ◌++◌, [], length, OnOk};
ghost use Rattle.q_blocked.specs.Growths.{HasPlaces};

use crate::clashing::fill;
use crate::covered::Spare;
use crate::nothing_hidden::Hints;
use crate::pairs::Pairs;
use crate::plan::{Plan, Stage};
use crate::replay::Step;
use q_logic::{Lit, NoMemory};
use q_rule::Queue;
use std::alloc::Global;

/// The literals of a clause, and those that it may have as well. Runs of hidden literals need no stage of their own:
/// the clause before them is implied by the one behind them, and its pivots are as good.
#[derive(Drop)]
pub struct Growth {
    /// The literals, in the order of their coming.
    pub set: Queue,
    /// The stages so far.
    pub plan: Plan,
    /// The literals before this place are those of the last stage.
    pub base: usize,
    /// The lists of the literals before this place were walked for hidden literals.
    pub worked: usize,
    /// The covered literals that were found last.
    pub found: Vec<Lit>,
    /// Room for fewer of them.
    pub spare: Spare,
    /// Clauses that showed, at a clause before or at this one, that nothing is covered.
    pub pairs: Pairs,
    /// Literals that showed so that nothing is hidden.
    pub hints: Hints,
    /// The places of the literals that did not come hidden. On the others nothing is covered.
    pub asked: Vec<usize>,
    /// The steps so far.
    pub steps: Vec<Step>,
}

impl Growth {
    pub fn new(alloc: Global) -> Growth
        ensures set { result.set ≡ [] }
        ensures stages { result.plan.stages.items ≡ [] }
    {
        Growth {
            set: Queue::new(alloc),
            plan: Plan::new(alloc),
            base: 0,
            worked: 0,
            found: Vec::new(alloc),
            spare: Spare::new(alloc),
            pairs: Pairs::new(alloc),
            hints: Hints::new(alloc),
            asked: Vec::new(alloc),
            steps: Vec::new(alloc),
        }
    }

    /// Begins with the literals of a clause.
    pub fn begin(&mut self, clause: &[Lit]) -> Result<(), NoMemory>
        ensures set { OnOk result (self.new.set ≡ clause.now) }
        ensures stages { OnOk result (self.new.plan.stages.items ≡ []) }
        ensures base { OnOk result (self.new.base ≡ length clause.now) }
        ensures worked { OnOk result (self.new.worked ≡ 0) }
        ensures asked { OnOk result (HasPlaces [] 0 (length clause.now) self.new.asked.items) }
    {
        fill(&mut self.set, clause)?;
        self.plan.stages.clear();
        self.base = clause.len();
        self.worked = 0;
        self.asked.clear();
        self.steps.clear();
        add_places(&mut self.asked, 0, clause.len())
    }

    /// Makes the set the clause of a stage.
    pub fn note(&mut self, on: Option<Lit>) -> Result<(), NoMemory>
        ensures stages { OnOk result
            (self.new.plan.stages.items
            ≡ self.old.plan.stages.items ++ record { to = length self.old.set; on = on } ∷ []) }
        ensures base { OnOk result (self.new.base ≡ length self.old.set) }
        ensures set { self.new.set ≡ self.old.set }
        ensures worked { self.new.worked ≡ self.old.worked }
        ensures found { self.new.found ≡ self.old.found }
        ensures asked { self.new.asked ≡ self.old.asked }
    {
        let to = self.set.len();
        self.plan.stages.push(Stage { to, on })?;
        self.base = to;
        Ok(())
    }

    /// Writes the literals down for the steps.
    pub fn write(&mut self) -> Result<(), NoMemory>
        ensures lits { OnOk result (self.new.plan.lits.items ≡ self.old.set) }
        ensures stages { self.new.plan.stages.items ≡ self.old.plan.stages.items }
        ensures last { self.new.plan.last ≡ self.old.plan.last }
    {
        copy(&self.set, &mut self.plan.lits)
    }
}

/// Adds the places from one to another to a list.
pub(crate) fn add_places(places: &mut Vec<usize>, from: usize, to: usize) -> Result<(), NoMemory>
    requires { from ≤ to }
    ensures { OnOk result (HasPlaces places.old.items from to places.new.items) }
{
    for place in from..to {
        places.push(place)?;
    }
    Ok(())
}

fn copy(set: &Queue, lits: &mut Vec<Lit>) -> Result<(), NoMemory>
    ensures { OnOk result (lits.new.items ≡ set.now) }
{
    lits.clear();
    for place in 0..set.len() {
        lits.push(set.at(place))?;
    }
    Ok(())
}
