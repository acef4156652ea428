//! The search for a target, variable by variable.
//!
//! At an existential variable two sets are gathered: what its positive literal leads to, and what its negative one leads to.
//! A literal of the first set whose negation is in the second leads back, so the two are equivalent; the first one that may
//! stand for the literal is the answer. The negative literal needs no look, since it has the negated partners.
//!
//! What this costs: on a chain of implications each variable leads to all that come after it. So once these walks have
//! looked at more than the formula holds, levels are made (`levels.rt`), and walks stay on their level. On a level all is
//! joined each to the other, and of a component at most one variable finds no partner: the one that is outer to all others.
//! So all searches of a call together cost at most a few times the formula.
ghost use Rattle.std.specs.Prelude.{◌≡◌, ◌≤◌, ℕ, List, None, Some, IfOk, OnOk};
ghost use Rattle.q_logic.specs.Prelude.{Literal, negation, standard, IsInLimits, live, place};
ghost use Rattle.q_kernel.specs.Prelude.{slots, formula_in};
ghost use Rattle.q_equiv.specs.Walks.{NeverRise, IsGathered};
ghost use Rattle.q_rule.specs.Searching.{IsFound};
ghost use Rattle.q_equiv.specs.Targets.{target_of};
ghost use Rattle.q_equiv.specs.Searches.{IsKept};

use crate::components::Components;
use crate::joined::gather;
use crate::level_row::Levels;
use crate::levels::make_levels;
use crate::merge::can_stand_for;
use crate::target::Target;
use q_kernel::Kernel;
use q_logic::{Lit, NoMemory};
use q_rule::{Queue, is_existential};
use std::alloc::Global;

/// Room for walks, and the levels on which they stay.
#[derive(Drop)]
pub struct Walks {
    there: Queue,
    back: Queue,
    pub(crate) levels: Levels,
    pub(crate) components: Components,
    // how many clauses were looked at without levels
    looks: usize,
}

impl Walks {
    pub(crate) fn new(alloc: Global) -> Walks {
        Walks {
            there: Queue::new(alloc),
            back: Queue::new(alloc),
            levels: Levels::new(alloc),
            components: Components::new(alloc),
            looks: 0,
        }
    }
}

/// A target at the first variable from a number on at which one applies.
pub fn find_from(kernel: &Kernel, walks: &mut Walks, from: u32) -> Result<Option<Target>, NoMemory>
    requires { IsInLimits standard (formula_in kernel.now) }
    ensures { IfOk result (IsFound target_of kernel.now (λ t. from ≤ place (target_of t))) }
{
    walks.levels = Levels::new(kernel.allocator());
    walks.looks = 0;
    for var in from..kernel.greatest_var() + 1 {
        let found = find_at(kernel, walks, var)?;
        if found.is_some() {
            return Ok(found);
        }
    }
    Ok(None)
}

// A target at a variable. The other literal of the variable needs no look: what keeps its negation keeps it.
fn find_at(kernel: &Kernel, walks: &mut Walks, var: u32) -> Result<Option<Target>, NoMemory>
    requires { NeverRise walks.old.levels (live (slots kernel.now)) }
    ensures found { IfOk result (IsFound target_of kernel.now (λ t. place (target_of t) ≡ var)) }
    ensures falling { OnOk result (NeverRise walks.new.levels (live (slots kernel.now))) }
{
    if !is_existential(kernel, var) {
        return Ok(None);
    }
    kernel.sound();
    let gone = Lit::new(var, false);
    match find_keep(kernel, walks, gone)? {
        Some(keep) => Ok(Some(Target::Merge { keep, gone })),
        None => Ok(None),
    }
}

// A literal that may take the place of one.
fn find_keep(kernel: &Kernel, walks: &mut Walks, gone: Lit) -> Result<Option<Lit>, NoMemory>
    requires { NeverRise walks.old.levels (live (slots kernel.now)) }
    ensures kept { IfOk result (IsKept kernel.now gone) }
    ensures falling { OnOk result (NeverRise walks.new.levels (live (slots kernel.now))) }
{
    level_off(kernel, walks)?;
    let there = gather(kernel, &mut walks.there, &walks.levels, gone)?;
    let back = gather(kernel, &mut walks.back, &walks.levels, gone.negated())?;
    walks.looks = walks.looks.saturating_add(there).saturating_add(back);
    Ok(pick(kernel, &walks.there, &walks.back, gone))
}

// Of the literals to which gone leads one that may take its place and leads back: then the negation of gone leads to its
// negation.
fn pick(kernel: &Kernel, there: &Queue, back: &Queue, gone: Lit) -> Option<Lit>
    requires { (levels : List ℕ) × NeverRise levels (live (slots kernel.now))
        × IsGathered levels (live (slots kernel.now)) gone there.now
        × IsGathered levels (live (slots kernel.now)) (negation gone) back.now }
    ensures { IsKept kernel.now gone result }
{
    for place in 0..there.len() {
        let keep = there.at(place);
        if back.has(keep.negated()) && can_stand_for(kernel, keep, gone) {
            return Some(keep);
        }
    }
    None
}

// Makes levels once walks without them have looked at more than the formula holds.
fn level_off(kernel: &Kernel, walks: &mut Walks) -> Result<(), NoMemory>
    requires { NeverRise walks.old.levels (live (slots kernel.now)) }
    ensures { OnOk result (NeverRise walks.new.levels (live (slots kernel.now))) }
{
    if walks.levels.is_empty() && walks.looks > kernel.size() {
        walks.looks = 0;
        make_levels(kernel, &mut walks.components, &mut walks.levels)?;
    }
    Ok(())
}
