//! Covered clauses.
//!
//! **The idea.** A clause may have further literals without a change of what the formula says. A *hidden* literal: all
//! literals of another clause but one are in it, and the negation of that one comes. *Covered* literals: on an
//! existential literal l of it, all literals come that are in the outer part of each clause with `not l` that does not
//! clash with it. Where the clause has grown to a tautology, or is blocked, it goes.
//!
//! **Source.** Marijn Heule, Matti Järvisalo and Armin Biere, "Covered Clause Elimination" (LPAR 2010); with Florian
//! Lonsing and Martina Seidl, "Clause Elimination for SAT and QSAT" (JAIR 53, 2015). (The conditions on the prefix are
//! this project's own.)
//!
//! **Condition and law.** `Covers` (`q_logic/specs/Covering.antt`). No is right because of `closed-covers_none`
//! (`q_logic/proofs/CoverRun.antt`): what stops one order of growing stops every order.
//!
//! **How it is found.** The set is a list with marks. For hidden literals the list of each literal is walked once, when its turn comes;
//! where many clauses are tested in one formula, the clauses that watch it instead (`watching.rt`). Then each literal that did not come hidden is looked at for covered ones, until a pass over
//! them finds none. The clauses of one literal come last, since no list leads to them, and only where nothing else ended the growth.
//!
//! On a literal l that came hidden nothing is covered. The clause that gave it holds `not l`, and its other literals are in the
//! set: so it does not clash, and has nothing else to give. It is one of the kernel's, which does not change while a set
//! grows, and the set only grows, so this stays so.
//!
//! Most looks find nothing, and for the reason of the last look, at this clause or at one before. So it is noted and
//! asked first: two clauses with `not l` that have nothing in common beyond the set (`pairs.rt`), the places in a long
//! clause of two literals that were not in the set (`nothing_hidden.rt`). This is tested each time, so it may be out of date. Where the
//! two clauses have nothing in common at all, that is known for the kernel, and not tested again (`apart.rt`).
//!
//! **The steps** (`plan.rt`, `covering.rt`). A stage is a larger clause that comes, after which the smaller one goes.
//! Hidden literals need none of their own: the smaller clause is implied by the larger one through all of them, and a
//! pivot of it is as good. So there is a stage for each covered growth, and one before it only where its literal has
//! come since the last one. The last clause goes by its pivot, or because it is implied.
//!
//! **Cost.** For hidden literals the lists of the set's literals once, or the clauses that watch them. For
//! covered ones two clauses for each literal of the set, as often as covered literals come, and the list of the
//! negation of a literal where what was noted for it holds no more. The text of the steps grows with the stages times
//! the set. Where there are clauses of one literal, finding them is a pass over the formula, once in a search and once
//! in a trial that says No.
//!
//! **What it may make applicable.** A clause goes: its literals may become pure, and the clauses with their negations
//! blocked or covered.
ghost use Rattle.std.specs.Prelude.{◌≡◌, ◌↔◌, ℕ, ◌++◌, ◌<◌, ◌≤◌, true, length, slice_get, Some, None, OnOk, IfOk, IsTrue};
ghost use Rattle.q_logic.specs.declared.rule_bounds.Bounds.{Bounds};
ghost use Rattle.q_logic.specs.Prelude.{Literal, negation, Clause, IsIn, slot, others, cover, Fits};
ghost use Rattle.q_kernel.specs.Prelude.{Seen, slots};
ghost use Rattle.q_blocked.specs.Growths.{Growing, CoveredBy, HasCovered, HasLooked, HasDecided};
ghost use Rattle.q_watch.specs.Watches.{AreRightFor};
ghost use Rattle.q_blocked.specs.Following.{IsFollowed, HasTurnedFollowed};
ghost use Rattle.q_blocked.specs.Units.{AreRight};
ghost use Rattle.q_blocked.specs.Notes.{AreApart};
ghost use Rattle.q_blocked.specs.Plans.{IsPlanFor};

use crate::apart::Apart;
use crate::covered::{covered_at, is_bare};
use crate::growth::{Growth, add_places};
use crate::hidden::use_units;
use crate::pairs::covers_nothing;
use crate::progress::Progress;
use crate::replay::{Step, use_hint};
use crate::search::Search;
use crate::watching::close;
use q_kernel::{ClauseId, Kernel};
use q_logic::{Lit, NoMemory};
use q_rule::{Queue, clause_of, is_existential, is_tautology};

fn push_all(set: &mut Queue, lits: &[Lit]) -> Result<(), NoMemory>
    ensures { OnOk result (set.new ≡ set.old ++ lits.now) }
{
    for k in lits {
        set.push(*k)?;
    }
    Ok(())
}

// Whether the set holds the negation of one of the literals.
fn opposes(set: &Queue, lits: &[Lit]) -> bool
    ensures { IsTrue result ↔ ((k : Literal) × IsIn k lits.now × IsIn (negation k) set.now) }
{
    for k in lits {
        if set.has(k.negated()) {
            return true;
        }
    }
    false
}

// Makes the literal at a place one of the last stage.
fn end_stage(growth: &mut Growth, place: usize) -> Result<(), NoMemory>
    requires { place < length growth.old.set }
    ensures growing { OnOk result
        ((k : Seen) (c : ℕ) → Growing k c growth.old → Growing k c growth.new) }
    ensures staged { OnOk result (place < growth.new.base) }
    ensures set { growth.new.set ≡ growth.old.set }
    ensures worked { growth.new.worked ≡ growth.old.worked }
    ensures found { growth.new.found ≡ growth.old.found }
{
    growth.steps.push(Step::Covered(place))?;
    if growth.base <= place {
        growth.note(None)?;
    }
    Ok(())
}

// Grows by the covered literals that were found on the literal at a place of the last stage.
fn cover_by(
    kernel: &Kernel,
    growth: &mut Growth,
    c: ClauseId,
    place: usize,
) -> Result<Progress, NoMemory>
    requires growing { Growing kernel.now c growth.old }
    requires staged { place < growth.old.base }
    requires found { (l : Literal) → slice_get growth.old.set place ≡ Some l
        → CoveredBy kernel.now.prefix (others c (slots kernel.now)) growth.old.set
        growth.old.found.items l }
    ensures { IfOk result (HasCovered kernel.now c growth.old growth.new) }
{
    kernel.sound();
    let l = growth.set.at(place);
    let before = growth.set.len();
    push_all(&mut growth.set, &growth.found)?;
    if opposes(&growth.set, &growth.found) {
        growth.plan.last = Some(l);
        return Ok(Progress::Ended);
    }
    add_places(&mut growth.asked, before, growth.set.len())?;
    growth.note(Some(l))?;
    Ok(Progress::Grown)
}

// Grows by the covered literals on the literal at a place of the set.
pub(crate) fn cover_at(
    kernel: &Kernel,
    growth: &mut Growth,
    apart: &mut Apart,
    c: ClauseId,
    place: usize,
) -> Result<Progress, NoMemory>
    requires growing { Growing kernel.now c growth.old }
    requires there { place < length growth.old.set }
    requires apart { AreApart kernel.now apart.old }
    ensures looked { IfOk result (HasLooked kernel.now c (λ l.
        slice_get growth.old.set place ≡ Some l) growth.old growth.new) }
    ensures apart { AreApart kernel.now apart.new }
{
    let l = growth.set.at(place);
    if !is_existential(kernel, l.var()) {
        return Ok(Progress::Unchanged);
    }
    if covers_nothing(kernel, &growth.set, &growth.pairs, apart, c, l) {
        return Ok(Progress::Unchanged);
    }
    if !covered_at(
        kernel,
        &growth.set,
        &mut growth.found,
        &mut growth.spare,
        c,
        l,
    )? {
        end_stage(growth, place)?;
        growth.plan.last = Some(l);
        return Ok(Progress::Ended);
    }
    if is_bare(&growth.found) {
        growth.pairs.note(l, growth.spare.pair)?;
        return Ok(Progress::Unchanged);
    }
    end_stage(growth, place)?;
    cover_by(kernel, growth, c, place)
}

// Grows by the covered literals on each literal of the set, those that come included. Those that came hidden are passed by:
// nothing is covered on them.
fn pass(
    kernel: &Kernel,
    growth: &mut Growth,
    apart: &mut Apart,
    c: ClauseId,
) -> Result<Progress, NoMemory>
    requires growing { Growing kernel.now c growth.old }
    requires apart { AreApart kernel.now apart.old }
    ensures looked { IfOk result (HasLooked kernel.now c (λ l.
        IsIn l growth.old.set) growth.old growth.new) }
    ensures apart { AreApart kernel.now apart.new }
{
    let mut grew = false;
    for at in 0..usize::MAX {
        if at >= growth.asked.len() {
            if grew {
                return Ok(Progress::Grown);
            }
            return Ok(Progress::Unchanged);
        }
        let place = growth.asked[at];
        let progress = cover_at(kernel, growth, apart, c, place)?;
        if progress.is_ended() {
            return Ok(Progress::Ended);
        }
        grew = grew || progress.is_grown();
    }
    // a set that large has no place in memory
    Err(NoMemory)
}

// Grows by all that is known without the clauses of one literal, and then by these.
fn round(kernel: &Kernel, search: &mut Search, c: ClauseId) -> Result<Progress, NoMemory>
    requires growing { Growing kernel.now c search.old.growth }
    requires followed { IsFollowed kernel.now search.old.watches c search.old.growth }
    requires units { AreRight (slots kernel.now) search.old.units }
    requires watches { AreRightFor kernel.now search.old.watches }
    requires apart { AreApart kernel.now search.old.apart }
    ensures turned { IfOk result (HasTurnedFollowed kernel.now c search.new.watches search.new.growth) }
    ensures units { AreRight (slots kernel.now) search.new.units }
    ensures watches { AreRightFor kernel.now search.new.watches }
    ensures apart { AreApart kernel.now search.new.apart }
{
    if close(kernel, &mut search.growth, &mut search.watches, c)? {
        return Ok(Progress::Ended);
    }
    let progress = pass(kernel, &mut search.growth, &mut search.apart, c)?;
    if progress.is_ended() {
        return Ok(Progress::Ended);
    }
    if progress.is_grown() {
        return Ok(Progress::Grown);
    }
    search.units.learn(kernel)?;
    let last = use_units(kernel, &mut search.growth, c, &search.units.ids)?;
    Ok(last)
}

// Whether some growth of the set ends.
fn covers(kernel: &Kernel, search: &mut Search, c: ClauseId) -> Result<bool, NoMemory>
    requires growing { Growing kernel.now c search.old.growth }
    requires followed { IsFollowed kernel.now search.old.watches c search.old.growth }
    requires units { AreRight (slots kernel.now) search.old.units }
    requires watches { AreRightFor kernel.now search.old.watches }
    requires apart { AreApart kernel.now search.old.apart }
    ensures decided { IfOk result (HasDecided kernel.now c search.new.growth) }
    ensures units { AreRight (slots kernel.now) search.new.units }
    ensures watches { AreRightFor kernel.now search.new.watches }
    ensures apart { AreApart kernel.now search.new.apart }
{
    for _round in 0..usize::MAX {
        let progress = round(kernel, search, c)?;
        if progress.is_ended() {
            return Ok(true);
        }
        if !progress.is_grown() {
            return Ok(false);
        }
    }
    // a set that large has no place in memory
    Err(NoMemory)
}

/// Whether some growth of a clause ends; the steps by which the clause goes then.
pub fn fits_cover(kernel: &Kernel, search: &mut Search, c: ClauseId) -> Result<bool, NoMemory>
    requires units { AreRight (slots kernel.now) search.old.units }
    requires watches { AreRightFor kernel.now search.old.watches }
    requires apart { AreApart kernel.now search.old.apart }
    ensures fits { IfOk result (λ yes.
        (B : Bounds) → IsTrue yes ↔ Fits B kernel.now.prefix (slots kernel.now) (cover c)) }
    ensures plan { IfOk result (λ yes.
        IsTrue yes → IsPlanFor kernel.now.prefix (slots kernel.now) c search.new.growth.plan) }
    ensures units { AreRight (slots kernel.now) search.new.units }
    ensures watches { AreRightFor kernel.now search.new.watches }
    ensures apart { AreApart kernel.now search.new.apart }
{
    if !kernel.live(c) {
        return Ok(false);
    }
    kernel.sound();
    search.watches.learn(kernel);
    let yes = decide(kernel, search, c)?;
    if yes {
        search.growth.write()?;
    }
    Ok(yes)
}

fn decide(kernel: &Kernel, search: &mut Search, c: ClauseId) -> Result<bool, NoMemory>
    requires live { (C : Clause) × (slot (slots kernel.now) c ≡ Some C) }
    requires units { AreRight (slots kernel.now) search.old.units }
    requires watches { AreRightFor kernel.now search.old.watches }
    requires apart { AreApart kernel.now search.old.apart }
    ensures decided { IfOk result (HasDecided kernel.now c search.new.growth) }
    ensures units { AreRight (slots kernel.now) search.new.units }
    ensures watches { AreRightFor kernel.now search.new.watches }
    ensures apart { AreApart kernel.now search.new.apart }
{
    let clause = clause_of(kernel, c);
    search.growth.begin(clause)?;
    if is_tautology(clause) {
        search.growth.plan.last = None;
        return Ok(true);
    }
    if use_hint(kernel, search, c)? {
        return Ok(true);
    }
    covers(kernel, search, c)
}
