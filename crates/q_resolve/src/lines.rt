//! Whether a line of a trace is right. A resolvent is reduced in its own line; where there are several pivots, one will do.
ghost use Rattle.std.specs.Prelude.{◌≡◌, ◌↔◌, ◌<◌, ℕ, Some, None, IfOk, OnOk, IsTrue, length};
ghost use Rattle.q_logic.specs.Prelude.{Literal, IsIn};
ghost use Rattle.q_derive.specs.Traces.{AreBound, IsLeaf};
ghost use Rattle.q_derive.specs.Testing.{some};
ghost use Rattle.q_extract.specs.Saying.{said_in};
ghost use Rattle.q_extract.specs.Rows.{said_next, AreSound};
ghost use Rattle.q_resolve.specs.Seats.{AreSeats};
ghost use Rattle.q_resolve.specs.Leaves.{MayStand};
ghost use Rattle.q_resolve.specs.Tests.{is_anew};
ghost use Rattle.q_resolve.specs.Merging.{IsReady, IsSaidUpto};
ghost use Rattle.q_resolve.specs.Judged.{AreParentsBound, entries_of, found_parents, later_of, AreBefore, IsTrial, IsTried, IsDone, IsLeafJudged, IsSingleJudged, IsDoubleJudged, IsLineJudged};

use crate::fault::Fault;
use crate::finding::Found;
use crate::leaves::{Owner, may_stand};
use crate::marked::{Marked, mark};
use crate::reducing::{fault_of, reduce};
use crate::resolving::{Away, resolve};
use crate::saying::{keep, say_resolved, say_same};
use crate::tests::{are_bound, is_pivot, may_merge, merges_anew, some_meets};
use q_certificate::Table;
use q_extract::Sayings;
use q_logic::{Bound, Formula, Lit, NoMemory};
use q_qrp::Trace;

/// What comes of the literals of a line as pivots.
pub enum Tried {
    /// The resolvent by this one reduces to the line.
    Resolved(Lit),
    /// None will do: the last of their faults.
    Wrong(Fault),
}

// One literal of the first line as a pivot.
fn try_pivot(
    parent: &mut Marked,
    prefix: &[Bound],
    seats: &Table,
    own: &Marked,
    marked: &Marked,
    first: &[Lit],
    second: &[Lit],
    pivot: Lit,
) -> Result<Option<Fault>, NoMemory>
    requires seats { AreSeats prefix.now seats.now.items }
    requires marked { marked.now ≡ second.now }
    requires first { AreBound prefix.now first.now }
    requires second { AreBound prefix.now second.now }
    requires pivot { IsIn pivot first.now }
    ensures { IfOk result (λ fault. IsTrial prefix.now first.now second.now own.now pivot parent.new
        fault) }
{
    if !is_pivot(prefix, seats, marked, pivot) {
        return Ok(Some(Fault::NoPivot));
    }
    if !may_merge(prefix, seats, marked, first, pivot) {
        return Ok(Some(Fault::Merged));
    }
    resolve(parent, first, second, pivot)?;
    if merges_anew(prefix, seats, own, parent, own.as_slice()) {
        return Ok(Some(Fault::Merged));
    }
    Ok(fault_of(prefix, seats, own, parent.as_slice()))
}

fn later(fault: Fault, found: Fault) -> Fault
    ensures { result ≡ later_of fault found }
{
    if fault.number() < found.number() {
        return found;
    }
    fault
}

// All literals of the first line as pivots, until one will do.
fn try_pivots(
    parent: &mut Marked,
    prefix: &[Bound],
    seats: &Table,
    own: &Marked,
    marked: &Marked,
    first: &[Lit],
    second: &[Lit],
) -> Result<Tried, NoMemory>
    requires seats { AreSeats prefix.now seats.now.items }
    requires marked { marked.now ≡ second.now }
    requires first { AreBound prefix.now first.now }
    requires second { AreBound prefix.now second.now }
    ensures { IfOk result (λ tried. IsTried prefix.now first.now second.now own.now parent.new tried) }
{
    let mut fault = Fault::NoPivot;
    for k in first {
        let tried = try_pivot(parent, prefix, seats, own, marked, first, second, *k)?;
        match tried {
            None => return Ok(Tried::Resolved(*k)),
            Some(found) => fault = later(fault, found),
        }
    }
    Ok(Tried::Wrong(fault))
}

// What a line says and takes away, which is right.
fn finish(
    away: &mut Away,
    said: &mut Sayings,
    prefix: &[Bound],
    seats: &Table,
    owner: Owner,
    own: &Marked,
    parent: &[Lit],
    n: usize,
) -> Result<(), NoMemory>
    requires seats { AreSeats prefix.now seats.now.items }
    requires sound { AreSound away.old.drops }
    requires later { (x : ℕ) → said_in said.old n x ≡ None }
    requires bound { AreBound prefix.now parent.now }
    ensures { OnOk result (IsDone owner prefix.now parent.now own.now n away.old.drops
        away.new.drops said.old said.new) }
{
    keep(said, &away.drops, prefix, seats, own, n)?;
    reduce(away, prefix, seats, owner, own, parent)?;
    Ok(())
}

// Whether a line holds both signs of a variable of the owner of which its source does not.
fn merges_more(
    parent: &mut Marked,
    prefix: &[Bound],
    seats: &Table,
    own: &Marked,
    source: &[Lit],
) -> Result<bool, NoMemory>
    requires { AreSeats prefix.now seats.now.items }
    ensures { IfOk result (λ found. found ≡ some (λ (k : Literal). is_anew prefix.now own.now
        source.now k) own.now) }
{
    if !some_meets(prefix, seats, own, own.as_slice()) {
        return Ok(false);
    }
    mark(parent, source)?;
    Ok(merges_anew(prefix, seats, own, parent, own.as_slice()))
}

// The fault of a line that follows from one other.
fn judge_single(
    away: &mut Away,
    said: &mut Sayings,
    parent: &mut Marked,
    prefix: &[Bound],
    seats: &Table,
    owner: Owner,
    own: &Marked,
    source: &[Lit],
    i: usize,
    n: usize,
) -> Result<Option<Fault>, NoMemory>
    requires seats { AreSeats prefix.now seats.now.items }
    requires ready { IsReady n away.old.drops said.old }
    requires bound { AreBound prefix.now own.now }
    requires source { AreBound prefix.now source.now }
    ensures { IfOk result (λ fault. IsSingleJudged owner prefix.now source.now own.now
        (said_in said.old i) n away.old.drops away.new.drops said.old said.new fault) }
{
    let anew = merges_more(parent, prefix, seats, own, source)?;
    if anew {
        return Ok(Some(Fault::Merged));
    }
    match fault_of(prefix, seats, own, source) {
        Some(fault) => Ok(Some(fault)),
        None => {
            say_same(&mut away.drops, said, i, source)?;
            finish(away, said, prefix, seats, owner, own, source, n)?;
            Ok(None)
        }
    }
}

// What a resolvent says, by its pivot; its literals are marked, and those of the second line.
fn say_all(
    away: &mut Away,
    said: &Sayings,
    prefix: &[Bound],
    seats: &Table,
    owner: Owner,
    one: &mut Marked,
    two: &Marked,
    parent: &Marked,
    first: &[Lit],
    i: usize,
    j: usize,
    pivot: Lit,
) -> Result<(), NoMemory>
    requires seats { AreSeats prefix.now seats.now.items }
    requires sound { AreSound away.old.drops }
    requires fresh { (x : ℕ) → said_next away.old.drops x ≡ None }
    requires below { (m : ℕ) → (x : ℕ) → (k : ℕ) → said_in said.now m x ≡ Some k
        → k < length away.old.drops.merges.items }
    ensures { OnOk result (IsSaidUpto owner prefix.now pivot (said_in said.now i) (said_in said.now j)
        first.now two.now parent.now parent.now away.old.drops away.new.drops) }
{
    if !some_meets(prefix, seats, parent, parent.as_slice()) {
        return Ok(());
    }
    mark(one, first)?;
    say_resolved(
        &mut away.drops,
        said,
        prefix,
        seats,
        owner,
        i,
        j,
        one,
        two,
        parent,
        pivot,
    )?;
    Ok(())
}

// The fault of a line that follows from two.
fn judge_double(
    away: &mut Away,
    said: &mut Sayings,
    parent: &mut Marked,
    one: &mut Marked,
    two: &mut Marked,
    prefix: &[Bound],
    seats: &Table,
    owner: Owner,
    own: &Marked,
    first: &[Lit],
    second: &[Lit],
    i: usize,
    j: usize,
    n: usize,
) -> Result<Option<Fault>, NoMemory>
    requires seats { AreSeats prefix.now seats.now.items }
    requires ready { IsReady n away.old.drops said.old }
    requires bound { AreBound prefix.now own.now }
    requires first { AreBound prefix.now first.now }
    requires second { AreBound prefix.now second.now }
    ensures { IfOk result (λ fault. IsDoubleJudged owner prefix.now first.now second.now own.now
        (said_in said.old i) (said_in said.old j) n away.old.drops away.new.drops said.old said.new
        fault) }
{
    mark(two, second)?;
    let tried = try_pivots(parent, prefix, seats, own, two, first, second)?;
    match tried {
        Tried::Wrong(fault) => Ok(Some(fault)),
        Tried::Resolved(pivot) => {
            say_all(
                away, said, prefix, seats, owner, one, two, parent, first, i, j, pivot,
            )?;
            finish(away, said, prefix, seats, owner, own, parent.as_slice(), n)?;
            Ok(None)
        }
    }
}

/// Whether a line stands by itself.
pub fn is_leaf(
    formula: &Formula,
    prefix: &[Bound],
    seats: &Table,
    owner: Owner,
    own: &Marked,
    term: &[Lit],
) -> bool
    requires seats { AreSeats prefix.now seats.now.items }
    requires own { own.now ≡ term.now }
    ensures { IsTrue result ↔ IsLeaf prefix.now (MayStand owner formula.now.matrix) term.now }
{
    if some_meets(prefix, seats, own, term) {
        return false;
    }
    may_stand(formula, owner, own, term)
}

// The fault of a line that may stand by itself alone, if it does not.
fn judge_leaf(
    formula: &Formula,
    prefix: &[Bound],
    seats: &Table,
    owner: Owner,
    own: &Marked,
    term: &[Lit],
    fault: Fault,
) -> Option<Fault>
    requires seats { AreSeats prefix.now seats.now.items }
    requires own { own.now ≡ term.now }
    ensures { IsLeafJudged prefix.now (MayStand owner formula.now.matrix) term.now fault result }
{
    if is_leaf(formula, prefix, seats, owner, own, term) {
        return None;
    }
    Some(fault)
}

/// What the judge keeps from line to line.
#[derive(Drop)]
pub struct Desk {
    pub own: Marked,
    pub first: Marked,
    pub second: Marked,
    pub parent: Marked,
    pub away: Away,
    pub said: Sayings,
}

/// The fault of a line, if it has one; else what it says and takes away is noted.
pub fn judge_line(
    desk: &mut Desk,
    formula: &Formula,
    prefix: &[Bound],
    seats: &Table,
    owner: Owner,
    trace: &Trace,
    term: &[Lit],
    found: Found,
    n: usize,
) -> Result<Option<Fault>, NoMemory>
    requires seats { AreSeats prefix.now seats.now.items }
    requires ready { IsReady n desk.old.away.drops desk.old.said }
    requires found { AreBefore (length trace.now.lines) found }
    requires bound { AreParentsBound prefix.now (found_parents (entries_of trace.now.lines) found) }
    ensures { IfOk result (λ fault. IsLineJudged owner prefix.now formula.now.matrix (entries_of
        trace.now.lines) n found term.now desk.old.away.drops desk.new.away.drops desk.old.said
        desk.new.said fault) }
{
    if !are_bound(prefix, seats, term) {
        return Ok(Some(Fault::Unbound));
    }
    mark(&mut desk.own, term)?;
    match found {
        Found::Nothing => {
            let fault = judge_leaf(
                formula,
                prefix,
                seats,
                owner,
                &desk.own,
                term,
                Fault::NoLeaf,
            );
            Ok(fault)
        }
        Found::Gone => {
            let fault = judge_leaf(
                formula,
                prefix,
                seats,
                owner,
                &desk.own,
                term,
                Fault::Missing,
            );
            Ok(fault)
        }
        Found::Single(i) => {
            let source = trace.literals(i);
            let fault = judge_single(
                &mut desk.away,
                &mut desk.said,
                &mut desk.parent,
                prefix,
                seats,
                owner,
                &desk.own,
                source,
                i,
                n,
            )?;
            Ok(fault)
        }
        Found::Double(i, j) => {
            let first = trace.literals(i);
            let second = trace.literals(j);
            let fault = judge_double(
                &mut desk.away,
                &mut desk.said,
                &mut desk.parent,
                &mut desk.first,
                &mut desk.second,
                prefix,
                seats,
                owner,
                &desk.own,
                first,
                second,
                i,
                j,
                n,
            )?;
            Ok(fault)
        }
    }
}
