//! The judge: the lines of the cone, one after the other, and circuits of what they take away.
ghost use Rattle.std.specs.Prelude.{◌≡◌, ◌<◌, [], length, slice_index_or, false, IfOk};
ghost use Rattle.q_logic.specs.Prelude.{Distinct, IsFormula};
ghost use Rattle.q_derive.specs.Traces.{IsEnd, IsEndless};
ghost use Rattle.q_extract.specs.Rows.{drops_in};
ghost use Rattle.q_resolve.specs.Merging.{IsReady};
ghost use Rattle.q_resolve.specs.Seats.{AreSeats};
ghost use Rattle.q_resolve.specs.Leaves.{prefix_for};
ghost use Rattle.q_resolve.specs.Judged.{entries_of, parents_at, found_at, line_at, AreParentsBound, IsLineJudged, AreCone, IsAnswer, IsCertified, IsRefuted, IsRefusal};
ghost use Rattle.q_resolve.specs.Derived.{IsConeJudged, IsStood, IsTurn};

use crate::cone::{cone_of, find_end};
use crate::fault::{Fault, Wrong};
use crate::finding::sources;
use crate::judged::Judged;
use crate::leaves::{Owner, may_stand};
use crate::lines::{Desk, judge_line};
use crate::marked::Marked;
use crate::resolving::Away;
use crate::seats::{exchange, seats_of};
use q_certificate::Table;
use q_extract::{Sayings, extract};
use q_logic::{Bound, Formula, NoMemory};
use q_qrp::Trace;
use std::alloc::Global;

// The fault of the line at a place.
fn judge_at(
    desk: &mut Desk,
    formula: &Formula,
    prefix: &[Bound],
    seats: &Table,
    owner: Owner,
    trace: &Trace,
    n: usize,
) -> Result<Option<Fault>, NoMemory>
    requires seats { AreSeats prefix.now seats.now.items }
    requires ready { IsReady n desk.old.away.drops desk.old.said }
    requires place { n < length trace.now.lines }
    requires bound { AreParentsBound prefix.now (parents_at (entries_of trace.now.lines) n) }
    ensures { IfOk result (λ fault. IsLineJudged owner prefix.now formula.now.matrix (entries_of
        trace.now.lines) n (found_at (entries_of trace.now.lines) n) (line_at (entries_of
        trace.now.lines) n) desk.old.away.drops desk.new.away.drops desk.old.said desk.new.said
        fault) }
{
    let found = sources(trace, n, trace.row(n).antecedents);
    let term = trace.literals(n);
    let fault = judge_line(desk, formula, prefix, seats, owner, trace, term, found, n)?;
    Ok(fault)
}

fn is_in(cone: &[bool], n: usize) -> bool
    requires { n < length cone.now }
    ensures { result ≡ slice_index_or cone.now n false }
{
    cone[n]
}

// The line at a place, if it is in the cone.
fn judge_turn(
    desk: &mut Desk,
    formula: &Formula,
    prefix: &[Bound],
    seats: &Table,
    owner: Owner,
    trace: &Trace,
    cone: &[bool],
    n: usize,
) -> Result<Option<Fault>, NoMemory>
    requires seats { AreSeats prefix.now seats.now.items }
    requires place { n < length trace.now.lines }
    requires cone { AreCone (entries_of trace.now.lines) cone.now }
    requires stood { IsStood owner prefix.now formula.now.matrix (entries_of trace.now.lines) n
        desk.old.away.drops desk.old.said }
    ensures { IfOk result (λ fault. IsTurn owner prefix.now formula.now.matrix (entries_of
        trace.now.lines) n desk.new.away.drops desk.new.said fault) }
{
    if !is_in(cone, n) {
        return Ok(None);
    }
    let fault = judge_at(desk, formula, prefix, seats, owner, trace, n)?;
    Ok(fault)
}

// The first line of the cone that is not right.
fn judge_cone(
    desk: &mut Desk,
    formula: &Formula,
    prefix: &[Bound],
    seats: &Table,
    owner: Owner,
    trace: &Trace,
    cone: &[bool],
) -> Result<Option<Wrong>, NoMemory>
    requires seats { AreSeats prefix.now seats.now.items }
    requires ready { IsReady 0 desk.old.away.drops desk.old.said }
    requires none { drops_in desk.old.away.drops ≡ [] }
    requires merges { desk.old.away.drops.merges.items ≡ [] }
    requires cone { AreCone (entries_of trace.now.lines) cone.now }
    ensures { IfOk result (λ found. IsConeJudged owner prefix.now formula.now.matrix (entries_of
        trace.now.lines) desk.new.away.drops desk.new.said found) }
{
    for n in 0..trace.len() {
        let turn = judge_turn(desk, formula, prefix, seats, owner, trace, cone, n)?;
        match turn {
            Some(fault) => return Ok(Some(Wrong { at: n, fault })),
            None => {}
        }
    }
    Ok(None)
}

fn new_desk(alloc: Global) -> Desk
    ensures own { result.own ≡ [] }
    ensures ready { IsReady 0 result.away.drops result.said }
    ensures none { drops_in result.away.drops ≡ [] }
    ensures merges { result.away.drops.merges.items ≡ [] }
{
    Desk {
        own: Marked::new(alloc),
        first: Marked::new(alloc),
        second: Marked::new(alloc),
        parent: Marked::new(alloc),
        away: Away::new(alloc),
        said: Sayings::new(alloc),
    }
}

// A trace without an end: the empty line has to stand by itself, and no circuit is asked for more.
fn judge_endless(
    alloc: Global,
    formula: &Formula,
    prefix: &[Bound],
    owner: Owner,
    trace: &Trace,
) -> Result<Judged, NoMemory>
    requires prefix { prefix.now ≡ prefix_for owner formula.now.prefix }
    requires distinct { Distinct prefix.now }
    requires formula { IsFormula formula.now }
    requires endless { IsEndless (entries_of trace.now.lines) }
    ensures { IfOk result (IsAnswer owner formula.now trace.now) }
{
    let desk = new_desk(alloc);
    if !may_stand(formula, owner, &desk.own, &[]) {
        return Ok(Judged::Refused {
            line: trace.place(),
            cause: 5,
        });
    }
    let made = extract(alloc, prefix, &desk.away.drops)?;
    Ok(Judged::Proved(made))
}

// A trace with an end: its cone is judged.
fn judge_ended(
    alloc: Global,
    formula: &Formula,
    prefix: &[Bound],
    owner: Owner,
    trace: &Trace,
    end: usize,
) -> Result<Judged, NoMemory>
    requires prefix { prefix.now ≡ prefix_for owner formula.now.prefix }
    requires distinct { Distinct prefix.now }
    requires formula { IsFormula formula.now }
    requires end { IsEnd (entries_of trace.now.lines) end }
    requires within { end < length trace.now.lines }
    ensures { IfOk result (IsAnswer owner formula.now trace.now) }
{
    let mut desk = new_desk(alloc);
    let seats = seats_of(alloc, prefix)?;
    let cone = cone_of(alloc, trace, end)?;
    let found = judge_cone(&mut desk, formula, prefix, &seats, owner, trace, &cone)?;
    match found {
        Some(wrong) => Ok(refused(trace, wrong)),
        None => {
            let made = extract(alloc, prefix, &desk.away.drops)?;
            Ok(Judged::Proved(made))
        }
    }
}

fn refused(trace: &Trace, wrong: Wrong) -> Judged
    requires { wrong.at < length trace.now.lines }
    ensures { IsRefusal trace.now wrong.at wrong.fault result }
{
    Judged::Refused {
        line: trace.row(wrong.at).place,
        cause: wrong.fault.number(),
    }
}

// Circuits of a trace, or its first fault. The owner's variables are the existentials of the prefix.
fn judge(
    alloc: Global,
    formula: &Formula,
    prefix: &[Bound],
    owner: Owner,
    trace: &Trace,
) -> Result<Judged, NoMemory>
    requires prefix { prefix.now ≡ prefix_for owner formula.now.prefix }
    requires distinct { Distinct prefix.now }
    requires formula { IsFormula formula.now }
    ensures { IfOk result (IsAnswer owner formula.now trace.now) }
{
    match find_end(trace) {
        None => {
            let judged = judge_endless(alloc, formula, prefix, owner, trace)?;
            Ok(judged)
        }
        Some(end) => {
            let judged = judge_ended(alloc, formula, prefix, owner, trace, end)?;
            Ok(judged)
        }
    }
}

/// Skolem functions of a formula, exactly where the trace is a proof by long-distance term resolution that it is true; else the first fault.
pub fn certify(alloc: Global, formula: &Formula, trace: &Trace) -> Result<Judged, NoMemory>
    ensures { IfOk result (IsCertified formula.now trace.now) }
{
    let judged = judge(alloc, formula, formula.prefix(), Owner::Exists, trace)?;
    Ok(judged)
}

/// Herbrand functions of a formula, exactly where the trace is a refutation by long-distance Q-resolution; else the first fault.
pub fn refute(alloc: Global, formula: &Formula, trace: &Trace) -> Result<Judged, NoMemory>
    ensures { IfOk result (IsRefuted formula.now trace.now) }
{
    let prefix = exchange(alloc, formula.prefix())?;
    let judged = judge(alloc, formula, &prefix, Owner::Forall, trace)?;
    Ok(judged)
}
