//! Whether a clause may come or go: implied, or by a pivot.
ghost use Rattle.std.specs.Prelude.{◌≡◌, ◌↔◌, ◌++◌, [], true, Err, OnOk, IfOk, IfErr, IsTrue};
ghost use Rattle.q_logic.specs.Prelude.{Closed, is_bound, keeps, outer, IsWarranted, Within, IsFirst};
ghost use Rattle.q_prop.specs.Slots.{filled, without};
ghost use Rattle.q_judge.specs.Pivots.{IsGathered, AreGathered, ResolveAt, IsJudged};
ghost use Rattle.q_judge.specs.Warrants.{AreHolders, Resolves};

use crate::blocking::clashes;
use crate::error::{Cause, CheckError};
use crate::evident::is_evident_first;
use crate::scope::Scope;
use crate::view::View;
use q_logic::{Lit, NoMemory};
use q_prop::{Store, Tails, Trail};
use std::alloc::Global;

/// Why a clause may come or go: implied by propagation, else by its first literal.
#[derive(Clone, Copy, Debug, PartialEq, Eq)]
pub enum Warrant {
    Propagation,
    Pivot,
}

/// What is asked of a pivot: whether the base, joined with the outer clause of each clause that holds m, is implied, over
/// the slots but one.
#[derive(Clone, Copy)]
pub struct Question<'a> {
    pub skip: Option<usize>,
    pub base: &'a [Lit],
    pub m: Lit,
}

/// A clause that is to come or go over the slots but one, and the literal that stood first in it.
#[derive(Clone, Copy)]
pub struct Candidate<'a> {
    pub skip: Option<usize>,
    pub clause: &'a [Lit],
    pub first: Option<Lit>,
}

/// Outer clauses, and room for the next one.
#[derive(Drop)]
pub struct Outers {
    pub joined: Vec<Lit>,
    pub tails: Tails,
}

/// Rows that are used again from step to step.
#[derive(Drop)]
pub struct Buffers {
    pub slots: Vec<u32>,
    pub outers: Outers,
    pub trail: Trail,
}

impl Buffers {
    pub fn new(alloc: Global) -> Buffers
        ensures slots { result.slots.items ≡ [] }
        ensures outers { result.outers.tails ≡ [] }
        ensures trail { result.trail ≡ [] }
    {
        Buffers {
            slots: Vec::new(alloc),
            outers: Outers {
                joined: Vec::new(alloc),
                tails: Tails::new(alloc),
            },
            trail: Trail::new(alloc),
        }
    }
}

// The slots whose clauses hold the literal.
fn slots_of<'a>(store: &'a Store, lit: Lit) -> &'a [u32]
    ensures { AreHolders store.now lit result.now }
{
    store.holders(lit)
}

// A copy of the slots whose clauses hold the literal.
fn collect_holders(store: &Store, lit: Lit, slots: &mut Vec<u32>) -> Result<(), NoMemory>
    ensures { OnOk result (AreHolders store.now lit slots.new.items) }
{
    slots.clear();
    slots.extend_from_slice(slots_of(store, lit))?;
    Ok(())
}

/// Whether the literal is another one, and outer or same.
pub(crate) fn is_outer(scope: &Scope, m: Lit, k: Lit) -> bool
    requires first { is_bound scope.now m.var ≡ true }
    requires second { is_bound scope.now k.var ≡ true }
    ensures { result ≡ keeps scope.now m k }
{
    !k.is(m) && scope.outer_or_same(k.var(), m.var())
}

/// Appends the outer clause.
pub fn push_outer(
    joined: &mut Vec<Lit>,
    scope: &Scope,
    clause: &[Lit],
    m: Lit,
) -> Result<(), NoMemory>
    requires bound { is_bound scope.now m.var ≡ true }
    requires within { Within scope.now clause.now }
    ensures { OnOk result (joined.new.items ≡ joined.old.items ++ outer scope.now m clause.now) }
{
    for k in clause {
        if is_outer(scope, m, *k) {
            joined.push(*k)?;
        }
    }
    Ok(())
}

// Appends the outer clause of the clause in a slot, unless it clashes with the base.
fn gather_outer(
    view: &View,
    question: &Question,
    at: usize,
    outers: &mut Outers,
) -> Result<(), NoMemory>
    requires { is_bound view.now.prefix question.now.m.var ≡ true }
    ensures { OnOk result (IsGathered view.now.prefix view.now.slots question.now at
        outers.old.tails outers.new.tails) }
{
    let Some(clause) = view.clause(at) else {
        return Ok(());
    };
    let scope = view.scope();
    if clashes(scope, question.base, clause, question.m) {
        return Ok(());
    }
    outers.joined.clear();
    push_outer(&mut outers.joined, scope, clause, question.m)?;
    outers.tails.push(&outers.joined)
}

// The outer clauses of the clauses in these slots, but of those that clash with the base.
fn gather_outers(
    view: &View,
    question: &Question,
    slots: &[u32],
    outers: &mut Outers,
) -> Result<(), NoMemory>
    requires { is_bound view.now.prefix question.now.m.var ≡ true }
    ensures { OnOk result (AreGathered view.now.prefix view.now.slots question.now slots.now
        outers.new.tails) }
{
    outers.tails.clear();
    for at in slots {
        gather_outer(view, question, *at as usize, outers)?;
    }
    Ok(())
}

// Whether the base, joined with the outer clause of the clause in each of these slots, is implied.
fn resolves_group(
    store: &mut Store,
    scope: &Scope,
    question: &Question,
    slots: &[u32],
    outers: &mut Outers,
) -> Result<bool, NoMemory>
    requires closed { Closed scope.now (filled store.old) }
    requires bound { is_bound scope.now question.now.m.var ≡ true }
    ensures same { store.new ≡ store.old }
    ensures exact { IfOk result (λ yes. IsTrue yes ↔
        ResolveAt scope.now (without store.old question.now.skip) question.now slots.now) }
{
    let view = View::new(store, scope, question.skip);
    gather_outers(&view, question, slots, outers)?;
    store.all_implied(question.base, &outers.tails, question.skip)
}

/// Whether the base, joined with the outer clause of each clause that holds m, is implied.
pub fn resolves(
    store: &mut Store,
    scope: &Scope,
    buffers: &mut Buffers,
    question: &Question,
) -> Result<bool, NoMemory>
    requires closed { Closed scope.now (filled store.old) }
    requires bound { is_bound scope.now question.now.m.var ≡ true }
    ensures same { store.new ≡ store.old }
    ensures exact { IfOk result (λ yes. IsTrue yes ↔
        Resolves scope.now (filled (without store.old question.now.skip)) question.now.base.now
        question.now.m) }
{
    collect_holders(store, question.m, &mut buffers.slots)?;
    resolves_all(store, scope, question, &buffers.slots, &mut buffers.outers)
}

// The same for the clauses in these slots.
//
// Hot: the negations of the base are propagated once for a group. One group of all slots was lost where a universal
// literal goes by its reach and its pivot fails at the first clause; groups of one propagate the base for each clause.
// So each group is four times as large as the one before.
fn resolves_all(
    store: &mut Store,
    scope: &Scope,
    question: &Question,
    slots: &[u32],
    outers: &mut Outers,
) -> Result<bool, NoMemory>
    requires closed { Closed scope.now (filled store.old) }
    requires bound { is_bound scope.now question.now.m.var ≡ true }
    ensures same { store.new ≡ store.old }
    ensures exact { IfOk result (λ yes. IsTrue yes ↔
        ResolveAt scope.now (without store.old question.now.skip) question.now slots.now) }
{
    let mut from = 0;
    let mut size = 1;
    while from < slots.len() {
        let end = slots.len().min(from.saturating_add(size));
        if !resolves_group(store, scope, question, &slots[from..end], outers)? {
            return Ok(false);
        }
        from = end;
        size = size.saturating_mul(4);
    }
    Ok(true)
}

/// Why the clause may come or go; refused where nothing speaks for it.
pub fn warrant_of(
    store: &mut Store,
    scope: &Scope,
    buffers: &mut Buffers,
    candidate: &Candidate,
) -> Result<Warrant, CheckError>
    requires closed { Closed scope.now (filled store.old) }
    requires within { Within scope.now candidate.now.clause.now }
    requires first { IsFirst candidate.now.first candidate.now.clause.now }
    ensures same { store.new ≡ store.old }
    ensures exact { IsJudged scope.now store.old candidate.now result }
{
    let Candidate {
        skip,
        clause,
        first,
    } = *candidate;
    if store.implied(clause, skip)? {
        return Ok(Warrant::Propagation);
    }
    let Some(pivot) = first else {
        return Err(Cause::Unwarranted.refusal());
    };
    if !scope.is_existential(pivot.var()) {
        return Err(Cause::Unwarranted.refusal());
    }
    let question = Question {
        skip,
        base: clause,
        m: pivot.negated(),
    };
    if !resolves(store, scope, buffers, &question)? {
        return Err(Cause::Unwarranted.refusal());
    }
    Ok(Warrant::Pivot)
}

// What follows from the clauses alone is found before a clause goes whose pivot is evident. Where it is not found, as behind a
// clause of one literal, the store lets all of it go with the clause, and finds it anew.
fn find_root(store: &mut Store, skip: Option<usize>) -> Result<(), NoMemory>
    ensures { store.new ≡ store.old }
{
    if skip.is_some() {
        store.implied(&[], None)?;
    }
    Ok(())
}

/// Whether the clause may come or go; refused as by `warrant_of`. An evident pivot is looked for first, since that takes no
/// propagation.
pub fn permit_of(
    store: &mut Store,
    scope: &Scope,
    buffers: &mut Buffers,
    candidate: &Candidate,
) -> Result<(), CheckError>
    requires closed { Closed scope.now (filled store.old) }
    requires within { Within scope.now candidate.now.clause.now }
    requires first { IsFirst candidate.now.first candidate.now.clause.now }
    ensures same { store.new ≡ store.old }
    ensures ok { OnOk result
        (IsWarranted scope.now (filled (without store.old candidate.now.skip))
        candidate.now.clause.now candidate.now.first) }
    ensures refused { IfErr result (λ e. IsJudged scope.now store.old candidate.now (Err e)) }
{
    let view = View::new(store, scope, candidate.skip);
    if is_evident_first(
        &view,
        &mut buffers.outers.joined,
        candidate.clause,
        candidate.first,
    )? {
        find_root(store, candidate.skip)?;
        return Ok(());
    }
    warrant_of(store, scope, buffers, candidate)?;
    Ok(())
}
