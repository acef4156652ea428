//! Proof parts for steps: the hints by which a clause is implied, or by which all clauses with the negation of its
//! first literal resolve. What is shown is tried in the order in which the checker tries it.
ghost use Rattle.std.specs.Prelude.{◌≡◌, ◌≢◌, ◌+◌, [], true, Some, IfOk, IfSome, OnOk};
ghost use Rattle.q_logic.specs.declared.proof_part.ProofKind.TheVariants.{Pivot as ByPivot};
ghost use Rattle.q_logic.specs.Prelude.{IsIn, Shows, slot, without, is_bound, IsFirst, Within};
ghost use Rattle.q_check.specs.Annotations.{with_hints, with_hinted_group, implied_part, number_in, IsByPivot, IsResolved, IsShown, IsDropShown};
ghost use Rattle.q_check.specs.Numbers.{left_out};

use crate::named::{Cut, Named, Sides};
use crate::numbered::NumberedBook;
use crate::rows::HintRows;
use q_judge::{Cause, CheckError};
use q_logic::{Lit, NoMemory, Proof, ProofKind, holds};
use std::alloc::Global;

// Puts hints behind those of the last group.
fn push_hints(proof: &mut Proof, hints: &[u64]) -> Result<(), NoMemory>
    requires { proof.old.groups ≢ [] }
    ensures { OnOk result (proof.new ≡ with_hints hints.now proof.old) }
{
    for hint in hints {
        proof.hint(*hint)?;
    }
    Ok(())
}

// Puts one more group with its hints behind the others.
fn push_group(proof: &mut Proof, target: u64, hints: &[u64]) -> Result<(), NoMemory>
    requires { proof.old.kind ≡ ByPivot }
    ensures { OnOk result (proof.new ≡ with_hinted_group target hints.now proof.old) }
{
    proof.begin_group(target)?;
    push_hints(proof, hints)
}

// The proof that a clause is implied.
fn by_hints(alloc: Global, number: u64, hints: &[u64]) -> Result<Proof, NoMemory>
    ensures { IfOk result (λ t. t ≡ implied_part number hints.now) }
{
    let mut proof = Proof::new(alloc, ProofKind::Implied, number);
    push_hints(&mut proof, hints)?;
    Ok(proof)
}

/// Whether the literals, joined with the outer clause of each clause that holds m, are implied; a group for each.
fn resolve(
    book: &mut NumberedBook,
    rows: &mut HintRows,
    sides: &Sides,
    proof: &mut Proof,
) -> Result<bool, NoMemory>
    requires bound { is_bound book.old.prefix sides.now.m.var ≡ true }
    requires kind { proof.old.kind ≡ ByPivot }
    requires empty { proof.old.groups ≡ [] }
    ensures same { book.new ≡ book.old }
    ensures kind { OnOk result (proof.new.kind ≡ ByPivot) }
    ensures number { OnOk result (proof.new.number ≡ proof.old.number) }
    ensures exact { IfOk result (IsResolved book.old.prefix (left_out sides.now.skip book.old.slots)
        sides.now.base.now sides.now.m proof.new) }
{
    let targets = &mut rows.targets;
    let hints = &mut rows.hints;
    book.holding(sides.m, sides.skip, targets)?;
    for i in 0..targets.len() {
        if !book.explained_with(targets[i] as usize, sides, hints)? {
            return Ok(false);
        }
        push_group(proof, targets[i], hints)?;
    }
    Ok(true)
}

// The proof by the first literal, where that is an existential pivot.
fn by_pivot(
    book: &mut NumberedBook,
    rows: &mut HintRows,
    skip: Option<usize>,
    named: &Named,
) -> Result<Option<Proof>, NoMemory>
    requires within { Within book.old.prefix named.now.clause.now }
    requires first { IsFirst named.now.first named.now.clause.now }
    ensures same { book.new ≡ book.old }
    ensures exact { IfOk result (IsByPivot book.old.prefix (left_out skip book.old.slots)
        named.now.clause.now named.now.first (number_in skip)) }
{
    let Some(pivot) = named.first else {
        return Ok(None);
    };
    if !book.scope().is_existential(pivot.var()) {
        return Ok(None);
    }
    let number = skip.unwrap_or(0) as u64;
    let mut proof = Proof::new(rows.alloc, ProofKind::Pivot, number);
    let sides = Sides {
        base: named.clause,
        m: pivot.negated(),
        skip,
    };
    if resolve(book, rows, &sides, &mut proof)? {
        return Ok(Some(proof));
    }
    Ok(None)
}

// The same where the pivot is evident. That is a guess alone: resolvents that are tautologies need no hints, and those that stand there
// need one each.
fn by_evident_pivot(
    book: &mut NumberedBook,
    rows: &mut HintRows,
    skip: Option<usize>,
    named: &Named,
) -> Result<Option<Proof>, NoMemory>
    requires within { Within book.old.prefix named.now.clause.now }
    requires first { IsFirst named.now.first named.now.clause.now }
    ensures same { book.new ≡ book.old }
    ensures shown { IfOk result (λ o. IfSome o (λ t. (t.number ≡ number_in skip)
        × Shows book.old.prefix (left_out skip book.old.slots) named.now.clause.now named.now.first
        t)) }
{
    if book.is_evident(skip, named)? {
        return by_pivot(book, rows, skip, named);
    }
    Ok(None)
}

/// Shows why the clause may come, or why the one with a number may go. A pivot that needs no propagation is tried first.
pub fn show(
    book: &mut NumberedBook,
    rows: &mut HintRows,
    skip: Option<usize>,
    named: &Named,
) -> Result<Proof, CheckError>
    requires within { Within book.old.prefix named.now.clause.now }
    requires first { IsFirst named.now.first named.now.clause.now }
    ensures same { book.new ≡ book.old }
    ensures shown { IsShown book.old.prefix (left_out skip book.old.slots)
        named.now.clause.now named.now.first (number_in skip) result }
{
    if let Some(proof) = by_evident_pivot(book, rows, skip, named)? {
        return Ok(proof);
    }
    if book.explained(named.clause, skip, &mut rows.hints)? {
        let proof = by_hints(rows.alloc, skip.unwrap_or(0) as u64, &rows.hints)?;
        return Ok(proof);
    }
    match by_pivot(book, rows, skip, named)? {
        Some(proof) => Ok(proof),
        None => Err(Cause::Unwarranted.refusal()),
    }
}

/// Shows why the clause with a number may lose a literal.
pub fn show_drop(
    book: &mut NumberedBook,
    rows: &mut HintRows,
    number: usize,
    cut: &Cut,
) -> Result<Proof, CheckError>
    requires there { slot book.old.slots number ≡ Some cut.now.clause.now }
    requires within { Within book.old.prefix cut.now.clause.now }
    requires held { IsIn cut.now.lit cut.now.clause.now }
    requires rest { cut.now.rest.now ≡ without cut.now.lit cut.now.clause.now }
    ensures same { book.new ≡ book.old }
    ensures shown { IsDropShown book.old.prefix (left_out (Some number) book.old.slots)
        cut.now.clause.now cut.now.lit number result }
{
    if !book.scope().is_universal(cut.lit.var()) {
        return Err(Cause::NotDroppable.refusal());
    }
    if book.is_reducible(number, cut.clause, cut.lit)? {
        return Ok(Proof::new(rows.alloc, ProofKind::Reach, number as u64));
    }
    if holds(cut.clause, cut.lit.negated()) {
        return Err(Cause::NotDroppable.refusal());
    }
    let mut proof = Proof::new(rows.alloc, ProofKind::Pivot, number as u64);
    let sides = Sides {
        base: cut.rest,
        m: cut.lit.negated(),
        skip: Some(number),
    };
    if !resolve(book, rows, &sides, &mut proof)? {
        return Err(Cause::NotDroppable.refusal());
    }
    Ok(proof)
}
