//! The steps of a log without hints: each is judged on a numbered formula, taken where it is valid, and shown by a
//! proof part. A refusal carries the least cause, and leaves the formula as it was.
ghost use Rattle.std.specs.Prelude.{◌≡◌, ◌<◌, ◌≤◌, ◌^◌, Option};
ghost use Rattle.q_logic.specs.Prelude.{IsIn, Literal, AreModerate, IsBelow, ArePairs, without, IsFirst, add, delete, drop_literal, fresh, remove_variable};
ghost use Rattle.q_logic.specs.declared.limits.Limits.{Limits as AnyLimits};
ghost use Rattle.q_check.specs.Annotations.{IsAnnotated};
ghost use Rattle.q_check.specs.Replays.{IsDeletionNamed};

use crate::named::{Cut, Named};
use crate::numbered::NumberedBook;
use crate::rows::HintRows;
use crate::showing::{show, show_drop};
use q_judge::{Cause, CheckError, binds_all, takes_fresh};
use q_logic::{Limits, Lit, Proof, ProofKind};
use std::alloc::Global;

/// A clause comes.
pub fn add(
    book: &mut NumberedBook,
    rows: &mut HintRows,
    limits: Limits,
    named: &Named,
) -> Result<Proof, CheckError>
    requires limits { AreModerate limits }
    requires ordered { ArePairs IsBelow named.now.clause.now }
    requires first { IsFirst named.now.first named.now.clause.now }
    ensures { IsAnnotated limits book.old (add named.now.first named.now.clause.now) book.new
        result }
{
    if !binds_all(book.scope(), named.clause) {
        return Err(Cause::Unbound.refusal());
    }
    let proof = show(book, rows, None, named)?;
    if !book.has_room(limits, named.clause) {
        return Err(Cause::Limit.refusal());
    }
    book.add(named.clause)?;
    Ok(proof)
}

/// A clause goes.
pub fn delete(
    book: &mut NumberedBook,
    rows: &mut HintRows,
    named: &Named,
) -> Result<Proof, CheckError>
    requires { IsFirst named.now.first named.now.clause.now }
    ensures { (m : AnyLimits) → IsAnnotated m book.old (delete named.now.first named.now.clause.now)
        book.new result }
{
    if !binds_all(book.scope(), named.clause) {
        return Err(Cause::Unbound.refusal());
    }
    let Some(number) = book.find(named.clause) else {
        return Err(Cause::NoClause.refusal());
    };
    let proof = show(book, rows, Some(number), named)?;
    book.delete(number, named.clause);
    Ok(proof)
}

/// A clause goes, for whatever reason. The proof part names it, and shows nothing.
pub fn delete_named(
    alloc: Global,
    book: &mut NumberedBook,
    clause: &[Lit],
) -> Result<Proof, CheckError>
    ensures { (m : AnyLimits) → (p : Option Literal) →
        IsDeletionNamed m book.old (delete p clause.now) book.new result }
{
    if !binds_all(book.scope(), clause) {
        return Err(Cause::Unbound.refusal());
    }
    let Some(number) = book.find(clause) else {
        return Err(Cause::NoClause.refusal());
    };
    book.delete(number, clause);
    Ok(Proof::new(alloc, ProofKind::Implied, number as u64))
}

/// A clause loses a literal.
pub fn drop_literal(
    book: &mut NumberedBook,
    rows: &mut HintRows,
    cut: &Cut,
) -> Result<Proof, CheckError>
    requires ordered { ArePairs IsBelow cut.now.clause.now }
    requires held { IsIn cut.now.lit cut.now.clause.now }
    requires rest { cut.now.rest.now ≡ without cut.now.lit cut.now.clause.now }
    ensures { (m : AnyLimits) → IsAnnotated m book.old (drop_literal cut.now.lit cut.now.clause.now)
        book.new result }
{
    if !binds_all(book.scope(), cut.clause) {
        return Err(Cause::Unbound.refusal());
    }
    let Some(number) = book.find(cut.clause) else {
        return Err(Cause::NoClause.refusal());
    };
    let proof = show_drop(book, rows, number, cut)?;
    book.shorten(number, cut.clause, cut.rest)?;
    Ok(proof)
}

/// A variable v comes, directly after w.
pub fn fresh(
    alloc: Global,
    book: &mut NumberedBook,
    limits: Limits,
    v: u32,
    w: u32,
) -> Result<Proof, CheckError>
    requires { 1 ≤ v }
    ensures { IsAnnotated limits book.old (fresh v w) book.new result }
{
    if !takes_fresh(book.scope(), limits, v, w) {
        return Err(Cause::BadFresh.refusal());
    }
    book.insert(v, w)?;
    Ok(Proof::new(alloc, ProofKind::Nothing, 0))
}

/// A variable goes.
pub fn remove(alloc: Global, book: &mut NumberedBook, var: u32) -> Result<Proof, CheckError>
    requires positive { 1 ≤ var }
    requires small { var < 2 ^ 31 }
    ensures { (m : AnyLimits) → IsAnnotated m book.old (remove_variable var) book.new result }
{
    if !book.scope().binds(var) {
        return Err(Cause::Unbound.refusal());
    }
    if !book.is_absent(var) {
        return Err(Cause::Occurs.refusal());
    }
    book.remove(var);
    Ok(Proof::new(alloc, ProofKind::Nothing, 0))
}
