//! The steps of a log without hints, made on a numbered formula wherever they can be. The clause that goes, or gets shorter, is the one that
//! the annotator takes. A refusal carries the least cause but 4 and 5, and leaves the formula as it was.
ghost use Rattle.std.specs.Prelude.{◌≡◌, ◌<◌, ◌≤◌, ◌^◌, Option};
ghost use Rattle.q_logic.specs.Prelude.{AreModerate, ArePairs, IsBelow, Literal, without, add, delete, drop_literal, fresh, remove_variable};
ghost use Rattle.q_logic.specs.declared.limits.Limits.{Limits as AnyLimits};
ghost use Rattle.q_check.specs.Replays.{IsNumberedMade};

use crate::annotating;
use crate::named::Cut;
use crate::numbered::NumberedBook;
use q_judge::{Cause, CheckError, binds_all};
use q_logic::{Limits, Lit};
use std::alloc::Global;

/// A clause comes, with the next number.
pub fn add(book: &mut NumberedBook, limits: Limits, clause: &[Lit]) -> Result<(), CheckError>
    requires limits { AreModerate limits }
    requires ordered { ArePairs IsBelow clause.now }
    ensures { (p : Option Literal) → IsNumberedMade limits book.old (add p clause.now) book.new result }
{
    if !binds_all(book.scope(), clause) {
        return Err(Cause::Unbound.refusal());
    }
    if !book.has_room(limits, clause) {
        return Err(Cause::Limit.refusal());
    }
    book.add(clause)?;
    Ok(())
}

/// A clause goes.
pub fn delete(alloc: Global, book: &mut NumberedBook, clause: &[Lit]) -> Result<(), CheckError>
    ensures { (m : AnyLimits) → (p : Option Literal) →
        IsNumberedMade m book.old (delete p clause.now) book.new result }
{
    annotating::delete_named(alloc, book, clause)?;
    Ok(())
}

/// A clause loses a literal, and keeps its number.
pub fn drop_literal(book: &mut NumberedBook, cut: &Cut) -> Result<(), CheckError>
    requires ordered { ArePairs IsBelow cut.now.clause.now }
    requires rest { cut.now.rest.now ≡ without cut.now.lit cut.now.clause.now }
    ensures { (m : AnyLimits) →
        IsNumberedMade m book.old (drop_literal cut.now.lit cut.now.clause.now) book.new result }
{
    if !binds_all(book.scope(), cut.clause) {
        return Err(Cause::Unbound.refusal());
    }
    let Some(number) = book.find(cut.clause) else {
        return Err(Cause::NoClause.refusal());
    };
    book.shorten(number, cut.clause, cut.rest)?;
    Ok(())
}

/// A variable v comes, directly after w. There is nothing to judge.
pub fn fresh(
    alloc: Global,
    book: &mut NumberedBook,
    limits: Limits,
    v: u32,
    w: u32,
) -> Result<(), CheckError>
    requires { 1 ≤ v }
    ensures { IsNumberedMade limits book.old (fresh v w) book.new result }
{
    annotating::fresh(alloc, book, limits, v, w)?;
    Ok(())
}

/// A variable goes. There is nothing to judge.
pub fn remove(alloc: Global, book: &mut NumberedBook, var: u32) -> Result<(), CheckError>
    requires positive { 1 ≤ var }
    requires small { var < 2 ^ 31 }
    ensures { (m : AnyLimits) → IsNumberedMade m book.old (remove_variable var) book.new result }
{
    annotating::remove(alloc, book, var)?;
    Ok(())
}
