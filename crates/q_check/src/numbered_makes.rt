//! The steps of a log, made on a numbered formula wherever they can be: no hint is looked at. A refusal carries the least cause but 5 and
//! 12, and leaves the formula as it was.
ghost use Rattle.std.specs.Prelude.{◌≡◌, ◌<◌, ◌≤◌, ◌^◌, Option};
ghost use Rattle.q_logic.specs.Prelude.{AreModerate, ArePairs, IsBelow, Literal, ProofPart, without, add, delete, drop_literal, fresh, remove_variable};
ghost use Rattle.q_logic.specs.declared.limits.Limits.{Limits as AnyLimits};
ghost use Rattle.q_check.specs.Replays.{IsHintMade};

use crate::hinted;
use crate::named::Cut;
use crate::numbered::NumberedBook;
use crate::rows::Settings;
use q_judge::{Cause, CheckError, binds_all};
use q_logic::{Limits, Lit, Proof};

/// A clause comes, with the next number.
pub fn add(book: &mut NumberedBook, limits: Limits, clause: &[Lit]) -> Result<(), CheckError>
    requires limits { AreModerate limits }
    requires ordered { ArePairs IsBelow clause.now }
    ensures { (p : Option Literal) → (t : ProofPart) →
        IsHintMade limits book.old (add p clause.now) t book.new result }
{
    if !binds_all(book.scope(), clause) {
        return Err(Cause::Unbound.refusal());
    }
    if !book.has_room(limits, clause) {
        return Err(Cause::Limit.refusal());
    }
    book.add(clause)?;
    Ok(())
}

/// The clause with a number goes.
pub fn delete(book: &mut NumberedBook, number: usize, clause: &[Lit]) -> Result<(), CheckError>
    ensures { (m : AnyLimits) → (p : Option Literal) → (t : ProofPart) → t.number ≡ number →
        IsHintMade m book.old (delete p clause.now) t book.new result }
{
    if !binds_all(book.scope(), clause) {
        return Err(Cause::Unbound.refusal());
    }
    if !book.is_clause(number, clause) {
        return Err(Cause::NoClause.refusal());
    }
    book.delete(number, clause);
    Ok(())
}

/// The clause with a number loses a literal, and keeps the number.
pub fn drop_literal(book: &mut NumberedBook, number: usize, cut: &Cut) -> Result<(), CheckError>
    requires ordered { ArePairs IsBelow cut.now.clause.now }
    requires rest { cut.now.rest.now ≡ without cut.now.lit cut.now.clause.now }
    ensures { (m : AnyLimits) → (t : ProofPart) → t.number ≡ number →
        IsHintMade m book.old (drop_literal cut.now.lit cut.now.clause.now) t book.new result }
{
    if !binds_all(book.scope(), cut.clause) {
        return Err(Cause::Unbound.refusal());
    }
    if !book.is_clause(number, cut.clause) {
        return Err(Cause::NoClause.refusal());
    }
    book.shorten(number, cut.clause, cut.rest)?;
    Ok(())
}

/// A variable v comes, directly after w. There is nothing to judge.
pub fn fresh(
    book: &mut NumberedBook,
    settings: Settings,
    v: u32,
    w: u32,
    proof: &Proof,
) -> Result<(), CheckError>
    requires { 1 ≤ v }
    ensures { IsHintMade settings.limits book.old (fresh v w) proof.now book.new result }
{
    hinted::fresh(book, settings, v, w, proof)?;
    Ok(())
}

/// A variable goes. There is nothing to judge.
pub fn remove(book: &mut NumberedBook, var: u32, proof: &Proof) -> Result<(), CheckError>
    requires positive { 1 ≤ var }
    requires small { var < 2 ^ 31 }
    ensures { (m : AnyLimits) → IsHintMade m book.old (remove_variable var) proof.now book.new result }
{
    hinted::remove(book, var, false, proof)?;
    Ok(())
}
