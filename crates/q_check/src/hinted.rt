//! The steps of a log with hints: each is judged on a numbered formula by its proof part, and taken where that shows
//! it. A refusal carries the least cause, and leaves the formula as it was.
ghost use Rattle.std.specs.Prelude.{◌≡◌, ◌<◌, ◌≤◌, ◌^◌, Bool, Some, IfOk};
ghost use Rattle.q_logic.specs.Prelude.{IsIn, Shows, plain, AreModerate, IsBelow, slot, ArePairs, without, IsFirst, Within, add, delete, drop_literal, fresh, remove_variable};
ghost use Rattle.q_logic.specs.declared.limits.Limits.{Limits as AnyLimits};
ghost use Rattle.q_judge.specs.Tried.{IsEntry};
ghost use Rattle.q_check.specs.HintChecks.{IsHintTried};
ghost use Rattle.q_check.specs.Numbers.{left_out};

use crate::hint_tests::{judge_drop, shows};
use crate::named::{Cut, Named};
use crate::numbered::NumberedBook;
use crate::rows::Settings;
use q_judge::{Cause, CheckError, Undo, binds_all, fresh_entry, removed_entry, takes_fresh};
use q_logic::{Limits, NoMemory, Proof, ProofKind};

/// A clause comes. Room is asked for before the hints are followed.
pub fn add(
    book: &mut NumberedBook,
    targets: &mut Vec<u64>,
    limits: Limits,
    named: &Named,
    proof: &Proof,
) -> Result<Option<Undo>, CheckError>
    requires limits { AreModerate limits }
    requires ordered { ArePairs IsBelow named.now.clause.now }
    requires first { IsFirst named.now.first named.now.clause.now }
    ensures { (keep : Bool) →
        IsHintTried keep limits book.old (add named.now.first named.now.clause.now) proof.now
        book.new result }
{
    if !binds_all(book.scope(), named.clause) {
        return Err(Cause::Unbound.refusal());
    }
    if !book.has_room(limits, named.clause) {
        return Err(Cause::Limit.refusal());
    }
    let shown = shows(book, targets, None, named, proof)?;
    if !shown {
        return Err(Cause::BadHint.refusal());
    }
    book.add(named.clause)?;
    Ok(None)
}

/// The clause with the proof's number goes. Where the undo list is kept, its entry is answered.
pub fn delete(
    book: &mut NumberedBook,
    targets: &mut Vec<u64>,
    named: &Named,
    keep: bool,
    proof: &Proof,
) -> Result<Option<Undo>, CheckError>
    requires { IsFirst named.now.first named.now.clause.now }
    ensures { (m : AnyLimits) →
        IsHintTried keep m book.old (delete named.now.first named.now.clause.now) proof.now book.new
        result }
{
    if !binds_all(book.scope(), named.clause) {
        return Err(Cause::Unbound.refusal());
    }
    let number = proof.number() as usize;
    if !book.is_clause(number, named.clause) {
        return Err(Cause::NoClause.refusal());
    }
    let shown = shows(book, targets, Some(number), named, proof)?;
    if !shown {
        return Err(Cause::BadHint.refusal());
    }
    let entry = deletion_entry(book, number, named, keep, proof)?;
    book.delete(number, named.clause);
    Ok(entry)
}

// What the deletion leaves. Only a deletion by a pivot can leave an entry, and only where the clause is not implied: no
// hint shows that, so it is searched for, if the undo list is kept.
fn deletion_entry(
    book: &mut NumberedBook,
    number: usize,
    named: &Named,
    keep: bool,
    proof: &Proof,
) -> Result<Option<Undo>, NoMemory>
    requires there { slot book.old.slots number ≡ Some named.now.clause.now }
    requires within { Within book.old.prefix named.now.clause.now }
    requires shown { Shows book.old.prefix (left_out (Some number) book.old.slots)
        named.now.clause.now named.now.first proof.now }
    ensures same { book.new ≡ book.old }
    ensures exact { IfOk result (λ u. IsEntry keep (plain book.old)
        (delete named.now.first named.now.clause.now) u) }
{
    if !keep {
        return Ok(None);
    }
    if proof.kind() == ProofKind::Pivot {
        return book.deletion_entry(number, named);
    }
    Ok(None)
}

/// The clause with the proof's number loses a literal.
pub fn drop_literal(
    book: &mut NumberedBook,
    targets: &mut Vec<u64>,
    cut: &Cut,
    proof: &Proof,
) -> Result<Option<Undo>, CheckError>
    requires ordered { ArePairs IsBelow cut.now.clause.now }
    requires held { IsIn cut.now.lit cut.now.clause.now }
    requires rest { cut.now.rest.now ≡ without cut.now.lit cut.now.clause.now }
    ensures { (keep : Bool) → (m : AnyLimits) →
        IsHintTried keep m book.old (drop_literal cut.now.lit cut.now.clause.now) proof.now book.new
        result }
{
    if !binds_all(book.scope(), cut.clause) {
        return Err(Cause::Unbound.refusal());
    }
    let number = proof.number() as usize;
    if !book.is_clause(number, cut.clause) {
        return Err(Cause::NoClause.refusal());
    }
    judge_drop(book, targets, number, cut, proof)?;
    book.shorten(number, cut.clause, cut.rest)?;
    Ok(None)
}

/// A variable v comes, directly after w.
pub fn fresh(
    book: &mut NumberedBook,
    settings: Settings,
    v: u32,
    w: u32,
    proof: &Proof,
) -> Result<Option<Undo>, CheckError>
    requires { 1 ≤ v }
    ensures { IsHintTried settings.keeps settings.limits book.old (fresh v w) proof.now book.new
        result }
{
    if !takes_fresh(book.scope(), settings.limits, v, w) {
        return Err(Cause::BadFresh.refusal());
    }
    if proof.kind() != ProofKind::Nothing {
        return Err(Cause::BadHint.refusal());
    }
    book.insert(v, w)?;
    Ok(fresh_entry(settings.keeps, v))
}

/// A variable goes.
pub fn remove(
    book: &mut NumberedBook,
    var: u32,
    keep: bool,
    proof: &Proof,
) -> Result<Option<Undo>, CheckError>
    requires positive { 1 ≤ var }
    requires small { var < 2 ^ 31 }
    ensures { (m : AnyLimits) → IsHintTried keep m book.old (remove_variable var) proof.now book.new
        result }
{
    if !book.scope().binds(var) {
        return Err(Cause::Unbound.refusal());
    }
    if !book.is_absent(var) {
        return Err(Cause::Occurs.refusal());
    }
    if proof.kind() != ProofKind::Nothing {
        return Err(Cause::BadHint.refusal());
    }
    let existential = book.scope().is_existential(var);
    book.remove(var);
    Ok(removed_entry(keep, existential, var))
}
