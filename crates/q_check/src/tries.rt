//! The steps of a log without hints: each is judged on a formula in slots, and taken where it is valid.
//! A refusal carries the least cause, and leaves the formula as it was.
ghost use Rattle.std.specs.Prelude.{◌≡◌, ◌<◌, ◌≤◌, ◌^◌, Bool, true, false};
ghost use Rattle.q_logic.specs.Prelude.{IsBelow, IsIn, AreModerate, ArePairs, without, IsFirst, first_of, Within, add, delete, drop_literal, fresh, remove_variable};
ghost use Rattle.q_logic.specs.declared.limits.Limits.{Limits as AnyLimits};
ghost use Rattle.q_prop.specs.Slots.{Holds};
ghost use Rattle.q_judge.specs.Ledgers.{formula_in};
ghost use Rattle.q_judge.specs.Tried.{IsTried};

use crate::rows::Settings;
use q_judge::{
    Cause, CheckError, Ledger, Undo, binds_all, first_lit, fresh_entry, is_absent, kept_pivot,
    removed_entry, slot_of, takes_fresh,
};
use q_logic::{Limits, Lit};

/// A clause comes.
pub fn add(
    ledger: &mut Ledger,
    limits: Limits,
    clause: &[Lit],
    first: Option<Lit>,
) -> Result<Option<Undo>, CheckError>
    requires limits { AreModerate limits }
    requires ordered { ArePairs IsBelow clause.now }
    requires first { IsFirst first clause.now }
    ensures { (keep : Bool) → IsTried keep limits (formula_in ledger.old) (add first clause.now)
        (formula_in ledger.new) result }
{
    if !binds_all(ledger.scope(), clause) {
        return Err(Cause::Unbound.refusal());
    }
    ledger.permit(None, clause, first)?;
    if !ledger.has_room(limits, clause) {
        return Err(Cause::Limit.refusal());
    }
    ledger.put(clause)?;
    Ok(None)
}

/// A clause goes. The pivot is the first of `lits`. Where the undo list is kept, its entry is answered.
pub fn delete(
    ledger: &mut Ledger,
    clause: &[Lit],
    lits: &[Lit],
    keep: bool,
) -> Result<Option<Undo>, CheckError>
    requires { IsFirst (first_of lits.now) clause.now }
    ensures { (m : AnyLimits) → IsTried keep m (formula_in ledger.old)
        (delete (first_of lits.now) clause.now) (formula_in ledger.new) result }
{
    let at = slot_of(ledger.scope(), ledger.store(), clause)?;
    if keep {
        delete_noted(ledger, at, clause, lits)
    } else {
        delete_permitted(ledger, at, clause, lits)
    }
}

// The clause in a slot goes, and its entry is answered. Whether the clause is implied decides the entry.
fn delete_noted(
    ledger: &mut Ledger,
    at: usize,
    clause: &[Lit],
    lits: &[Lit],
) -> Result<Option<Undo>, CheckError>
    requires within { Within ledger.old.prefix clause.now }
    requires there { Holds ledger.old.slots at clause.now }
    requires first { IsFirst (first_of lits.now) clause.now }
    ensures { (m : AnyLimits) → IsTried true m (formula_in ledger.old)
        (delete (first_of lits.now) clause.now) (formula_in ledger.new) result }
{
    let warrant = ledger.warrant(Some(at), clause, first_lit(lits))?;
    let pivot = kept_pivot(true, warrant, first_lit(lits));
    let entry = ledger.pivot_entry(at, pivot)?;
    ledger.delete(at, clause);
    Ok(entry)
}

// The clause in a slot goes, and nothing is noted.
fn delete_permitted(
    ledger: &mut Ledger,
    at: usize,
    clause: &[Lit],
    lits: &[Lit],
) -> Result<Option<Undo>, CheckError>
    requires within { Within ledger.old.prefix clause.now }
    requires there { Holds ledger.old.slots at clause.now }
    requires first { IsFirst (first_of lits.now) clause.now }
    ensures { (m : AnyLimits) → IsTried false m (formula_in ledger.old)
        (delete (first_of lits.now) clause.now) (formula_in ledger.new) result }
{
    ledger.permit(Some(at), clause, first_lit(lits))?;
    ledger.delete(at, clause);
    Ok(None)
}

/// A clause loses a literal. `rest` is the clause without it.
pub fn drop_literal(
    ledger: &mut Ledger,
    clause: &[Lit],
    rest: &[Lit],
    lit: Lit,
) -> Result<Option<Undo>, CheckError>
    requires ordered { ArePairs IsBelow clause.now }
    requires held { IsIn lit clause.now }
    requires rest { rest.now ≡ without lit clause.now }
    ensures { (keep : Bool) → (m : AnyLimits) → IsTried keep m (formula_in ledger.old)
        (drop_literal lit clause.now) (formula_in ledger.new) result }
{
    let at = slot_of(ledger.scope(), ledger.store(), clause)?;
    let droppable = ledger.is_droppable(at, clause, rest, lit)?;
    if !droppable {
        return Err(Cause::NotDroppable.refusal());
    }
    ledger.shorten(at, clause, rest)?;
    Ok(None)
}

/// A variable v comes, directly after w.
pub fn fresh(
    ledger: &mut Ledger,
    settings: Settings,
    v: u32,
    w: u32,
) -> Result<Option<Undo>, CheckError>
    requires { 1 ≤ v }
    ensures { IsTried settings.keeps settings.limits (formula_in ledger.old) (fresh v w)
        (formula_in ledger.new) result }
{
    if !takes_fresh(ledger.scope(), settings.limits, v, w) {
        return Err(Cause::BadFresh.refusal());
    }
    ledger.insert(v, w)?;
    Ok(fresh_entry(settings.keeps, v))
}

/// A variable goes.
pub fn remove(ledger: &mut Ledger, var: u32, keep: bool) -> Result<Option<Undo>, CheckError>
    requires positive { 1 ≤ var }
    requires small { var < 2 ^ 31 }
    ensures { (m : AnyLimits) → IsTried keep m (formula_in ledger.old) (remove_variable var)
        (formula_in ledger.new) result }
{
    if !ledger.scope().binds(var) {
        return Err(Cause::Unbound.refusal());
    }
    if !is_absent(ledger.store(), var) {
        return Err(Cause::Occurs.refusal());
    }
    let existential = ledger.scope().is_existential(var);
    ledger.remove(var);
    Ok(removed_entry(keep, existential, var))
}
