//! The steps of a log, made on a formula in slots wherever they can be. A refusal carries the least cause but 4 and 5, and leaves the
//! formula as it was.
ghost use Rattle.std.specs.Prelude.{◌≡◌, ◌<◌, ◌≤◌, ◌^◌, IfErr, OnErr, OnOk, Option};
ghost use Rattle.q_logic.specs.Prelude.{AreAlike, AreModerate, ArePairs, IsBelow, Literal, without, add, after, delete, drop_literal, fresh, remove_variable};
ghost use Rattle.q_logic.specs.declared.limits.Limits.{Limits as AnyLimits};
ghost use Rattle.q_judge.specs.Ledgers.{formula_in};
ghost use Rattle.q_same_steps.specs.Making.{Applies};
ghost use Rattle.q_check.specs.Replays.{IsUnfitFor};

use q_judge::{Cause, CheckError, Ledger, binds_all, is_absent, slot_of, takes_fresh};
use q_logic::{Limits, Lit};

/// A clause comes.
pub fn add(ledger: &mut Ledger, limits: Limits, clause: &[Lit]) -> Result<(), CheckError>
    requires limits { AreModerate limits }
    requires ordered { ArePairs IsBelow clause.now }
    ensures fit { OnOk result ((p : Option Literal) → Applies limits (formula_in ledger.old) (add p clause.now)) }
    ensures after { OnOk result ((p : Option Literal) →
        AreAlike (after (formula_in ledger.old) (add p clause.now)) (formula_in ledger.new)) }
    ensures refused { IfErr result (λ e. (p : Option Literal) → IsUnfitFor limits (formula_in ledger.old) (add p clause.now) e) }
    ensures unchanged { OnErr result (ledger.new ≡ ledger.old) }
{
    if !binds_all(ledger.scope(), clause) {
        return Err(Cause::Unbound.refusal());
    }
    if !ledger.has_room(limits, clause) {
        return Err(Cause::Limit.refusal());
    }
    ledger.put(clause)?;
    Ok(())
}

/// A clause goes.
pub fn delete(ledger: &mut Ledger, clause: &[Lit]) -> Result<(), CheckError>
    ensures fit { OnOk result ((m : AnyLimits) → (p : Option Literal) →
        Applies m (formula_in ledger.old) (delete p clause.now)) }
    ensures after { OnOk result ((p : Option Literal) →
        AreAlike (after (formula_in ledger.old) (delete p clause.now)) (formula_in ledger.new)) }
    ensures refused { IfErr result (λ e. (m : AnyLimits) → (p : Option Literal) →
        IsUnfitFor m (formula_in ledger.old) (delete p clause.now) e) }
    ensures unchanged { OnErr result (ledger.new ≡ ledger.old) }
{
    let at = slot_of(ledger.scope(), ledger.store(), clause)?;
    ledger.delete(at, clause);
    Ok(())
}

/// A clause loses a literal. `rest` is the clause without it.
pub fn drop_literal(
    ledger: &mut Ledger,
    clause: &[Lit],
    rest: &[Lit],
    lit: Lit,
) -> Result<(), CheckError>
    requires ordered { ArePairs IsBelow clause.now }
    requires rest { rest.now ≡ without lit clause.now }
    ensures fit { OnOk result ((m : AnyLimits) →
        Applies m (formula_in ledger.old) (drop_literal lit clause.now)) }
    ensures after { OnOk result
        (AreAlike (after (formula_in ledger.old) (drop_literal lit clause.now)) (formula_in ledger.new)) }
    ensures refused { IfErr result (λ e. (m : AnyLimits) →
        IsUnfitFor m (formula_in ledger.old) (drop_literal lit clause.now) e) }
    ensures unchanged { OnErr result (ledger.new ≡ ledger.old) }
{
    let at = slot_of(ledger.scope(), ledger.store(), clause)?;
    ledger.shorten(at, clause, rest)?;
    Ok(())
}

/// A variable v comes, directly after w.
pub fn fresh(ledger: &mut Ledger, limits: Limits, v: u32, w: u32) -> Result<(), CheckError>
    requires { 1 ≤ v }
    ensures fit { OnOk result (Applies limits (formula_in ledger.old) (fresh v w)) }
    ensures after { OnOk result
        (AreAlike (after (formula_in ledger.old) (fresh v w)) (formula_in ledger.new)) }
    ensures refused { IfErr result (λ e. IsUnfitFor limits (formula_in ledger.old) (fresh v w) e) }
    ensures unchanged { OnErr result (ledger.new ≡ ledger.old) }
{
    if !takes_fresh(ledger.scope(), limits, v, w) {
        return Err(Cause::BadFresh.refusal());
    }
    ledger.insert(v, w)?;
    Ok(())
}

/// A variable goes.
pub fn remove(ledger: &mut Ledger, var: u32) -> Result<(), CheckError>
    requires positive { 1 ≤ var }
    requires small { var < 2 ^ 31 }
    ensures fit { OnOk result ((m : AnyLimits) → Applies m (formula_in ledger.old) (remove_variable var)) }
    ensures after { OnOk result
        (AreAlike (after (formula_in ledger.old) (remove_variable var)) (formula_in ledger.new)) }
    ensures refused { IfErr result (λ e. (m : AnyLimits) →
        IsUnfitFor m (formula_in ledger.old) (remove_variable var) e) }
    ensures unchanged { OnErr result (ledger.new ≡ ledger.old) }
{
    if !ledger.scope().binds(var) {
        return Err(Cause::Unbound.refusal());
    }
    if !is_absent(ledger.store(), var) {
        return Err(Cause::Occurs.refusal());
    }
    ledger.remove(var);
    Ok(())
}
