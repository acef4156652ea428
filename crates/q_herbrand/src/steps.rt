//! The formula changes by valid steps, each of which leaves an entry or none. A step is valid when it comes, so nothing
//! is tried here but what its entry needs. An entry is made before the formula changes.
ghost use Rattle.std.specs.Prelude.{◌≡◌, ◌∷◌, [], cond, Option, IfOk};
ghost use Rattle.q_logic.specs.Prelude.{Literal, IsBelow, IsIn, standard, ArePairs, without, AreAlike, IsWarranted, Valid, add, after, delete, drop_literal, fresh, remove_variable};
ghost use Rattle.q_logic.specs.Reversals.{Reversed, removed};
ghost use Rattle.q_prop.specs.Slots.{Holds, filled};
ghost use Rattle.q_judge.specs.Ledgers.{formula_in};
ghost use Rattle.q_herbrand.specs.Entries.{entries_of};
ghost use Rattle.q_herbrand.specs.Trails.{IsPassed};

use crate::drops::{drop_entry, kind_of_drop};
use crate::error::TrailError;
use crate::reversal::Reversal;
use q_judge::Ledger;
use q_logic::{Lit, NoMemory};
use std::alloc::Global;

/// A clause comes.
pub fn add(
    ledger: &mut Ledger,
    clause: &[Lit],
    first: Option<Lit>,
) -> Result<Option<Reversal>, TrailError>
    requires ordered { ArePairs IsBelow clause.now }
    requires valid { Valid standard (formula_in ledger.old) (add first clause.now) }
    ensures { IsPassed (formula_in ledger.old) (add first clause.now) (formula_in ledger.new)
        result }
{
    let entry = added_entry(ledger, clause, first)?;
    ledger.put(clause)?;
    Ok(entry)
}

/// A clause goes. It leaves no entry.
pub fn delete(ledger: &mut Ledger, clause: &[Lit])
    requires { IsIn clause.now (filled ledger.old.slots) }
    ensures { (p : Option Literal) →
        AreAlike (after (formula_in ledger.old) (delete p clause.now)) (formula_in ledger.new) }
{
    let at = place_of(ledger, clause);
    ledger.delete(at, clause);
}

/// A clause loses a literal. `rest` is the clause without it.
pub fn drop_literal(
    alloc: Global,
    ledger: &mut Ledger,
    clause: &[Lit],
    rest: &[Lit],
    lit: Lit,
) -> Result<Option<Reversal>, TrailError>
    requires ordered { ArePairs IsBelow clause.now }
    requires rest { rest.now ≡ without lit clause.now }
    requires valid { Valid standard (formula_in ledger.old) (drop_literal lit clause.now) }
    ensures { IsPassed (formula_in ledger.old) (drop_literal lit clause.now) (formula_in ledger.new)
        result }
{
    let at = place_of(ledger, clause);
    let kind = kind_of_drop(ledger, at, clause, rest, lit)?;
    let entry = drop_entry(alloc, ledger, at, clause, lit, kind)?;
    ledger.shorten(at, clause, rest)?;
    Ok(entry)
}

/// A variable v comes, directly after w.
pub fn fresh(ledger: &mut Ledger, v: u32, w: u32) -> Result<Option<Reversal>, TrailError>
    requires { Valid standard (formula_in ledger.old) (fresh v w) }
    ensures { IsPassed (formula_in ledger.old) (fresh v w) (formula_in ledger.new) result }
{
    ledger.insert(v, w)?;
    Ok(Some(Reversal::Fresh { var: v }))
}

/// A variable goes.
pub fn remove(ledger: &mut Ledger, var: u32) -> Option<Reversal>
    requires { Valid standard (formula_in ledger.old) (remove_variable var) }
    ensures after { AreAlike (after (formula_in ledger.old) (remove_variable var))
        (formula_in ledger.new) }
    ensures entry { Reversed (formula_in ledger.old) (remove_variable var) (entries_of result) }
{
    let universal = ledger.scope().is_universal(var);
    ledger.remove(var);
    removed_entry(universal, var)
}

// A slot of a clause that stands in one.
fn place_of(ledger: &Ledger, clause: &[Lit]) -> usize
    requires { IsIn clause.now (filled ledger.now.slots) }
    ensures { Holds ledger.now.slots result clause.now }
{
    ledger.store().find(clause).unwrap_or(0)
}

// The entry of an addition: none where the clause is implied, else the outer clauses of its pivot.
fn added_entry(
    ledger: &mut Ledger,
    clause: &[Lit],
    first: Option<Lit>,
) -> Result<Option<Reversal>, NoMemory>
    requires { IsWarranted ledger.old.prefix (filled ledger.old.slots) clause.now first }
    ensures same { ledger.new ≡ ledger.old }
    ensures entry { IfOk result (λ r.
        Reversed (formula_in ledger.old) (add first clause.now) (entries_of r)) }
{
    if ledger.implied(clause, None)? {
        return Ok(None);
    }
    match first {
        None => Ok(None),
        Some(pivot) => {
            let outer = ledger.outers(None, pivot.negated())?;
            Ok(Some(Reversal::Added { pivot, outer }))
        }
    }
}

fn removed_entry(universal: bool, var: u32) -> Option<Reversal>
    ensures { entries_of result ≡ cond universal (removed var ∷ []) [] }
{
    if universal {
        Some(Reversal::Removed { var })
    } else {
        None
    }
}
