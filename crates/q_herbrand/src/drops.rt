//! What the drop of a universal literal leaves: by its pivot the outer clauses, else for a clause without inner
//! existentials the clause itself, parted at the literal's variable. A tautology that stays one leaves nothing. Over any
//! other drop, which is an extended one, Herbrand functions are not carried.
ghost use Rattle.std.specs.Prelude.{◌≡◌, ◌↔◌, ◌++◌, List, true, Some, IsTrue, IfOk, IfErr, OnOk};
ghost use Rattle.q_logic.specs.Prelude.{Literal, IsBelow, negation, Clause, Matrix, IsIn, ArePairs, is_bound, is_universal, ForallPivot, outer, without, Within, OutersOf};
ghost use Rattle.q_logic.specs.Reversals.{IsPlainDrop, inner, plain, turned};
ghost use Rattle.q_prop.specs.Slots.{filled};
ghost use Rattle.q_prop.specs.Slots.{without as without_slot};
ghost use Rattle.q_herbrand.specs.Drops.{HasInner, IsDropKind, IsDropEntry};
ghost use Rattle.q_herbrand.specs.Entries.{entry_of};
ghost use Rattle.q_herbrand.specs.declared.error.TrailError.TheVariants.{Extended as ExtendedDrop};
ghost use Rattle.q_herbrand.specs.declared.drops.DropKind.TheVariants.{Extended as extended_kind};

use crate::error::TrailError;
use crate::reversal::Reversal;
use q_judge::{Ledger, Scope, push_outer};
use q_logic::{Lit, Lits, NoMemory, holds, is_tautology};
use std::alloc::Global;

/// What a drop leaves, told by the first that holds.
#[derive(Clone, Copy, Debug, PartialEq, Eq)]
pub enum DropKind {
    /// The literal is a universal pivot.
    Turned,
    /// No existential of the clause is inner to the literal, whose negation is not there; the clause is no tautology.
    Plain,
    /// The same for a tautology.
    Nothing,
    /// None of these.
    Extended,
}

// Whether the literal is a universal pivot of the clause, beside the slots but its own. `rest` is the clause without it.
fn is_turned(
    ledger: &mut Ledger,
    at: usize,
    clause: &[Lit],
    rest: &[Lit],
    lit: Lit,
) -> Result<bool, NoMemory>
    requires universal { is_universal ledger.old.prefix lit.var ≡ true }
    requires held { IsIn lit clause.now }
    requires rest { rest.now ≡ without lit clause.now }
    ensures same { ledger.new ≡ ledger.old }
    ensures exact { IfOk result (λ yes.
        IsTrue yes ↔ ForallPivot ledger.old.prefix
        (filled (without_slot ledger.old.slots (Some at))) clause.now lit) }
{
    if holds(clause, lit.negated()) {
        return Ok(false);
    }
    ledger.resolves(Some(at), rest, lit.negated())
}

// Whether an existential of the clause is inner to the variable.
fn has_inner(scope: &Scope, clause: &[Lit], var: u32) -> bool
    requires { is_bound scope.now var ≡ true }
    ensures { IsTrue result ↔ HasInner scope.now clause.now var }
{
    for k in clause {
        if scope.is_inner(k.var(), var) {
            return true;
        }
    }
    false
}

// Whether no existential of the clause is inner to the literal, whose negation is not there.
fn is_plain(scope: &Scope, clause: &[Lit], lit: Lit) -> bool
    requires { is_bound scope.now lit.var ≡ true }
    ensures { IsTrue result ↔ IsPlainDrop scope.now clause.now lit }
{
    if has_inner(scope, clause, lit.var()) {
        return false;
    }
    !holds(clause, lit.negated())
}

// What a drop without a pivot leaves.
fn kind_without_pivot(scope: &Scope, clause: &[Lit], lit: Lit) -> DropKind
    requires bound { is_bound scope.now lit.var ≡ true }
    requires ordered { ArePairs IsBelow clause.now }
    ensures { (X : Matrix) → ¬ ForallPivot scope.now X clause.now lit
        → IsDropKind scope.now X clause.now lit result }
{
    if !is_plain(scope, clause, lit) {
        return DropKind::Extended;
    }
    if is_tautology(clause) {
        return DropKind::Nothing;
    }
    DropKind::Plain
}

/// What the drop leaves, beside the slots but the clause's own. `rest` is the clause without the literal.
pub fn kind_of_drop(
    ledger: &mut Ledger,
    at: usize,
    clause: &[Lit],
    rest: &[Lit],
    lit: Lit,
) -> Result<DropKind, NoMemory>
    requires universal { is_universal ledger.old.prefix lit.var ≡ true }
    requires ordered { ArePairs IsBelow clause.now }
    requires held { IsIn lit clause.now }
    requires rest { rest.now ≡ without lit clause.now }
    ensures same { ledger.new ≡ ledger.old }
    ensures kind { IfOk result (λ kind.
        IsDropKind ledger.old.prefix (filled (without_slot ledger.old.slots (Some at))) clause.now
        lit kind) }
{
    if is_turned(ledger, at, clause, rest, lit)? {
        return Ok(DropKind::Turned);
    }
    Ok(kind_without_pivot(ledger.scope(), clause, lit))
}

// Appends the literals of the clause whose variable is inner to the one of the literal.
fn push_inner(row: &mut Vec<Lit>, scope: &Scope, clause: &[Lit], lit: Lit) -> Result<(), NoMemory>
    requires bound { is_bound scope.now lit.var ≡ true }
    requires within { Within scope.now clause.now }
    ensures { OnOk result (row.new.items ≡ row.old.items ++ inner scope.now lit clause.now) }
{
    for k in clause {
        if !scope.outer_or_same(k.var(), lit.var()) {
            row.push(*k)?;
        }
    }
    Ok(())
}

// The entry of a drop by its pivot.
fn turned_entry(ledger: &mut Ledger, at: usize, lit: Lit) -> Result<Reversal, NoMemory>
    requires { is_bound ledger.old.prefix lit.var ≡ true }
    ensures same { ledger.new ≡ ledger.old }
    ensures entry { IfOk result (λ r.
        (outers : List Clause) × OutersOf ledger.old.prefix
        (filled (without_slot ledger.old.slots (Some at))) (negation lit) outers
        × (entry_of r ≡ turned lit outers)) }
{
    let outer = ledger.outers(Some(at), lit.negated())?;
    Ok(Reversal::Turned { pivot: lit, outer })
}

// The entry of a plain drop.
fn plain_entry(alloc: Global, scope: &Scope, clause: &[Lit], lit: Lit) -> Result<Reversal, NoMemory>
    requires bound { is_bound scope.now lit.var ≡ true }
    requires within { Within scope.now clause.now }
    ensures { IfOk result (λ r.
        entry_of r ≡ plain lit (outer scope.now lit clause.now) (inner scope.now lit clause.now)) }
{
    let mut same = Vec::new(alloc);
    push_outer(&mut same, scope, clause, lit)?;
    let mut inner = Vec::new(alloc);
    push_inner(&mut inner, scope, clause, lit)?;
    Ok(Reversal::Plain {
        pivot: lit,
        same: Lits::from_vec(same),
        inner: Lits::from_vec(inner),
    })
}

/// The entry of a drop, or none; an extended drop is refused.
pub fn drop_entry(
    alloc: Global,
    ledger: &mut Ledger,
    at: usize,
    clause: &[Lit],
    lit: Lit,
    kind: DropKind,
) -> Result<Option<Reversal>, TrailError>
    requires bound { is_bound ledger.old.prefix lit.var ≡ true }
    requires within { Within ledger.old.prefix clause.now }
    ensures same { ledger.new ≡ ledger.old }
    ensures entry { IfOk result (λ r.
        IsDropEntry ledger.old.prefix (filled (without_slot ledger.old.slots (Some at))) clause.now
        lit kind r) }
    ensures refused { IfErr result (λ e. e ≡ ExtendedDrop → kind ≡ extended_kind) }
{
    match kind {
        DropKind::Turned => {
            let entry = turned_entry(ledger, at, lit)?;
            Ok(Some(entry))
        }
        DropKind::Plain => {
            let entry = plain_entry(alloc, ledger.scope(), clause, lit)?;
            Ok(Some(entry))
        }
        DropKind::Nothing => Ok(None),
        DropKind::Extended => Err(TrailError::Extended),
    }
}
