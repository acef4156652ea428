//! What is asked of a formula, its prefix in a scope and its clauses in slots, before a step is taken and at the end.
//! Each test is exact, and none changes the formula but the one at the end, which takes the clauses out.
ghost use Rattle.std.specs.Prelude.{◌≡◌, ◌↔◌, ◌≤◌, ◌<◌, ◌*◌, ◌+◌, ◌^◌, length, drop, OnOk, IfOk, IfErr, IsTrue};
ghost use Rattle.q_logic.specs.Prelude.{clause_of, Clause, AreModerate, SameFormula, copies, first_of, Within, IsAbsent, IsFresh};
ghost use Rattle.q_prop.specs.Slots.{filled};
ghost use Rattle.q_judge.specs.Tried.{IsEndRefusal};
ghost use Rattle.q_judge.specs.Warrants.{IsSlotOf};

use crate::error::{Cause, CheckError};
use crate::scope::Scope;
use q_logic::{Formula, Limits, Lit, NoMemory, sort_clause};
use q_prop::Store;
use std::alloc::Global;

/// Whether each variable of the clause is in the prefix.
pub fn binds_all(scope: &Scope, clause: &[Lit]) -> bool
    ensures { IsTrue result ↔ Within scope.now clause.now }
{
    for k in clause {
        if !scope.binds(k.var()) {
            return false;
        }
    }
    true
}

/// A slot of the clause, each of whose variables is in the prefix.
pub fn slot_of(scope: &Scope, store: &Store, clause: &[Lit]) -> Result<usize, CheckError>
    ensures { IsSlotOf scope.now store.now clause.now result }
{
    if !binds_all(scope, clause) {
        return Err(Cause::Unbound.refusal());
    }
    store.find(clause).ok_or(Cause::NoClause.refusal())
}

/// The first of the literals, by which a clause comes or goes where it is not implied.
pub fn first_lit(lits: &[Lit]) -> Option<Lit>
    ensures { result ≡ first_of lits.now }
{
    lits.first().copied()
}

/// The clause of the literals.
pub fn load_clause(clause: &mut Vec<Lit>, lits: &[Lit]) -> Result<(), NoMemory>
    ensures { OnOk result (clause.new.items ≡ clause_of lits.now) }
{
    clause.clear();
    clause.extend_from_slice(lits)?;
    sort_clause(clause);
    Ok(())
}

/// The literals after the first.
pub fn load_rest(rest: &mut Vec<Lit>, lits: &[Lit]) -> Result<(), NoMemory>
    requires { 0 < length lits.now }
    ensures { OnOk result (rest.new.items ≡ drop 1 lits.now) }
{
    rest.clear();
    rest.extend_from_slice(&lits[1..])?;
    Ok(())
}

/// Whether no clause holds the variable.
pub fn is_absent(store: &Store, var: u32) -> bool
    requires positive { 1 ≤ var }
    requires small { var < 2 ^ 31 }
    ensures { IsTrue result ↔ IsAbsent (filled store.now) var }
{
    if !store.holders(Lit::new(var, true)).is_empty() {
        return false;
    }
    store.holders(Lit::new(var, false)).is_empty()
}

/// Whether a variable v may come, directly after w.
pub fn takes_fresh(scope: &Scope, limits: Limits, v: u32, w: u32) -> bool
    requires { 1 ≤ v }
    ensures { IsTrue result ↔ IsFresh limits scope.now v w }
{
    !scope.binds(v) && v <= limits.vars && scope.is_existential(w)
}

/// The literals with those of one more clause. More literals than a u64 counts have no place in memory.
pub fn sum_of(lits: u64, clause: &[Lit]) -> Result<u64, NoMemory>
    ensures { IfOk result (λ n. n ≡ lits + length clause.now) }
{
    lits.checked_add(clause.len() as u64).ok_or(NoMemory)
}

/// Whether one more clause keeps the checker's limits, four times those of a file.
pub fn has_room(limits: Limits, clauses: u64, lits: u64, clause: &[Lit]) -> bool
    requires { AreModerate limits }
    ensures { IsTrue result ↔ ((clauses + 1 ≤ 4 * limits.clauses)
        × (length clause.now + lits ≤ 4 * limits.lits)) }
{
    let most = 4 * limits.lits;
    let more = clause.len() as u64;
    clauses < 4 * limits.clauses && more <= most && lits <= most - more
}

/// Whether a prefix and the clauses of a store are those of the output up to order; what is the first difference. The
/// clauses go from the store.
pub fn compare(
    alloc: Global,
    scope: &Scope,
    store: &mut Store,
    clauses: u64,
    output: &Formula,
) -> Result<(), CheckError>
    requires { clauses ≡ length (filled store.old) }
    ensures same { OnOk result (SameFormula (record {
      prefix = scope.now;
      matrix = filled store.old;
    }) output.now) }
    ensures refused { IfErr result (IsEndRefusal (record {
      prefix = scope.now;
      matrix = filled store.old;
    }) output.now) }
{
    if !scope.has_blocks_of(alloc, output.prefix())? {
        return Err(Cause::OtherBlocks.refusal());
    }
    if !takes_all(store, clauses, output) {
        return Err(Cause::OtherClauses.refusal());
    }
    Ok(())
}

// Takes each clause of the formula out of the store; whether all were there and none is left.
fn takes_all(store: &mut Store, clauses: u64, output: &Formula) -> bool
    requires { clauses ≡ length (filled store.old) }
    ensures { IsTrue result ↔ ((C : Clause) → copies C (filled store.old)
        ≡ copies C output.now.matrix) }
{
    if clauses != output.clauses() as u64 {
        return false;
    }
    for at in 0..output.clauses() {
        match store.find(output.clause(at)) {
            Some(slot) => store.delete(slot),
            None => return false,
        }
    }
    true
}
