//! Disjunctions and conjunctions of literals by their circuits. Each literal and each clause costs one
//! gate at most: a first literal and a first clause cost none.
ghost use Rattle.std.specs.Prelude.{◌≡◌, ◌⊎◌, IfOk};
ghost use Rattle.q_logic.specs.Prelude.{falsum};
ghost use Rattle.q_aig.specs.Prelude.{operand_of, IsLiteral};
ghost use Rattle.q_certificate.specs.Standing.{AreLiterals};
ghost use Rattle.q_certificate.specs.Growing.{IsDisjunction, IsRaised, IsSomeOf, IsAllOf};

use crate::tables::Tables;
use q_aig::{Aig, constant, negate};
use q_logic::{Clauses, Lit, NoMemory};

/// One of two literals.
pub fn or(aig: &mut Aig, a: u64, b: u64) -> Result<u64, NoMemory>
    requires a { IsLiteral aig.old a }
    requires b { IsLiteral aig.old b }
    ensures disjunction { IfOk result (IsDisjunction aig.old aig.new a b) }
    ensures folded { ((operand_of a).node ≡ falsum) ⊎ ((operand_of b).node ≡ falsum)
        → aig.new ≡ aig.old }
{
    let neither = aig.and(negate(a), negate(b))?;
    Ok(negate(neither))
}

/// A circuit made true, or false, where all is true.
pub fn raise(aig: &mut Aig, negative: bool, a: u64, all: u64) -> Result<u64, NoMemory>
    requires a { IsLiteral aig.old a }
    requires all { IsLiteral aig.old all }
    ensures raised { IfOk result (IsRaised aig.old aig.new negative a all) }
    ensures folded { (operand_of all).node ≡ falsum → aig.new ≡ aig.old }
{
    if negative {
        return aig.and(a, negate(all));
    }
    or(aig, a, all)
}

/// The disjunction of a clause.
pub fn some_of(aig: &mut Aig, tables: &Tables, clause: &[Lit]) -> Result<u64, NoMemory>
    requires inputs { AreLiterals aig.old tables.now.inputs.items }
    requires circuits { AreLiterals aig.old tables.now.circuits.items }
    ensures { IfOk result (IsSomeOf aig.old aig.new tables.now.inputs.items
        tables.now.circuits.items clause.now) }
{
    let mut some = constant(false);
    for k in clause {
        let part = tables.literal(*k);
        some = or(aig, some, part)?;
    }
    Ok(some)
}

/// The conjunction of clauses.
pub fn all_of(aig: &mut Aig, tables: &Tables, outer: &Clauses) -> Result<u64, NoMemory>
    requires inputs { AreLiterals aig.old tables.now.inputs.items }
    requires circuits { AreLiterals aig.old tables.now.circuits.items }
    ensures { IfOk result (IsAllOf aig.old aig.new tables.now.inputs.items tables.now.circuits.items
        outer.now) }
{
    let mut all = constant(true);
    for i in 0..outer.len() {
        let some = some_of(aig, tables, outer.clause(i))?;
        all = aig.and(all, some)?;
    }
    Ok(all)
}
