//! Gates as clauses: three for each, which say that its literal is the conjunction of its operands. (Tseitin, "On the
//! complexity of derivation in propositional calculus", 1968.)
ghost use Rattle.std.specs.Prelude.{◌≡◌, ◌<◌, ◌+◌, ◌^◌, ◌++◌, ◌∷◌, [], Some, length, slice_get, OnOk};
ghost use Rattle.q_logic.specs.Prelude.{Gate};
ghost use Rattle.q_miter.specs.Miters.{gate_clauses, gate_definitions, in_order};
ghost use Rattle.q_encode.specs.Translations.{AreNames, bare};

use crate::numbers::{gate_lit, operand_lit, zero_lit};
use crate::rows::Rows;
use q_aig::Aig;
use q_logic::NoMemory;

fn put_gate(rows: &mut Rows, aig: &Aig, top: u32, gate: usize) -> Result<(), NoMemory>
    requires names { AreNames aig.now.inputs }
    requires room { top + length aig.now.gates + 2 < 2 ^ 31 }
    requires gate { gate < length aig.now.gates }
    ensures { OnOk result ((x : Gate) → slice_get aig.now.gates gate ≡ Some x →
        rows.new ≡ rows.old ++ in_order (gate_clauses top aig.now.inputs gate (x ∷ []))) }
{
    let (left, right) = aig.operands(gate);
    let lit = gate_lit(top, gate);
    let left = operand_lit(aig, top, left);
    let right = operand_lit(aig, top, right);
    rows.put(&[lit.negated(), left])?;
    rows.put(&[lit.negated(), right])?;
    rows.put(&[lit, left.negated(), right.negated()])
}

fn put_gates(rows: &mut Rows, aig: &Aig, top: u32) -> Result<(), NoMemory>
    requires names { AreNames aig.now.inputs }
    requires room { top + length aig.now.gates + 2 < 2 ^ 31 }
    ensures { OnOk result (rows.new ≡ rows.old
        ++ in_order (gate_clauses top aig.now.inputs 0 aig.now.gates)) }
{
    for gate in 0..aig.gates() {
        put_gate(rows, aig, top, gate)?;
    }
    Ok(())
}

/// Puts what says of the constant and the gates what they are.
pub fn put_definitions(rows: &mut Rows, aig: &Aig, top: u32) -> Result<(), NoMemory>
    requires names { AreNames aig.now.inputs }
    requires room { top + length aig.now.gates + 2 < 2 ^ 31 }
    ensures { OnOk result (rows.new ≡ rows.old
        ++ in_order (gate_definitions top (bare aig.now))) }
{
    rows.put(&[zero_lit(top).negated()])?;
    put_gates(rows, aig, top)
}
