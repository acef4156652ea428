//! Clauses that are true at once: they hold a literal and its negation, or a clause of a gate. Each test of a literal is
//! a search in a clause in literal order.
ghost use Rattle.std.specs.Prelude.{◌≡◌, ◌<◌, ◌+◌, ◌^◌, ◌||◌, ◌&&◌, ◌∷◌, true, cond, length, slice_get, Some};
ghost use Rattle.q_logic.specs.Prelude.{Clause, Gate, IsBelow, IsIn, ArePairs, has as holds, is_tautology as is_opposed};
ghost use Rattle.q_logic.specs.Sets.{all_in};
ghost use Rattle.q_miter.specs.Miters.{gate_definitions, has_part, operand_literal};
ghost use Rattle.q_encode.specs.Translations.{AreNames, bare};
ghost use Rattle.q_encode.specs.Needless.{is_gate_part};

use crate::numbers::operand_lit;
use q_aig::Aig;
use q_logic::{Lit, is_tautology};

// Whether the clause holds the literal.
fn has(clause: &[Lit], lit: Lit) -> bool
    requires { ArePairs IsBelow clause.now }
    ensures { result ≡ holds lit clause.now }
{
    clause.binary_search(&lit).is_ok()
}

// Whether a clause that holds a gate's literal holds one of the gate's clauses with it.
fn has_gate(aig: &Aig, top: u32, clause: &[Lit], gate: usize, negative: bool) -> bool
    requires names { AreNames aig.now.inputs }
    requires room { top + length aig.now.gates + 2 < 2 ^ 31 }
    requires ordered { ArePairs IsBelow clause.now }
    requires gate { gate < length aig.now.gates }
    ensures { (x : Gate) → slice_get aig.now.gates gate ≡ Some x → result
        ≡ is_gate_part top aig.now.inputs x clause.now negative }
{
    let (left, right) = aig.operands(gate);
    let left = operand_lit(aig, top, left);
    let right = operand_lit(aig, top, right);
    if negative {
        return has(clause, left) || has(clause, right);
    }
    has(clause, left.negated()) && has(clause, right.negated())
}

// Whether a definition that begins with the literal lies within the clause.
fn has_definition(aig: &Aig, top: u32, clause: &[Lit], lit: Lit) -> bool
    requires names { AreNames aig.now.inputs }
    requires room { top + length aig.now.gates + 2 < 2 ^ 31 }
    requires ordered { ArePairs IsBelow clause.now }
    ensures part { result ≡ true → IsIn lit clause.now
        → has_part (gate_definitions top (bare aig.now)) clause.now ≡ true }
    ensures none { (R : Clause) → IsIn (lit ∷ R) (gate_definitions top (bare aig.now))
        → all_in R clause.now ≡ true → result ≡ true }
{
    let var = lit.var();
    if var <= top {
        return false;
    }
    if var == top + 1 {
        return lit.negative();
    }
    let gate = (var - top - 2) as usize;
    if gate >= aig.gates() {
        return false;
    }
    has_gate(aig, top, clause, gate, lit.negative())
}

/// Whether the clause, in literal order, is true at once.
pub fn is_needless(aig: &Aig, top: u32, clause: &[Lit]) -> bool
    requires names { AreNames aig.now.inputs }
    requires room { top + length aig.now.gates + 2 < 2 ^ 31 }
    requires ordered { ArePairs IsBelow clause.now }
    ensures { result ≡ (is_opposed clause.now
        || has_part (gate_definitions top (bare aig.now)) clause.now) }
{
    if is_tautology(clause) {
        return true;
    }
    for lit in clause {
        if has_definition(aig, top, clause, *lit) {
            return true;
        }
    }
    false
}
