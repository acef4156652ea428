//! The variables of a miter. Those of the formula and the inputs keep their numbers; behind the greatest of them, the
//! top, come the constant 0, the gates and the selectors.
ghost use Rattle.std.specs.Prelude.{◌≡◌, ◌<◌, ◌+◌, ◌^◌, length};
ghost use Rattle.q_logic.specs.Prelude.{IsThere};
ghost use Rattle.q_aig.specs.Prelude.{IsLiteral, operand_of};
ghost use Rattle.q_aig.specs.Nodes.{node_view};
ghost use Rattle.q_miter.specs.Miters.{gate_literal, node_literal, operand_literal, selector, zero_literal};
ghost use Rattle.q_encode.specs.Translations.{AreNames};

use q_aig::{Aig, Node};
use q_logic::Lit;

pub fn zero_lit(top: u32) -> Lit
    requires { top + 1 < 2 ^ 31 }
    ensures { result ≡ zero_literal top }
{
    Lit::new(top + 1, false)
}

pub fn gate_lit(top: u32, gate: usize) -> Lit
    requires { top + (gate + 2) < 2 ^ 31 }
    ensures { result ≡ gate_literal top gate }
{
    Lit::new(top + (gate as u32 + 2), false)
}

pub fn selector_lit(top: u32, gates: usize, at: usize) -> Lit
    requires { top + (gates + (at + 2)) < 2 ^ 31 }
    ensures { result ≡ selector top gates at }
{
    Lit::new(top + (gates as u32 + (at as u32 + 2)), false)
}

fn node_lit(aig: &Aig, top: u32, node: Node) -> Lit
    requires names { AreNames aig.now.inputs }
    requires room { top + length aig.now.gates + 2 < 2 ^ 31 }
    requires there { IsThere (length aig.now.inputs) (length aig.now.gates) (node_view node) }
    ensures { result ≡ node_literal top aig.now.inputs (node_view node) }
{
    match node {
        Node::Constant => zero_lit(top),
        Node::Input(at) => Lit::new(aig.inputs()[at], false),
        Node::Gate(gate) => gate_lit(top, gate),
    }
}

/// The literal of an operand.
pub fn operand_lit(aig: &Aig, top: u32, lit: u64) -> Lit
    requires names { AreNames aig.now.inputs }
    requires room { top + length aig.now.gates + 2 < 2 ^ 31 }
    requires lit { IsLiteral aig.now lit }
    ensures { result ≡ operand_literal top aig.now.inputs (operand_of lit) }
{
    let plain = node_lit(aig, top, aig.node(lit));
    if lit % 2 == 1 { plain.negated() } else { plain }
}
