//! What is known of gates at all nodes of a shape below a node, by one pass over the gates.
ghost use Rattle.std.specs.Prelude.{◌≡◌, ◌<◌, ◌^◌, ◌++◌, [], length, IfOk, OnOk, slice_get};
ghost use Rattle.q_logic.specs.Prelude.{IsThere, node_tree, gate_trees};
ghost use Rattle.q_aig.specs.Prelude.{operand_of, IsLiteral, IsNet, tree_at};
ghost use Rattle.q_validate.specs.Stands.{known_along, AreTold};

use crate::below::Below;
use q_aig::{Aig, Node};
use q_logic::NoMemory;

/// What is known of an input: its value on the path to the root, or else its value on the way to each node.
pub fn input_known<T: Below>(path: &[bool], input: usize) -> T
    requires { input < 2 ^ 62 }
    ensures { T.Says result (λ w. slice_get (path.now ++ w) input) }
{
    if input < path.len() {
        return T::value(path[input]);
    }
    T::input(input - path.len())
}

// What is known of the node of a literal.
fn plain_known<T: Below>(aig: &Aig, path: &[bool], row: &[T], lit: u64) -> T
    requires net { IsNet aig.now }
    requires lit { IsLiteral aig.now lit }
    requires there { IsThere (length aig.now.inputs) (length row.now) (operand_of lit).node }
    requires row { AreTold T.Says aig.now path.now row.now }
    ensures { T.Says result (λ w. known_along aig.now.inputs (path.now ++ w)
        (node_tree aig.now.inputs (gate_trees aig.now.inputs [] aig.now.gates)
        (operand_of lit).node)) }
{
    match aig.node(lit) {
        Node::Constant => T::value(false),
        Node::Input(input) => input_known(path, input),
        Node::Gate(gate) => row[gate],
    }
}

fn is_negated(lit: u64) -> bool
    ensures { result ≡ (operand_of lit).negated }
{
    lit % 2 == 1
}

/// What is known of a literal.
pub fn literal_known<T: Below>(aig: &Aig, path: &[bool], row: &[T], lit: u64) -> T
    requires net { IsNet aig.now }
    requires lit { IsLiteral aig.now lit }
    requires there { IsThere (length aig.now.inputs) (length row.now) (operand_of lit).node }
    requires row { AreTold T.Says aig.now path.now row.now }
    ensures { T.Says result (λ w. known_along aig.now.inputs (path.now ++ w)
        (tree_at aig.now lit)) }
{
    plain_known(aig, path, row, lit).signed(is_negated(lit))
}

/// Fills the row with what is known of each gate.
pub fn fill<T: Below>(aig: &Aig, path: &[bool], row: &mut Vec<T>) -> Result<(), NoMemory>
    ensures room { OnOk result (length row.new.items ≡ length aig.now.gates) }
    ensures told { OnOk result (AreTold T.Says aig.now path.now row.new.items) }
{
    row.clear();
    for gate in 0..aig.gates() {
        let (left, right) = aig.operands(gate);
        let first: T = literal_known(aig, path, row, left);
        let second = literal_known(aig, path, row, right);
        row.push(first.and(second))?;
    }
    Ok(())
}
