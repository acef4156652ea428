//! The greatest weight of the inputs that circuits read, by one pass over the gates.
ghost use Rattle.std.specs.Prelude.{◌≡◌, cond, length, max, IfOk};
ghost use Rattle.q_logic.specs.Prelude.{IsThere};
ghost use Rattle.q_aig.specs.Prelude.{operand_of, IsLiteral, IsNet, tree_at};
ghost use Rattle.q_certificate.specs.Peaks.{IsPeak, ArePeaks, AreStrangeWeights};

use q_aig::{Aig, Certificate, Node};
use q_logic::NoMemory;
use std::alloc::Global;

/// The greatest weight of the inputs that a literal reads, by those of the gates.
pub fn peak_of(aig: &Aig, weights: &[usize], row: &[usize], lit: u64) -> usize
    requires lit { IsLiteral aig.now lit }
    requires there { IsThere (length aig.now.inputs) (length row.now) (operand_of lit).node }
    requires weights { length weights.now ≡ length aig.now.inputs }
    requires row { ArePeaks aig.now weights.now row.now }
    requires net { IsNet aig.now }
    ensures { IsPeak aig.now weights.now (tree_at aig.now lit) result }
{
    match aig.node(lit) {
        Node::Constant => 0,
        Node::Input(at) => weights[at],
        Node::Gate(gate) => row[gate],
    }
}

/// The greatest weight of the inputs that each gate reads.
pub fn peaks(alloc: Global, aig: &Aig, weights: &[usize]) -> Result<Vec<usize>, NoMemory>
    requires weights { length weights.now ≡ length aig.now.inputs }
    ensures room { IfOk result (λ row. length row.items ≡ length aig.now.gates) }
    ensures peaks { IfOk result (λ row. ArePeaks aig.now weights.now row.items) }
    ensures net { IsNet aig.now }
{
    let mut row = Vec::new(alloc);
    for gate in 0..aig.gates() {
        let (left, right) = aig.operands(gate);
        let first = peak_of(aig, weights, &row, left);
        let second = peak_of(aig, weights, &row, right);
        row.push(first.max(second))?;
    }
    Ok(row)
}

pub fn greater(first: usize, second: usize) -> usize
    ensures { result ≡ max first second }
{
    if first < second { second } else { first }
}

fn weight(allowed: bool, left: usize) -> usize
    ensures { result ≡ cond allowed 0 left }
{
    if allowed { 0 } else { left }
}

/// Weights by which what is not allowed weighs the more the earlier it stands.
pub fn strange_weights(alloc: Global, allowed: &[bool]) -> Result<Vec<usize>, NoMemory>
    ensures room { IfOk result (λ row. length row.items ≡ length allowed.now) }
    ensures weights { IfOk result (λ row. AreStrangeWeights allowed.now (length allowed.now)
        row.items) }
{
    let count = allowed.len();
    let mut row = Vec::new(alloc);
    for i in 0..count {
        row.push(weight(allowed[i], count - i))?;
    }
    Ok(row)
}
