//! Circuits of merged values, each over those before it: a pivot chooses between two.
ghost use Rattle.std.specs.Prelude.{◌≡◌, ◌<◌, IfOk, Some, length, slice_get};
ghost use Rattle.q_aig.specs.Prelude.{IsLiteral};
ghost use Rattle.q_certificate.specs.Prelude.{AreLiterals};
ghost use Rattle.q_extract.specs.Merges.{AreMerges, AreNodeLiterals, IsChosen, IsMergeNode, IsMerging, IsNodeOf, IsSaidBelow};

use crate::said::{Merge, Said};
use q_aig::{Aig, constant, negate};
use q_certificate::{Tables, or};
use q_logic::NoMemory;
use std::alloc::Global;

/// The first literal where the choice is true, and the second where it is false.
pub fn choose(aig: &mut Aig, choice: u64, first: u64, second: u64) -> Result<u64, NoMemory>
    requires choice { IsLiteral aig.old choice }
    requires first { IsLiteral aig.old first }
    requires second { IsLiteral aig.old second }
    ensures { IfOk result (IsChosen aig.old aig.new choice first second) }
{
    let with = aig.and(choice, first)?;
    let without = aig.and(negate(choice), second)?;
    let lit = or(aig, with, without)?;
    Ok(lit)
}

/// The literal for the circuit of a merge.
pub fn node(nodes: &[u64], merge: usize) -> u64
    requires { merge < length nodes.now }
    ensures { slice_get nodes.now merge ≡ Some result }
{
    nodes[merge]
}

// The literal for what is said.
fn said_node(nodes: &[u64], said: Said) -> u64
    requires { IsSaidBelow (length nodes.now) said }
    ensures { IsNodeOf nodes.now said result }
{
    match said {
        Said::Constant(value) => constant(value),
        Said::Merged(merge) => node(nodes, merge),
    }
}

// The literal for a merge.
fn merge_node(aig: &mut Aig, tables: &Tables, nodes: &[u64], merge: Merge) -> Result<u64, NoMemory>
    requires inputs { AreLiterals aig.old tables.now.inputs.items }
    requires circuits { AreLiterals aig.old tables.now.circuits.items }
    requires nodes { AreNodeLiterals aig.old nodes.now }
    requires first { IsSaidBelow (length nodes.now) merge.first }
    requires second { IsSaidBelow (length nodes.now) merge.second }
    ensures { IfOk result (IsMergeNode aig.old aig.new tables.now.inputs.items
        tables.now.circuits.items nodes.now merge) }
{
    let pivot = tables.literal(merge.pivot);
    let first = said_node(nodes, merge.first);
    let second = said_node(nodes, merge.second);
    let lit = choose(aig, pivot, first, second)?;
    Ok(lit)
}

/// The literals for all merges.
pub fn merge_nodes(
    alloc: Global,
    aig: &mut Aig,
    tables: &Tables,
    merges: &[Merge],
) -> Result<Vec<u64>, NoMemory>
    requires inputs { AreLiterals aig.old tables.now.inputs.items }
    requires circuits { AreLiterals aig.old tables.now.circuits.items }
    requires merges { AreMerges merges.now }
    ensures { IfOk result (λ nodes. IsMerging aig.old aig.new tables.now.inputs.items
        tables.now.circuits.items merges.now nodes.items) }
{
    let mut nodes = Vec::new(alloc);
    for merge in merges {
        let lit = merge_node(aig, tables, &nodes, *merge)?;
        nodes.push(lit)?;
    }
    Ok(nodes)
}
