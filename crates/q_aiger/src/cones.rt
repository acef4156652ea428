//! The gates that the outputs of a certificate are made of.
ghost use Rattle.std.specs.Prelude.{◌≡◌, ◌<◌, ◌≤◌, ◌↔◌, ℕ, [], false, length, map, slice_index_or, IfOk};
ghost use Rattle.q_logic.specs.Prelude.{IsThere};
ghost use Rattle.q_aig.specs.Prelude.{operand_of, IsLiteral, net_of};
ghost use Rattle.q_aiger.specs.Cones.{with_mark, IsMarking, ArePlaced, HasCones};

use q_aig::{Aig, Certificate, Node};
use q_logic::NoMemory;
use std::alloc::Global;

/// The gates in the cones, in their order, and of each gate its place among them.
#[derive(Drop)]
pub struct Cones {
    pub kept: Vec<usize>,
    pub places: Vec<usize>,
}

/// Finds the cones of all outputs.
pub fn cones_of(certificate: &Certificate) -> Result<Cones, NoMemory>
    ensures { IfOk result (λ c. HasCones certificate.now c.kept.items c.places.items) }
{
    let aig = certificate.aig();
    let alloc = aig.allocator();
    let mut marks = Vec::new(alloc);
    marks.resize(aig.gates(), false)?;
    mark_outputs(certificate, &mut marks);
    mark_operands(certificate, &mut marks);
    place_marked(alloc, &marks)
}

// Marks the outputs themselves.
fn mark_outputs(certificate: &Certificate, marks: &mut Vec<bool>)
    requires room { length marks.old.items ≡ length certificate.now.gates }
    requires unmarked { (g : ℕ) → slice_index_or marks.old.items g false ≡ false }
    ensures { IsMarking certificate.now marks.new.items (length certificate.now.outputs)
        (length certificate.now.gates) }
{
    let aig = certificate.aig();
    for output in certificate.outputs() {
        mark(aig, marks, output.lit);
    }
}

// Marks the operands of what is marked, from the last gate to the first.
fn mark_operands(certificate: &Certificate, marks: &mut Vec<bool>)
    requires { IsMarking certificate.now marks.old.items (length certificate.now.outputs)
        (length certificate.now.gates) }
    ensures { IsMarking certificate.now marks.new.items (length certificate.now.outputs) 0 }
{
    let aig = certificate.aig();
    let gates = aig.gates();
    for later in 0..gates {
        let gate = gates - 1 - later;
        if marks[gate] {
            let (left, right) = aig.operands(gate);
            mark(aig, marks, left);
            mark(aig, marks, right);
        }
    }
}

// Marks the gate that a literal stands for.
fn mark(aig: &Aig, marks: &mut Vec<bool>, lit: u64)
    requires lit { IsLiteral aig.now lit }
    requires room { length marks.old.items ≡ length aig.now.gates }
    ensures { marks.new.items ≡ with_mark marks.old.items (operand_of lit).node }
{
    if let Node::Gate(gate) = aig.node(lit) {
        marks[gate] = true;
    }
}

// Gathers what is marked.
fn place_marked(alloc: Global, marks: &Vec<bool>) -> Result<Cones, NoMemory>
    ensures { IfOk result (λ c. ArePlaced marks.now.items (length marks.now.items) c.kept.items
        c.places.items) }
{
    let mut kept = Vec::new(alloc);
    let mut places = Vec::new(alloc);
    places.resize(marks.len(), 0)?;
    for gate in 0..marks.len() {
        if marks[gate] {
            places[gate] = kept.len();
            kept.push(gate)?;
        }
    }
    Ok(Cones { kept, places })
}
