//! Nodes built one after the other, each behind those that it uses. A slot costs no gate: its literal is that of what it
//! was filled with, or of its variable's input.
ghost use Rattle.std.specs.Prelude.{◌≡◌, ◌<◌, ◌+◌, ℕ, length, slice_index_or, None, OnOk, IfOk, MatchOption};
ghost use Rattle.q_aig.specs.Prelude.{IsLiteral, operand_of};
ghost use Rattle.q_certificate.specs.Prelude.{look_at, AreLiterals, InputsAt, is_there, or_zero, copied_operand};
ghost use Rattle.q_herbrand.specs.Slots.{AreSlots, AreOwned, owner_at};
ghost use Rattle.q_herbrand.specs.Settled.{row_literal, AreRows, AreBuilt, IsBuilt, IsCopied};

use crate::slots::Slots;
use q_aig::{Aig, Node, negate};
use q_certificate::Table;
use q_logic::NoMemory;
use std::alloc::Global;

/// What was built: the literal of each slot and of each gate.
#[derive(Drop)]
pub struct Settled {
    pub slots: Vec<Option<u64>>,
    pub gates: Vec<u64>,
}

/// Nothing is built yet.
pub fn nothing(alloc: Global, slots: usize, gates: usize) -> Result<Settled, NoMemory>
    ensures slots_room { IfOk result (λ m. length m.slots.items ≡ slots) }
    ensures gates_room { IfOk result (λ m. length m.gates.items ≡ gates) }
    ensures slots { IfOk result (λ m. (s : ℕ) → look_at m.slots.items s ≡ None) }
    ensures gates { IfOk result (λ m. (g : ℕ) → slice_index_or m.gates.items g 0 ≡ 0) }
{
    let mut made = Settled {
        slots: Vec::new(alloc),
        gates: Vec::new(alloc),
    };
    made.slots.resize(slots, None)?;
    made.gates.resize(gates, 0)?;
    Ok(made)
}

// A literal, or 0.
fn or_false(lit: Option<u64>) -> u64
    ensures { result ≡ or_zero lit }
{
    lit.unwrap_or(0)
}

impl Settled {
    /// What stands for a literal of the draft.
    pub fn literal(&self, draft: &Aig, lit: u64) -> u64
        requires lit { IsLiteral draft.now lit }
        requires room { length self.now.gates.items ≡ length draft.now.gates }
        ensures { operand_of result ≡ copied_operand draft.now.inputs self.now.slots.items
            self.now.gates.items (operand_of lit) }
    {
        let plain = match draft.node(lit) {
            Node::Constant => 0,
            Node::Input(at) => or_false(self.slot(draft.inputs()[at])),
            Node::Gate(gate) => self.gates[gate],
        };
        if lit % 2 == 1 { negate(plain) } else { plain }
    }

    fn slot(&self, slot: u32) -> Option<u64>
        ensures { result ≡ look_at self.now.slots.items slot }
    {
        let at = slot as usize;
        if at < self.slots.len() {
            self.slots[at]
        } else {
            None
        }
    }
}

// The literal of a slot.
fn slot_literal(draft: &Aig, slots: &Slots, inputs: &Table, made: &Settled, slot: usize) -> u64
    requires literals { AreLiterals draft.now slots.now.definitions.items }
    requires slot { slot < length slots.now.definitions.items }
    requires owners { slot < length slots.now.owners.items }
    requires room { length made.now.gates.items ≡ length draft.now.gates }
    ensures { MatchOption (look_at slots.now.definitions.items slot)
        (result ≡ row_literal inputs.now.items (owner_at slots.now.owners.items slot))
        (λ l. operand_of result ≡ copied_operand draft.now.inputs made.now.slots.items
        made.now.gates.items (operand_of l)) }
{
    match slots.definitions[slot] {
        Some(lit) => made.literal(draft, lit),
        None => or_false(inputs.get(slots.owners[slot])),
    }
}

// The literal of a gate.
fn copy_gate(draft: &Aig, made: &Settled, aig: &mut Aig, gate: usize) -> Result<u64, NoMemory>
    requires gate { gate < length draft.now.gates }
    requires room { length made.now.gates.items ≡ length draft.now.gates }
    requires slots { AreLiterals aig.old made.now.slots.items }
    requires gates { (g : ℕ) → IsLiteral aig.old (slice_index_or made.now.gates.items g 0) }
    ensures { IfOk result (IsCopied draft.now aig.old aig.new made.now gate) }
{
    // for the proof: the contract of this call says that this is a graph
    draft.inputs();
    let (left, right) = draft.operands(gate);
    let a = made.literal(draft, left);
    let b = made.literal(draft, right);
    let lit = aig.and(a, b)?;
    Ok(lit)
}

/// Builds a node behind those that it uses.
pub fn build(
    draft: &Aig,
    slots: &Slots,
    inputs: &Table,
    aig: &mut Aig,
    made: &mut Settled,
    node: usize,
) -> Result<(), NoMemory>
    requires slots { AreSlots draft.now slots.now }
    requires owned { AreOwned draft.now.inputs inputs.now.items slots.now }
    requires inputs { AreLiterals aig.old inputs.now.items }
    requires at { InputsAt aig.old inputs.now.items (λ x. is_there (look_at inputs.now.items x)) }
    requires rows { AreRows draft.now aig.old slots.now made.old }
    requires node { node < length slots.now.definitions.items + length draft.now.gates }
    ensures { OnOk result (IsBuilt draft.now aig.old aig.new slots.now made.old made.new node) }
{
    let count = slots.definitions.len();
    if node < count {
        let lit = slot_literal(draft, slots, inputs, made, node);
        made.slots[node] = Some(lit);
    } else {
        let gate = node - count;
        let lit = copy_gate(draft, made, aig, gate)?;
        made.gates[gate] = lit;
    }
    Ok(())
}
