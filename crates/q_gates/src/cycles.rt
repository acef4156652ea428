//! The first gate that depends on itself.
ghost use Rattle.std.specs.Prelude.{◌≡◌, ◌<◌, ◌≤◌, ◌⊎◌, ◌↔◌, ◌+◌, ◌*◌, ℕ, true, length, IfOk, Some, IsTrue};
ghost use Rattle.q_gates.specs.Uses.{Uses, DependsOn, AreDefined, IsFirstCycle};
ghost use Rattle.q_gates.specs.Gates.{gates_view};
ghost use Rattle.q_gates.specs.Sorting.{is_marked, unmarked_count};
ghost use Rattle.q_gates.specs.Levels.{NeverRise};
ghost use Rattle.q_gates.specs.Spreading.{IsSpread, IsStacked};

use crate::gate::Gate;
use crate::levels::{falls, make_levels};
use crate::parts::parts_at;
use q_logic::NoMemory;
use std::alloc::Global;

// Marks one gate that g uses.
fn meet(
    _parts: &[Gate],
    marks: &mut [bool],
    stack: &mut Vec<usize>,
    _start: usize,
    _g: usize,
    part: Option<usize>,
) -> Result<(), NoMemory>
    requires spread { IsSpread (gates_view _parts.now) _start marks.old stack.old.items _g }
    requires from { (_g ≡ _start) ⊎ DependsOn (gates_view _parts.now) _start _g }
    requires uses { (h : ℕ) → part ≡ Some h → Uses (gates_view _parts.now) _g h
        × (h < length (gates_view _parts.now)) }
    ensures spread { IfOk result (λ _. IsSpread (gates_view _parts.now) _start marks.new
        stack.new.items _g) }
    ensures met { IfOk result (λ _. (h : ℕ) → part ≡ Some h → is_marked marks.new h ≡ true) }
    ensures kept { IfOk result (λ _. (h : ℕ) → is_marked marks.old h ≡ true → is_marked marks.new h
        ≡ true) }
    ensures less { IfOk result (λ _. 2 * unmarked_count marks.new + length stack.new.items
        ≤ 2 * unmarked_count marks.old + length stack.old.items) }
{
    if let Some(h) = part {
        if !marks[h] {
            marks[h] = true;
            stack.push(h)?;
        }
    }
    Ok(())
}

// Marks what g uses.
fn spread(
    parts: &[Gate],
    marks: &mut [bool],
    stack: &mut Vec<usize>,
    start: usize,
    g: usize,
) -> Result<(), NoMemory>
    requires defined { AreDefined (gates_view parts.now) }
    requires there { g < length (gates_view parts.now) }
    requires spread { IsSpread (gates_view parts.now) start marks.old stack.old.items g }
    requires from { (g ≡ start) ⊎ DependsOn (gates_view parts.now) start g }
    ensures whole { IfOk result (λ _. IsStacked (gates_view parts.now) start marks.new
        stack.new.items) }
    ensures less { IfOk result (λ _. 2 * unmarked_count marks.new + length stack.new.items
        ≤ 2 * unmarked_count marks.old + length stack.old.items) }
{
    let (left, right) = parts_at(parts, g);
    meet(parts, marks, stack, start, g, left)?;
    meet(parts, marks, stack, start, g, right)?;
    Ok(())
}

// Whether a gate depends on itself.
fn depends_on_itself(alloc: Global, parts: &[Gate], start: usize) -> Result<bool, NoMemory>
    requires defined { AreDefined (gates_view parts.now) }
    requires there { start < length (gates_view parts.now) }
    ensures { IfOk result (λ b. IsTrue b ↔ DependsOn (gates_view parts.now) start start) }
{
    let mut marks = Vec::new(alloc);
    marks.resize(parts.len(), false)?;
    let mut stack = Vec::new(alloc);
    spread(parts, &mut marks, &mut stack, start, start)?;
    while !stack.is_empty() {
        let top = stack[stack.len() - 1];
        stack.pop();
        spread(parts, &mut marks, &mut stack, start, top)?;
    }
    Ok(marks[start])
}

// Whether a gate depends on itself: one that uses lower gates alone does not.
fn is_cyclic(alloc: Global, parts: &[Gate], levels: &[u32], g: usize) -> Result<bool, NoMemory>
    requires defined { AreDefined (gates_view parts.now) }
    requires levels { NeverRise (gates_view parts.now) levels.now }
    requires there { g < length (gates_view parts.now) }
    ensures { IfOk result (λ b. IsTrue b ↔ DependsOn (gates_view parts.now) g g) }
{
    if falls(parts, levels, g) {
        return Ok(false);
    }
    depends_on_itself(alloc, parts, g)
}

/// The first gate that depends on itself, where some gate does. The levels are numbers of components, so the
/// first gate that does not use lower ones alone is it, and one search suffices.
pub fn first_cycle(alloc: Global, parts: &[Gate]) -> Result<usize, NoMemory>
    requires defined { AreDefined (gates_view parts.now) }
    requires some { (g : ℕ) × DependsOn (gates_view parts.now) g g }
    ensures { IfOk result (IsFirstCycle (gates_view parts.now)) }
{
    let levels = make_levels(alloc, parts)?;
    for g in 0..parts.len() {
        if is_cyclic(alloc, parts, &levels, g)? {
            return Ok(g);
        }
    }
    unreachable!()
}
