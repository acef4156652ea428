//! Sorting without recursion, in time and memory linear in the number of gates.
ghost use Rattle.std.specs.Prelude.{◌≡◌, ◌<◌, ◌≤◌, ◌⊎◌, ℕ, [], true, false, length, slice_index_or, IfOk, OnOk, MatchOption, Some, None};
ghost use Rattle.q_gates.specs.Uses.{Uses, DependsOn, AreDefined, IsFullOrder};
ghost use Rattle.q_gates.specs.Gates.{gates_view};
ghost use Rattle.q_gates.specs.Sorting.{is_marked, IsWalk, IsSorted};

use crate::cycles::first_cycle;
use crate::gate::Gate;
use crate::parts::parts_at;
use q_logic::NoMemory;
use std::alloc::Global;

/// An order of all gates in which operands come first; where there is none, the first gate that depends on itself.
#[derive(Drop)]
pub enum Sorted {
    Order(Vec<usize>),
    Cycle(usize),
}

/// Sorts gates that stand in any order.
pub fn sort_gates(alloc: Global, gates: &[Gate]) -> Result<Sorted, NoMemory>
    requires { AreDefined (gates_view gates.now) }
    ensures { IfOk result (IsSorted (gates_view gates.now)) }
{
    match find_order(alloc, gates)? {
        Some(order) => Ok(Sorted::Order(order)),
        None => Ok(Sorted::Cycle(first_cycle(alloc, gates)?)),
    }
}

// A gate that this one uses and that is not closed.
fn first_open(gates: &[Gate], gate: usize, closed: &[bool]) -> Option<usize>
    requires gate { gate < length gates.now }
    requires room { (h : ℕ) → Uses (gates_view gates.now) gate h → h < length closed.now }
    ensures { MatchOption result
        ((h : ℕ) → Uses (gates_view gates.now) gate h → is_marked closed.now h ≡ true)
        (λ h. Uses (gates_view gates.now) gate h × (is_marked closed.now h ≡ false)) }
{
    let (left, right) = parts_at(gates, gate);
    match open_part(left, closed) {
        Some(part) => Some(part),
        None => open_part(right, closed),
    }
}

// The part, if there is one and it is not closed.
fn open_part(part: Option<usize>, closed: &[bool]) -> Option<usize>
    requires { (h : ℕ) → part ≡ Some h → h < length closed.now }
    ensures { MatchOption result ((h : ℕ) → part ≡ Some h → is_marked closed.now h ≡ true)
        (λ h. (part ≡ Some h) × (is_marked closed.now h ≡ false)) }
{
    let part = part?;
    if closed[part] {
        return None;
    }
    Some(part)
}

// An order of all gates in which what is used comes first, or none where some gate depends on itself.
fn find_order(alloc: Global, parts: &[Gate]) -> Result<Option<Vec<usize>>, NoMemory>
    requires { AreDefined (gates_view parts.now) }
    ensures { IfOk result (λ o. MatchOption o ((g : ℕ) × (g < length (gates_view parts.now))
        × DependsOn (gates_view parts.now) g g) (λ v. IsFullOrder (gates_view parts.now) v.items)) }
{
    let count = parts.len();
    let mut opened = Vec::new(alloc);
    opened.resize(count, false)?;
    let mut closed = Vec::new(alloc);
    closed.resize(count, false)?;
    let mut stack = Vec::new(alloc);
    let mut order = Vec::new(alloc);
    for root in 0..count {
        if !close_root(
            parts,
            &mut opened,
            &mut closed,
            &mut stack,
            &mut order,
            root,
        )? {
            return Ok(None);
        }
    }
    Ok(Some(order))
}

// Closes a gate and all that it depends on, or meets an open gate again.
fn close_root(
    parts: &[Gate],
    opened: &mut [bool],
    closed: &mut [bool],
    stack: &mut Vec<usize>,
    order: &mut Vec<usize>,
    root: usize,
) -> Result<bool, NoMemory>
    requires defined { AreDefined (gates_view parts.now) }
    requires root { root < length parts.now }
    requires walk { IsWalk (gates_view parts.now) opened.old closed.old stack.old.items
        order.old.items }
    requires empty { stack.old.items ≡ [] }
    ensures walk { IfOk result (λ b. b ≡ true
        → IsWalk (gates_view parts.now) opened.new closed.new stack.new.items order.new.items
        × (stack.new.items ≡ [])) }
    ensures kept { IfOk result (λ b. b ≡ true → (g : ℕ) → is_marked opened.old g ≡ true
        → is_marked opened.new g ≡ true) }
    ensures root { IfOk result (λ b. b ≡ true → is_marked opened.new root ≡ true) }
    ensures cycle { IfOk result (λ b. b ≡ false → (g : ℕ) × (g < length (gates_view parts.now))
        × DependsOn (gates_view parts.now) g g) }
{
    if opened[root] {
        return Ok(true);
    }
    opened[root] = true;
    stack.push(root)?;
    let closed_all = close_all(parts, opened, closed, stack, order)?;
    Ok(closed_all)
}

// Closes all that is on the stack, or meets an open gate again.
fn close_all(
    parts: &[Gate],
    opened: &mut [bool],
    closed: &mut [bool],
    stack: &mut Vec<usize>,
    order: &mut Vec<usize>,
) -> Result<bool, NoMemory>
    requires defined { AreDefined (gates_view parts.now) }
    requires walk { IsWalk (gates_view parts.now) opened.old closed.old stack.old.items
        order.old.items }
    ensures walk { IfOk result (λ b. b ≡ true
        → IsWalk (gates_view parts.now) opened.new closed.new stack.new.items order.new.items
        × (stack.new.items ≡ [])) }
    ensures kept { IfOk result (λ b. b ≡ true → (g : ℕ) → is_marked opened.old g ≡ true
        → is_marked opened.new g ≡ true) }
    ensures cycle { IfOk result (λ b. b ≡ false → (g : ℕ) × (g < length (gates_view parts.now))
        × DependsOn (gates_view parts.now) g g) }
{
    while !stack.is_empty() {
        let top = stack[stack.len() - 1];
        match first_open(parts, top, closed) {
            Some(next) => {
                if opened[next] {
                    return Ok(false);
                }
                opened[next] = true;
                stack.push(next)?;
            }
            None => {
                closed[top] = true;
                stack.pop();
                order.push(top)?;
            }
        }
    }
    Ok(true)
}
