//! Levels of gates that never rise from a gate to one that it uses. So a gate that uses lower ones alone does not depend on
//! itself. The levels are the numbers of components; they are verified in one pass, and forgotten if that fails.
ghost use Rattle.std.specs.Prelude.{◌≡◌, ◌<◌, ◌≤◌, ℕ, false, length, IfOk, IsTrue, Some};
ghost use Rattle.q_gates.specs.Gates.{gates_view};
ghost use Rattle.q_gates.specs.Uses.{Uses};
ghost use Rattle.q_gates.specs.Levels.{level_of, NeverRise, Falls};

use crate::components::number;
use crate::gate::Gate;
use crate::parts::parts_at;
use q_logic::NoMemory;
use std::alloc::Global;

/// Makes levels of the gates.
pub fn make_levels(alloc: Global, gates: &[Gate]) -> Result<Vec<u32>, NoMemory>
    ensures { IfOk result (λ v. NeverRise (gates_view gates.now) v.items) }
{
    let levels = number(alloc, gates)?;
    if never_rise(gates, &levels) {
        return Ok(levels);
    }
    Ok(Vec::new(alloc))
}

// Whether no gate uses one of a higher level.
fn never_rise(gates: &[Gate], levels: &[u32]) -> bool
    ensures { IsTrue result → NeverRise (gates_view gates.now) levels.now }
{
    for gate in 0..gates.len() {
        let (left, right) = parts_at(gates, gate);
        if rises(levels, gate, left) || rises(levels, gate, right) {
            return false;
        }
    }
    true
}

// Whether a part of a gate is on a higher level.
fn rises(levels: &[u32], gate: usize, part: Option<usize>) -> bool
    ensures { result ≡ false → (h : ℕ) → part ≡ Some h → level_of levels.now h
        ≤ level_of levels.now gate }
{
    match part {
        Some(part) => level(levels, gate) < level(levels, part),
        None => false,
    }
}

/// Whether a gate uses gates of lower levels alone.
pub fn falls(gates: &[Gate], levels: &[u32], gate: usize) -> bool
    requires { gate < length gates.now }
    ensures { IsTrue result → Falls (gates_view gates.now) levels.now gate }
{
    let (left, right) = parts_at(gates, gate);
    is_lower(levels, left, gate) && is_lower(levels, right, gate)
}

// Whether a part of a gate is on a lower level.
fn is_lower(levels: &[u32], part: Option<usize>, gate: usize) -> bool
    ensures { IsTrue result → (h : ℕ) → part ≡ Some h → level_of levels.now h
        < level_of levels.now gate }
{
    match part {
        Some(part) => level(levels, part) < level(levels, gate),
        None => true,
    }
}

// The level of a gate: 0 where the list has none.
fn level(levels: &[u32], gate: usize) -> u32
    ensures { result ≡ level_of levels.now gate }
{
    if gate < levels.len() {
        return levels[gate];
    }
    0
}
