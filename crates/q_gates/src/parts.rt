//! The gates that the operands of a gate are.
ghost use Rattle.std.specs.Prelude.{◌≡◌, ◌<◌, length};
ghost use Rattle.q_gates.specs.Gates.{gates_view, source_view};
ghost use Rattle.q_gates.specs.Uses.{part_at, part_of as part};

use crate::gate::{Gate, Source};

/// The gates that the operands of a gate are, where they are gates.
pub fn parts_at(gates: &[Gate], gate: usize) -> (Option<usize>, Option<usize>)
    requires { gate < length gates.now }
    ensures { result ≡ part_at (gates_view gates.now) gate }
{
    let gate = gates[gate];
    (part_of(gate.left.source), part_of(gate.right.source))
}

fn part_of(source: Source) -> Option<usize>
    ensures { result ≡ part (source_view source) }
{
    match source {
        Source::Gate(gate) => Some(gate as usize),
        _ => None,
    }
}
