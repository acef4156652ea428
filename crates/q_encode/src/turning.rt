//! The prefix as a side sees it: that side's circuits belong to its existentials.
ghost use Rattle.std.specs.Prelude.{◌≡◌, IfOk};
ghost use Rattle.q_logic.specs.Exchanging.{other_quant};
ghost use Rattle.q_encode.specs.Sides.{turned, turned_bound, turned_quant};

use crate::side::Side;
use q_logic::{Bound, NoMemory, Quant};
use std::alloc::Global;

fn turn_quant(side: Side, quant: Quant) -> Quant
    ensures { result ≡ turned_quant side quant }
{
    match (side, quant) {
        (Side::Skolem, quant) => quant,
        (Side::Herbrand, Quant::Exists) => Quant::Forall,
        (Side::Herbrand, Quant::Forall) => Quant::Exists,
    }
}

fn turn_bound(side: Side, bound: Bound) -> Bound
    ensures { result ≡ turned_bound side bound }
{
    Bound {
        quant: turn_quant(side, bound.quant),
        var: bound.var,
    }
}

/// The prefix, with its quantifiers exchanged where the circuits are those of the universals.
pub fn turn(alloc: Global, side: Side, prefix: &[Bound]) -> Result<Vec<Bound>, NoMemory>
    ensures { IfOk result (λ made. made.items ≡ turned side prefix.now) }
{
    let mut made = Vec::new(alloc);
    for at in 0..prefix.len() {
        let bound = turn_bound(side, prefix[at]);
        made.push(bound)?;
    }
    Ok(made)
}
