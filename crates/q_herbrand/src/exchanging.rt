//! A prefix with its quantifiers exchanged.
ghost use Rattle.std.specs.Prelude.{◌≡◌, IfOk};
ghost use Rattle.q_logic.specs.Exchanging.{exchanged, exchanged_bound, other_quant};

use q_logic::{Bound, NoMemory, Quant};
use std::alloc::Global;

fn other(quant: Quant) -> Quant
    ensures { result ≡ other_quant quant }
{
    match quant {
        Quant::Exists => Quant::Forall,
        Quant::Forall => Quant::Exists,
    }
}

fn exchange_one(bound: Bound) -> Bound
    ensures { result ≡ exchanged_bound bound }
{
    Bound {
        quant: other(bound.quant),
        var: bound.var,
    }
}

pub fn exchange(alloc: Global, prefix: &[Bound]) -> Result<Vec<Bound>, NoMemory>
    ensures { IfOk result (λ made. made.items ≡ exchanged prefix.now) }
{
    let mut made = Vec::new(alloc);
    for at in 0..prefix.len() {
        let bound = exchange_one(prefix[at]);
        made.push(bound)?;
    }
    Ok(made)
}
