// The prefix of a random formula: three blocks, exists, forall, exists, whose widths go by the number of clauses.
ghost use Rattle.std.specs.Prelude.{◌≡◌, ◌≤◌, ◌<◌, ◌+◌, ◌^◌, ◌++◌, OnOk, IfOk};
ghost use Rattle.q_gen.specs.Generated.{block_from, prefix_of};

use q_logic::{Bound, NoMemory, Quant};
use std::alloc::Global;

// Puts `count` variables from `first` on behind the prefix.
fn put_block(prefix: &mut Vec<Bound>, quant: Quant, first: u32, count: u32) -> Result<(), NoMemory>
    requires { first + count < 2 ^ 31 }
    ensures { OnOk result (prefix.new.items ≡ prefix.old.items ++ block_from quant first count) }
{
    for var in first..first + count {
        prefix.push(Bound { quant, var })?;
    }
    Ok(())
}

/// The three blocks, of `width`, `width` and twice `width` variables.
pub(crate) fn prefix_of(alloc: Global, width: u32) -> Result<Vec<Bound>, NoMemory>
    requires { width ≤ 20001 }
    ensures { IfOk result (λ prefix. prefix.items ≡ prefix_of width) }
{
    let mut prefix = Vec::new(alloc);
    put_block(&mut prefix, Quant::Exists, 1, width)?;
    put_block(&mut prefix, Quant::Forall, width + 1, width)?;
    put_block(&mut prefix, Quant::Exists, 2 * width + 1, 2 * width)?;
    Ok(prefix)
}
