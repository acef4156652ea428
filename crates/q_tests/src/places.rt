// Where the literals of a kernel stand once its dead words are gone.
ghost use Rattle.q_kernel.specs.Prelude.{IsReady};

use crate::formulas::push_lit;
use crate::row_targets::{RowTarget, try_one};
use crate::trouble::Trouble;
use q_kernel::{ClauseId, Kernel};
use q_logic::{Bounds, Lit};
use std::alloc::Global;

// No formula of a row has a greater variable.
const MOST: u32 = 1000;

/// Takes a target, compacts, and tells for each literal the clauses that own its places, and the number of dead words:
/// `-1 in 2, 3 in 0 2, 0 dead`.
pub(crate) fn lists(
    alloc: Global,
    kernel: &mut Kernel,
    bounds: &Bounds,
    row_target: &RowTarget,
) -> Result<String, Trouble>
    requires ready { IsReady kernel.old }
{
    let _ = try_one(alloc, kernel, &row_target.target, bounds)?;
    kernel.compact();
    told(alloc, kernel)
}

fn told(alloc: Global, kernel: &Kernel) -> Result<String, Trouble> {
    let mut text = String::new(alloc);
    for var in 1..=MOST {
        push_list(&mut text, kernel, Lit::new(var, true))?;
        push_list(&mut text, kernel, Lit::new(var, false))?;
    }
    let dead = kernel.dead();
    write!(text, "{dead} dead")?;
    Ok(text)
}

fn push_list(text: &mut String, kernel: &Kernel, lit: Lit) -> Result<(), Trouble> {
    let owners = owners_of(*text.allocator(), kernel, lit)?;
    push_owners(text, lit, &owners)
}

fn push_owners(text: &mut String, lit: Lit, owners: &[ClauseId]) -> Result<(), Trouble> {
    if owners.is_empty() {
        return Ok(());
    }
    push_lit(text, lit)?;
    text.push_str(" in")?;
    for id in owners {
        write!(text, " {id}")?;
    }
    text.push_str(", ")?;
    Ok(())
}

// The clauses that own the places of a literal, in ascending order.
fn owners_of(alloc: Global, kernel: &Kernel, lit: Lit) -> Result<Vec<ClauseId>, Trouble> {
    let mut owners = Vec::new(alloc);
    gather(kernel, lit, &mut owners)?;
    owners.sort()?;
    Ok(owners)
}

fn gather(kernel: &Kernel, lit: Lit, owners: &mut Vec<ClauseId>) -> Result<(), Trouble> {
    for id in kernel.holders(lit) {
        owners.push(id)?;
    }
    Ok(())
}
