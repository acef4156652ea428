//! Looks at the kernel's lists that are safe for any id and any index.
ghost use Rattle.std.specs.Prelude.{◌≡◌, ◌≤◌};

use q_kernel::{ClauseId, Kernel};
use q_logic::{Lit, NoMemory};

/// The literals of a clause; none where it is gone.
pub(crate) fn lits_of(kernel: &Kernel, id: ClauseId) -> &[Lit] {
    if kernel.live(id) {
        kernel.lits(id)
    } else {
        &[]
    }
}

/// The literal of an index.
pub(crate) fn lit_at(index: u32) -> Option<Lit> {
    let var = index / 2;
    if var == 0 {
        return None;
    }
    Some(Lit::new(var, index % 2 == 0))
}

/// The index of a literal.
pub(crate) fn index_of(lit: Lit) -> u32 {
    2 * lit.var() + u32::from(!lit.negative())
}

/// How many clauses hold a variable, whatever its sign.
pub(crate) fn places_of(kernel: &Kernel, lit: Lit) -> u32 {
    kernel
        .count(lit)
        .saturating_add(kernel.count(lit.negated()))
}

/// Puts the ids of the clauses that hold a literal into a row, behind what is there.
#[inline]
pub(crate) fn gather(kernel: &Kernel, lit: Lit, ids: &mut Vec<ClauseId>) -> Result<(), NoMemory> {
    for id in kernel.holders(lit) {
        ids.push(id)?;
    }
    Ok(())
}
