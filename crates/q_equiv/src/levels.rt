//! Levels of literals that never rise along a clause of two literals. So literals of different levels are not joined each
//! to the other. The levels are the numbers of components; they are verified in one pass, and forgotten if that fails.
ghost use Rattle.std.specs.Prelude.{◌≡◌, ◌≤◌, ◌∷◌, [], false, OnOk, IsTrue};
ghost use Rattle.q_logic.specs.Prelude.{Literal, IsBelow, ArePairs, live};
ghost use Rattle.q_kernel.specs.Prelude.{slots};
ghost use Rattle.q_equiv.specs.Walks.{NeverRise};

use crate::components::Components;
use crate::level_row::Levels;
use q_kernel::Kernel;
use q_logic::{Lit, NoMemory};

/// Makes levels for the clauses of a kernel.
pub fn make_levels(
    kernel: &Kernel,
    components: &mut Components,
    levels: &mut Levels,
) -> Result<(), NoMemory>
    ensures { OnOk result (NeverRise levels.new (live (slots kernel.now))) }
{
    note_all(kernel, components)?;
    components.find()?;
    *levels = Levels::new(kernel.allocator());
    components.tell(levels)?;
    if !never_rise(kernel, levels) {
        *levels = Levels::new(kernel.allocator());
    }
    Ok(())
}

/// Notes all clauses of two literals.
pub(crate) fn note_all(kernel: &Kernel, components: &mut Components) -> Result<(), NoMemory> {
    components.begin();
    for id in kernel.ids() {
        let clause = kernel.lits(id);
        if clause.len() == 2 {
            components.note(clause[0], clause[1])?;
        }
    }
    Ok(())
}

// Whether no clause of two literals leads to a higher level.
fn never_rise(kernel: &Kernel, levels: &Levels) -> bool
    ensures { IsTrue result → NeverRise levels.now (live (slots kernel.now)) }
{
    for id in kernel.ids() {
        if rises(kernel.lits(id), levels) {
            return false;
        }
    }
    true
}

// Whether a clause of two literals leads to a higher level.
fn rises(clause: &[Lit], levels: &Levels) -> bool
    requires { ArePairs IsBelow clause.now }
    ensures { result ≡ false → NeverRise levels.now (clause.now ∷ []) }
{
    if clause.len() != 2 {
        return false;
    }
    let (a, b) = (clause[0], clause[1]);
    levels.of(a.negated()) < levels.of(b) || levels.of(b.negated()) < levels.of(a)
}
