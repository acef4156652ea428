//! The universal variable leaves all clauses.
ghost use Rattle.std.specs.Prelude.{◌≡◌, ◌≤◌, ◌+◌, ◌*◌, length};
ghost use Rattle.q_logic.specs.Prelude.{with_literal, each_without, size_of, live};
ghost use Rattle.q_kernel.specs.Prelude.{slots};
ghost use Rattle.q_expand.specs.Apart.{MayLose, HasLost};

use q_kernel::Kernel;
use q_logic::Lit;

/// Takes a universal literal out of all clauses, none of which reaches its negation.
pub(crate) fn drop_all(kernel: &mut Kernel, lit: Lit)
    requires apart { MayLose kernel.old lit }
    requires bytes { 16 * size_of (with_literal lit (live (slots kernel.old)))
        ≤ kernel.old.spare_bytes }
    ensures { HasLost kernel.old kernel.new lit }
{
    while let Some(place) = kernel.first(lit) {
        kernel.sound();
        let id = kernel.owner(place);
        kernel.drop_lit(id, lit);
    }
}
