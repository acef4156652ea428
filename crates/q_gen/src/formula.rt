// The random formula of a seed and a size, as `gen` writes it: the same on each machine.
ghost use Rattle.std.specs.Prelude.{◌≡◌, ◌≤◌, IfOk};
ghost use Rattle.q_logic.specs.Prelude.{IsInLimits, standard, IsProper};
ghost use Rattle.q_gen.specs.Generated.{Generated};

use crate::clauses::{draw, put_clause};
use crate::prefix::prefix_of;
use q_logic::{Clauses, Formula, NoMemory};
use rand_core::SeedableRng;
use rand_pcg::Lcg64Xsh32;
use std::alloc::Global;

/// The formula of this seed and this size, which is the number of its clauses.
pub fn generate(alloc: Global, seed: u64, size: u32) -> Result<Formula, NoMemory>
    requires { size ≤ 100000 }
    ensures value { IfOk result (λ formula. formula ≡ Generated seed size) }
    ensures proper { IsProper (Generated seed size) }
    ensures limits { IsInLimits standard (Generated seed size) }
{
    let width = 1 + size / 5;
    let prefix = prefix_of(alloc, width)?;
    let mut words = Lcg64Xsh32::seed_from_u64(seed);
    let mut clauses = Clauses::new(alloc);
    let mut clause = Vec::new(alloc);
    for _ in 0..size {
        put_clause(&mut clauses, &mut clause, draw(&mut words, width))?;
    }
    let (lits, ends) = clauses.into_parts();
    Ok(Formula::from_parts(prefix, lits, ends))
}
