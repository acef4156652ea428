//! The clauses of the formula that are not true at once under the circuits.
ghost use Rattle.std.specs.Prelude.{◌≡◌, ◌<◌, ◌+◌, ◌^◌, length, IfOk};
ghost use Rattle.q_miter.specs.Miters.{needed as needed_clauses};
ghost use Rattle.q_encode.specs.Translations.{AreNames, IsTranslation};

use crate::needless::is_needless;
use crate::translating::translate;
use q_aig::Certificate;
use q_logic::{Clauses, Formula, Lit, NoMemory, sort_clause};
use q_pages::ByNumber;
use std::alloc::Global;

/// The clauses that need selectors.
pub fn needed(
    alloc: Global,
    formula: &Formula,
    circuits: &Certificate,
    top: u32,
    circuit_lits: &ByNumber<Option<Lit>>,
) -> Result<Clauses, NoMemory>
    requires names { AreNames circuits.now.inputs }
    requires room { top + length circuits.now.gates + 2 < 2 ^ 31 }
    requires lits { IsTranslation top circuits.now circuit_lits.now }
    ensures { IfOk result (λ kept. kept ≡ needed_clauses top circuits.now formula.now.matrix) }
{
    let mut kept = Clauses::new(alloc);
    let mut made = Vec::new(alloc);
    for at in 0..formula.clauses() {
        let clause = formula.clause(at);
        translate(circuit_lits, clause, &mut made)?;
        sort_clause(&mut made);
        if !is_needless(circuits.aig(), top, &made) {
            kept.push(clause)?;
        }
    }
    Ok(kept)
}
