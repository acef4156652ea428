//! Whether circuits can be circuits of the output: they fit its prefix, and it has no empty clause.
ghost use Rattle.std.specs.Prelude.{◌≡◌, ◌↔◌, [], IsTrue, IfErr, OnOk};
ghost use Rattle.q_logic.specs.Prelude.{IsIn};
ghost use Rattle.q_rebuild.specs.Refusals.{IsRefused, IsAccepted};

use crate::error::RebuildError;
use q_aig::Certificate;
use q_logic::Formula;
use std::alloc::Global;

/// Tests whether these can be circuits of the formula.
pub fn test(alloc: Global, output: &Formula, given: &mut Certificate) -> Result<(), RebuildError>
    ensures unchanged { given.new ≡ given.old }
    ensures accepted { OnOk result (IsAccepted output.now given.old) }
    ensures refused { IfErr result (IsRefused output.now given.old) }
{
    q_certificate::test(alloc, output.prefix(), given)?;
    if has_empty(output) {
        return Err(RebuildError::FalseOutput);
    }
    Ok(())
}

fn has_empty(formula: &Formula) -> bool
    ensures { IsTrue result ↔ IsIn [] formula.now.matrix }
{
    for i in 0..formula.clauses() {
        if formula.clause(i).is_empty() {
            return true;
        }
    }
    false
}
