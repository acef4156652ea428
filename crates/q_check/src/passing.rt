//! A step of a log that is made without being judged, since another one judges it.
ghost use Rattle.std.specs.Prelude.{◌≡◌, IfErr, OnErr, OnOk};
ghost use Rattle.q_logic.specs.Prelude.{AreAlike, AreModerate, after};
ghost use Rattle.q_judge.specs.Ledgers.{formula_in};
ghost use Rattle.q_same_steps.specs.Making.{Applies};
ghost use Rattle.q_check.specs.Replays.{IsUnfitFor};

use crate::makes;
use crate::rows::StepRows;
use q_judge::{CheckError, Ledger, load_clause, load_rest};
use q_logic::{Kind, Limits, Step};

/// Makes the step on the formula, whether or not it is valid.
pub fn make(
    ledger: &mut Ledger,
    rows: &mut StepRows,
    limits: Limits,
    step: &Step,
) -> Result<(), CheckError>
    requires { AreModerate limits }
    ensures fit { OnOk result (Applies limits (formula_in ledger.old) step.now) }
    ensures after { OnOk result (AreAlike (after (formula_in ledger.old) step.now) (formula_in ledger.new)) }
    ensures refused { IfErr result (IsUnfitFor limits (formula_in ledger.old) step.now) }
    ensures unchanged { OnErr result (ledger.new ≡ ledger.old) }
{
    let lits = step.lits();
    let clause = &mut rows.clause;
    let rest = &mut rows.rest;
    match step.kind() {
        Kind::Add => {
            load_clause(clause, lits)?;
            makes::add(ledger, limits, clause)
        }
        Kind::Delete => {
            load_clause(clause, lits)?;
            makes::delete(ledger, clause)
        }
        Kind::Drop => {
            load_clause(clause, lits)?;
            load_rest(rest, lits)?;
            makes::drop_literal(ledger, clause, rest, lits[0])
        }
        Kind::Fresh => makes::fresh(ledger, limits, lits[0].var(), lits[1].var()),
        Kind::Remove => makes::remove(ledger, lits[0].var()),
    }
}
