//! A step of a log with hints that is made without a look at its hints, since another one judges it.
ghost use Rattle.q_logic.specs.Prelude.{AreModerate};
ghost use Rattle.q_check.specs.Replays.{IsHintMade};

use crate::named::Cut;
use crate::numbered::NumberedBook;
use crate::numbered_makes::{add, delete, drop_literal, fresh, remove};
use crate::rows::{Settings, StepRows};
use q_judge::{CheckError, load_clause, load_rest};
use q_logic::{Kind, Proof, Step};

/// Makes the step on the formula, whether or not its proof part shows that it is valid.
pub fn make(
    book: &mut NumberedBook,
    rows: &mut StepRows,
    settings: Settings,
    step: &Step,
    proof: &Proof,
) -> Result<(), CheckError>
    requires { AreModerate settings.limits }
    ensures { IsHintMade settings.limits book.old step.now proof.now book.new result }
{
    let lits = step.lits();
    let number = proof.number() as usize;
    let clause = &mut rows.clause;
    let rest = &mut rows.rest;
    match step.kind() {
        Kind::Add => {
            load_clause(clause, lits)?;
            add(book, settings.limits, clause)
        }
        Kind::Delete => {
            load_clause(clause, lits)?;
            delete(book, number, clause)
        }
        Kind::Drop => {
            load_clause(clause, lits)?;
            load_rest(rest, lits)?;
            let lit = lits[0];
            drop_literal(book, number, &Cut { clause, rest, lit })
        }
        Kind::Fresh => fresh(book, settings, lits[0].var(), lits[1].var(), proof),
        Kind::Remove => remove(book, lits[0].var(), proof),
    }
}
