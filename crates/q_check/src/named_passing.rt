//! A step of a log without hints that is made on a numbered formula and not shown, since another one shows it.
ghost use Rattle.q_logic.specs.Prelude.{AreModerate};
ghost use Rattle.q_check.specs.Replays.{IsNumberedMade};

use crate::named::Cut;
use crate::named_makes::{add, delete, drop_literal, fresh, remove};
use crate::numbered::NumberedBook;
use crate::rows::StepRows;
use q_judge::{CheckError, load_clause, load_rest};
use q_logic::{Kind, Limits, Step};

/// Makes the step on the formula, whether or not it is valid.
pub fn make(
    book: &mut NumberedBook,
    rows: &mut StepRows,
    limits: Limits,
    step: &Step,
) -> Result<(), CheckError>
    requires { AreModerate limits }
    ensures { IsNumberedMade limits book.old step.now book.new result }
{
    let lits = step.lits();
    let StepRows {
        clause,
        rest,
        hints,
    } = rows;
    match step.kind() {
        Kind::Add => {
            load_clause(clause, lits)?;
            add(book, limits, clause)
        }
        Kind::Delete => {
            load_clause(clause, lits)?;
            delete(hints.alloc, book, clause)
        }
        Kind::Drop => {
            load_clause(clause, lits)?;
            load_rest(rest, lits)?;
            let lit = lits[0];
            drop_literal(book, &Cut { clause, rest, lit })
        }
        Kind::Fresh => fresh(hints.alloc, book, limits, lits[0].var(), lits[1].var()),
        Kind::Remove => remove(hints.alloc, book, lits[0].var()),
    }
}
