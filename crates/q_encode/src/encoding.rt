//! The miter of given circuits.
ghost use Rattle.std.specs.Prelude.{◌≡◌, ◌<◌, ◌+◌, ◌^◌, Err, IfOk, OnOk, length};
ghost use Rattle.q_logic.specs.Prelude.{Lawful, trees_of};
ghost use Rattle.q_miter.specs.Miters.{AreCircuits, top_of};
ghost use Rattle.q_encode.specs.Encoded.{IsMiter};
ghost use Rattle.q_encode.specs.Sides.{miter_of, turned};
ghost use Rattle.q_encode.specs.Sums.{IsSmall};
ghost use Rattle.q_encode.specs.Translations.{AreNames};

use crate::error::EncodeError;
use crate::herbrand::herbrand_clauses;
use crate::side::Side;
use crate::skolem::skolem_clauses;
use crate::sums::{greatest, is_small};
use crate::turning::turn;
use q_aig::Certificate;
use q_certificate::narrow;
use q_logic::{Clauses, Formula, NoMemory};
use std::alloc::Global;

// The clauses of a side.
fn side_clauses(
    alloc: Global,
    side: Side,
    formula: &Formula,
    circuits: &Certificate,
    top: u32,
) -> Result<Clauses, NoMemory>
    requires names { AreNames circuits.now.inputs }
    requires top { top ≡ top_of formula.now circuits.now }
    requires room { top + length circuits.now.gates + length formula.now.matrix + 2 < 2 ^ 31 }
    ensures { IfOk result (λ made. made ≡ miter_of side formula.now circuits.now) }
{
    match side {
        Side::Skolem => skolem_clauses(alloc, formula, circuits, top),
        Side::Herbrand => herbrand_clauses(alloc, formula, circuits, top),
    }
}

// What holds of every certificate.
fn circuits_are_lawful(circuits: &Certificate)
    ensures { AreCircuits circuits.now }
{
    let _ = circuits.outputs();
    let _ = circuits.aig().inputs();
}

// The miter of circuits that are known to be small.
fn encode_small(
    alloc: Global,
    side: Side,
    formula: &Formula,
    given: &Certificate,
) -> Result<Clauses, NoMemory>
    requires lawful { Lawful (turned side formula.now.prefix) (trees_of given.now) }
    requires small { IsSmall side formula.now given.now }
    ensures { IfOk result (IsMiter side formula.now given.now) }
{
    let prefix = formula.prefix();
    let turned = turn(alloc, side, prefix)?;
    let made = narrow(alloc, &turned, given)?;
    circuits_are_lawful(&made);
    let clauses = side_clauses(alloc, side, formula, &made, greatest(prefix))?;
    Ok(clauses)
}

/// Makes the miter of circuits of a side.
pub fn encode(
    alloc: Global,
    side: Side,
    formula: &Formula,
    given: &Certificate,
) -> Result<Clauses, EncodeError>
    requires { Lawful (turned side formula.now.prefix) (trees_of given.now) }
    ensures miter { IfOk result (IsMiter side formula.now given.now) }
    ensures small { OnOk result (IsSmall side formula.now given.now) }
    ensures too_large { result ≡ Err EncodeError.TooLarge → ¬ IsSmall side formula.now given.now }
{
    if !is_small(side, formula, given.aig().gates()) {
        return Err(EncodeError::TooLarge);
    }
    let clauses = encode_small(alloc, side, formula, given)?;
    Ok(clauses)
}
