//! Circuits of the output, carried back to the input.
ghost use Rattle.std.specs.Prelude.{◌≡◌, List, IfOk, IfErr, OnOk};
ghost use Rattle.q_logic.specs.Prelude.{CertificateView, trees_of, Lawful, ProofStep, Run, UndoEntry, Undos as UndosOf};
ghost use Rattle.q_rebuild.specs.Moves.{KeepsMoves};
ghost use Rattle.q_rebuild.specs.Rebuilt.{IsRebuilt};
ghost use Rattle.q_rebuild.specs.Refusals.{IsRefused, IsAccepted};

use crate::accepting::test;
use crate::carrying::carry;
use crate::error::RebuildError;
use q_aig::Certificate;
use q_certificate::fitting_circuits_are_lawful;
use q_check::Undos;
use q_logic::Formula;
use std::alloc::Global;

/// Carries circuits of the output back over an undo list.
pub fn rebuild(
    alloc: Global,
    input: &Formula,
    output: &Formula,
    undo: &Undos,
    given: &mut Certificate,
) -> Result<Certificate, RebuildError>
    requires { (ss : List ProofStep) × Run input.now ss output.now × UndosOf input.now ss undo.now }
    ensures unchanged { given.new ≡ given.old }
    ensures accepted { OnOk result (IsAccepted output.now given.old) }
    ensures rebuilt { IfOk result (IsRebuilt input.now output.now undo.now given.old) }
    ensures moves { IfOk result (KeepsMoves input.now output.now undo.now given.old) }
    ensures refused { IfErr result (IsRefused output.now given.old) }
{
    test(alloc, output, given)?;
    fitting_circuits_are_lawful(given);
    keeping(input, output);
    let made = carry(alloc, input, undo, given)?;
    Ok(made)
}

// What is made of lawful circuits keeps the moves of the first rounds.
fn keeping(input: &Formula, output: &Formula)
    ensures { (ss : List ProofStep) → (us : List UndoEntry) → (gave made : CertificateView)
        → Run input.now ss output.now → UndosOf input.now ss us
        → Lawful output.now.prefix (trees_of gave) → IsRebuilt input.now output.now us gave made
        → KeepsMoves input.now output.now us gave made }
{
    let _ = input.prefix();
    let _ = output.prefix();
}
