//! Herbrand functions of the output, carried back to the input.
ghost use Rattle.std.specs.Prelude.{◌≡◌, List, IfOk, IfErr, OnOk};
ghost use Rattle.q_logic.specs.Prelude.{ProofStep, Run, PrenexFormula, CertificateView};
ghost use Rattle.q_certificate.specs.Prelude.{Fits, IsMisfit};
ghost use Rattle.q_logic.specs.Exchanging.{exchanged};
ghost use Rattle.q_logic.specs.Reversals.{Reversals as ReversalsOf};
ghost use Rattle.q_herbrand.specs.Refuted.{IsRefuted};
ghost use Rattle.q_herbrand.specs.Refusals.{IsRefused, IsAccepted};

use crate::carrying::carry;
use crate::error::HerbrandError;
use crate::exchanging::exchange;
use crate::reversal::Reversals;
use q_aig::Certificate;
use q_certificate::{Misfit, fitting_circuits_are_lawful, narrow, test};
use q_logic::Formula;
use std::alloc::Global;

// The first four refusals, over the exchanged prefix.
fn error_of(error: Misfit) -> HerbrandError
    ensures { (G : PrenexFormula) → (c : CertificateView) → IsMisfit (exchanged G.prefix) c error →
        IsRefused G c result }
{
    match error {
        Misfit::MissingOutput { var } => HerbrandError::MissingOutput { var },
        Misfit::StrangeOutput { var } => HerbrandError::StrangeOutput { var },
        Misfit::StrangeInput { var } => HerbrandError::StrangeInput { var },
        Misfit::Reads { var, other } => HerbrandError::Reads {
            var,
            existential: other,
        },
        Misfit::NoMemory => HerbrandError::NoMemory,
    }
}

/// Carries Herbrand functions of the output to Herbrand functions of the input.
pub fn refute(
    alloc: Global,
    input: &Formula,
    output: &Formula,
    reversals: &Reversals,
    given: &mut Certificate,
) -> Result<Certificate, HerbrandError>
    requires { (ss : List ProofStep) × Run input.now ss output.now
        × ReversalsOf input.now ss reversals.now }
    ensures unchanged { given.new ≡ given.old }
    ensures accepted { OnOk result (IsAccepted output.now given.old) }
    ensures refuted { IfOk result (IsRefuted input.now output.now reversals.now given.old) }
    ensures refused { IfErr result (IsRefused output.now given.old) }
{
    accept(alloc, output, given)?;
    fitting_circuits_are_lawful(given);
    let turned = exchange(alloc, input.prefix())?;
    let wide = carry(alloc, input, &turned, reversals, given)?;
    let made = narrow(alloc, &turned, &wide)?;
    Ok(made)
}

// Whether these can be Herbrand functions of the formula.
fn accept(alloc: Global, output: &Formula, given: &mut Certificate) -> Result<(), HerbrandError>
    ensures unchanged { given.new ≡ given.old }
    ensures accepted { OnOk result (IsAccepted output.now given.old) }
    ensures refused { IfErr result (IsRefused output.now given.old) }
{
    fit(alloc, output, given)?;
    if output.clauses() == 0 {
        return Err(HerbrandError::TrueOutput);
    }
    Ok(())
}

fn fit(alloc: Global, output: &Formula, given: &mut Certificate) -> Result<(), HerbrandError>
    ensures unchanged { given.new ≡ given.old }
    ensures fits { OnOk result (Fits (exchanged output.now.prefix) given.old) }
    ensures refused { IfErr result (IsRefused output.now given.old) }
{
    let turned = exchange(alloc, output.prefix())?;
    match test(alloc, &turned, given) {
        Ok(()) => Ok(()),
        Err(error) => Err(error_of(error)),
    }
}
