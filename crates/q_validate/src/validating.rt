//! Whether circuits are Skolem functions.
ghost use Rattle.std.specs.Prelude.{◌≡◌, ◌<◌, ◌^◌, IfOk, IfErr, OnOk, length};
ghost use Rattle.q_logic.specs.Prelude.{trees_of, Lawful};
ghost use Rattle.q_logic.specs.Branches.{claim_of, branches, AreFed};
ghost use Rattle.q_certificate.specs.Prelude.{Fits};
ghost use Rattle.q_validate.specs.Answers.{IsAnswer};
ghost use Rattle.q_validate.specs.Refusals.{IsRefused};

use crate::error::ValidateError;
use crate::node::Node;
use q_aig::Certificate;
use q_certificate::{circuits_of, fitting_circuits_are_lawful, test};
use q_logic::{Formula, Lits, NoMemory, branches_are_few, counters_falsify, valid_is_skolem};
use q_search::{Ending, find_lost};
use std::alloc::Global;

/// Whether the circuits are Skolem functions. Where they are not, the literals of the universals that are true where
/// some clause is false, in the order of the prefix.
#[derive(Drop)]
pub enum Answer {
    Valid,
    Invalid(Lits),
    Unknown,
}

/// Validates the circuits of a certificate, within a budget of branches.
pub fn validate(
    alloc: Global,
    formula: &Formula,
    certificate: &mut Certificate,
    budget: Option<u64>,
) -> Result<Answer, ValidateError>
    ensures unchanged { certificate.new ≡ certificate.old }
    ensures fits { OnOk result (Fits formula.now.prefix certificate.old) }
    ensures answer { IfOk result (λ a. IsAnswer formula.now certificate.old budget a) }
    ensures few { branches (claim_of formula.now certificate.old)
        < 2 ^ length certificate.old.inputs }
    ensures refused { IfErr result (IsRefused formula.now certificate.old) }
{
    branches_are_few();
    test(alloc, formula.prefix(), certificate)?;
    fitting_circuits_are_lawful(certificate);
    let answer = examine(alloc, formula, certificate, budget)?;
    Ok(answer)
}

// The same for lawful circuits over the inputs.
fn examine(
    alloc: Global,
    formula: &Formula,
    certificate: &Certificate,
    budget: Option<u64>,
) -> Result<Answer, NoMemory>
    requires lawful { Lawful formula.now.prefix (trees_of certificate.now) }
    requires fed { AreFed (claim_of formula.now certificate.now) }
    ensures { IfOk result (λ a. IsAnswer formula.now certificate.now budget a) }
{
    valid_is_skolem();
    counters_falsify();
    let circuits = circuits_of(alloc, certificate)?;
    let mut node = Node::start(alloc, formula, certificate, circuits)?;
    match find_lost(&mut node, budget)? {
        Ending::AllWon => Ok(Answer::Valid),
        Ending::AllLost => {
            let lits = node.counter(alloc)?;
            let _ = formula.prefix();
            Ok(Answer::Invalid(lits))
        }
        Ending::Unknown => Ok(Answer::Unknown),
    }
}
