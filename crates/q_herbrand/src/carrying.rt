//! The construction of circuits of the input, over all inputs that were met on the way. The gates that the given circuits
//! need are copied into a draft, whose inputs are slots; the entries are taken there; then the draft is built without slots.
ghost use Rattle.std.specs.Prelude.{◌≡◌, IfOk};
ghost use Rattle.q_logic.specs.Prelude.{Distinct};
ghost use Rattle.q_logic.specs.Exchanging.{exchanged};
ghost use Rattle.q_certificate.specs.Prelude.{look_at};
ghost use Rattle.q_herbrand.specs.Refuted.{IsWide};
ghost use Rattle.q_herbrand.specs.Drafted.{IsBuiltFrom, IsChosen, IsLawfulRun, IsWritten};

use crate::building::Settled;
use crate::drafting::{Draft, make_draft};
use crate::inputs::open;
use crate::reversal::Reversals;
use crate::settling::settle;
use q_aig::{Aig, Certificate};
use q_certificate::{Table, look, name_outputs, put};
use q_logic::{Bound, Formula, NoMemory, Quant};
use std::alloc::Global;

// The literal of a circuit of the draft.
fn settled_literal(draft: &Draft, settled: &Settled, var: u32) -> u64
    requires { IsWritten draft.now settled.now }
    ensures { IsBuiltFrom draft.now settled.now (look_at draft.now.tables.circuits.items var)
        result }
{
    match look(&draft.tables.circuits, var) {
        Some(lit) => settled.literal(&draft.aig, lit),
        None => 0,
    }
}

// The circuits of the universals, whose prefix has its quantifiers exchanged.
fn choose(
    alloc: Global,
    turned: &[Bound],
    draft: &Draft,
    settled: &Settled,
) -> Result<Table, NoMemory>
    requires distinct { Distinct turned.now }
    requires written { IsWritten draft.now settled.now }
    ensures { IfOk result (λ row. IsChosen turned.now draft.now settled.now row.items) }
{
    let mut row = Table::new(alloc);
    for bound in turned {
        match bound.quant {
            Quant::Forall => {}
            Quant::Exists => {
                let lit = settled_literal(draft, settled, bound.var);
                put(&mut row, bound.var, Some(lit))?;
            }
        }
    }
    Ok(row)
}

/// Carries circuits to the input, where they are lawful for an output.
pub fn carry(
    alloc: Global,
    input: &Formula,
    turned: &[Bound],
    reversals: &Reversals,
    given: &Certificate,
) -> Result<Certificate, NoMemory>
    requires turned { turned.now ≡ exchanged input.now.prefix }
    requires run { IsLawfulRun input.now reversals.now given.now }
    ensures { IfOk result (IsWide input.now reversals.now given.now) }
{
    let prefix = input.prefix();
    let mut aig = Aig::new(alloc);
    let inputs = open(alloc, &mut aig, prefix, reversals)?;
    let draft = make_draft(alloc, &aig, inputs, reversals, given)?;
    let settled = settle(
        alloc,
        &draft.aig,
        &draft.slots,
        &draft.tables.inputs,
        &mut aig,
    )?;
    let row = choose(alloc, turned, &draft, &settled)?;
    let made = name_outputs(aig, turned, &row)?;
    Ok(made)
}
