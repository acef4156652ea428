//! The miter of circuits of the existentials: some selector is true, and the selector of a clause says that each of its
//! literals is false. Clauses that are true at once have no selector.
ghost use Rattle.std.specs.Prelude.{◌≡◌, ◌<◌, ◌+◌, ◌^◌, ◌++◌, ℕ, length, IfOk, OnOk};
ghost use Rattle.q_logic.specs.Prelude.{CertificateView};
ghost use Rattle.q_miter.specs.Miters.{denials, in_order, lean_miter, selections, selectors, top_of};
ghost use Rattle.q_encode.specs.Translations.{AreNames, IsTranslation};
ghost use Rattle.q_encode.specs.Selected.{selector_row};

use crate::gates::put_definitions;
use crate::needed::needed;
use crate::numbers::selector_lit;
use crate::rows::Rows;
use crate::translating::{translated_lit, translation};
use q_aig::Certificate;
use q_logic::{Clauses, Formula, Lit, NoMemory};
use q_pages::ByNumber;
use std::alloc::Global;

// The selectors of so many clauses.
fn selectors(alloc: Global, top: u32, gates: usize, clauses: usize) -> Result<Vec<Lit>, NoMemory>
    requires { top + gates + clauses + 1 < 2 ^ 31 }
    ensures { IfOk result (λ row. row.items ≡ selector_row top gates 0 clauses) }
{
    let mut row = Vec::new(alloc);
    for at in 0..clauses {
        row.push(selector_lit(top, gates, at))?;
    }
    Ok(row)
}

// The selector of a clause says that each of its literals is false.
fn put_denials(
    rows: &mut Rows,
    circuit_lits: &ByNumber<Option<Lit>>,
    lit: Lit,
    clause: &[Lit],
) -> Result<(), NoMemory>
    ensures { OnOk result ((top : ℕ) → (c : CertificateView) → IsTranslation top c circuit_lits.now →
        rows.new ≡ rows.old ++ in_order (denials top c lit clause.now)) }
{
    for k in clause {
        rows.put(&[lit.negated(), translated_lit(circuit_lits, *k).negated()])?;
    }
    Ok(())
}

// The same for each of the clauses.
fn put_selections(
    rows: &mut Rows,
    circuit_lits: &ByNumber<Option<Lit>>,
    circuits: &Certificate,
    top: u32,
    clauses: &Clauses,
) -> Result<(), NoMemory>
    requires room { top + length circuits.now.gates + length clauses.now + 1 < 2 ^ 31 }
    requires lits { IsTranslation top circuits.now circuit_lits.now }
    ensures { OnOk result (rows.new ≡ rows.old
        ++ in_order (selections top circuits.now 0 clauses.now)) }
{
    let gates = circuits.aig().gates();
    for at in 0..clauses.len() {
        put_denials(
            rows,
            circuit_lits,
            selector_lit(top, gates, at),
            clauses.clause(at),
        )?;
    }
    Ok(())
}

/// The clauses that are false exactly where lawful circuits are Skolem functions.
pub fn skolem_clauses(
    alloc: Global,
    formula: &Formula,
    circuits: &Certificate,
    top: u32,
) -> Result<Clauses, NoMemory>
    requires names { AreNames circuits.now.inputs }
    requires top { top ≡ top_of formula.now circuits.now }
    requires room { top + length circuits.now.gates + length formula.now.matrix + 2 < 2 ^ 31 }
    ensures { IfOk result (λ made. made ≡ lean_miter formula.now circuits.now) }
{
    let _ = formula.prefix();
    let circuit_lits = translation(alloc, circuits, top)?;
    let kept = needed(alloc, formula, circuits, top, &circuit_lits)?;
    let mut rows = Rows::new(alloc);
    put_definitions(&mut rows, circuits.aig(), top)?;
    let chosen = selectors(alloc, top, circuits.aig().gates(), kept.len())?;
    rows.put(&chosen)?;
    put_selections(&mut rows, &circuit_lits, circuits, top, &kept)?;
    Ok(rows.finish())
}
