//! The miter of circuits of the universals: each clause of the formula, by its circuits.
ghost use Rattle.std.specs.Prelude.{◌≡◌, ◌<◌, ◌+◌, ◌^◌, ◌++◌, ℕ, length, IfOk, OnOk};
ghost use Rattle.q_logic.specs.Prelude.{CertificateView};
ghost use Rattle.q_miter.specs.Miters.{herbrand_miter, in_order, top_of, translated_matrix};
ghost use Rattle.q_encode.specs.Translations.{AreNames, IsTranslation};

use crate::gates::put_definitions;
use crate::rows::Rows;
use crate::translating::{translate, translation};
use q_aig::Certificate;
use q_logic::{Clauses, Formula, Lit, NoMemory};
use q_pages::ByNumber;
use std::alloc::Global;

// Puts what stands for each clause; `made` is lent for its memory.
fn put_clauses(
    rows: &mut Rows,
    circuit_lits: &ByNumber<Option<Lit>>,
    formula: &Formula,
    made: &mut Vec<Lit>,
) -> Result<(), NoMemory>
    ensures { OnOk result ((top : ℕ) → (c : CertificateView) → IsTranslation top c circuit_lits.now →
        rows.new ≡ rows.old ++ in_order (translated_matrix top c formula.now.matrix)) }
{
    for at in 0..formula.clauses() {
        translate(circuit_lits, formula.clause(at), made)?;
        rows.put(made)?;
    }
    Ok(())
}

/// The clauses that are false exactly where lawful circuits are Herbrand functions.
pub fn herbrand_clauses(
    alloc: Global,
    formula: &Formula,
    circuits: &Certificate,
    top: u32,
) -> Result<Clauses, NoMemory>
    requires names { AreNames circuits.now.inputs }
    requires top { top ≡ top_of formula.now circuits.now }
    requires room { top + length circuits.now.gates + 2 < 2 ^ 31 }
    ensures { IfOk result (λ made. made ≡ herbrand_miter formula.now circuits.now) }
{
    let circuit_lits = translation(alloc, circuits, top)?;
    let mut rows = Rows::new(alloc);
    put_definitions(&mut rows, circuits.aig(), top)?;
    let mut made = Vec::new(alloc);
    put_clauses(&mut rows, &circuit_lits, formula, &mut made)?;
    Ok(rows.finish())
}
