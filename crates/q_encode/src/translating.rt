//! The literal that stands for each variable of the formula: its circuit's operand, or its own.
ghost use Rattle.std.specs.Prelude.{◌≡◌, ◌<◌, ◌+◌, ◌^◌, ℕ, None, length, IfOk, OnOk};
ghost use Rattle.q_logic.specs.Prelude.{CertificateView};
ghost use Rattle.q_aig.specs.Prelude.{AreOutputs};
ghost use Rattle.q_pages.specs.ByNumber.{value_at};
ghost use Rattle.q_miter.specs.Miters.{translated, translated_clause};
ghost use Rattle.q_encode.specs.Translations.{AreNames, IsTranslation, StandFor};

use crate::numbers::operand_lit;
use q_aig::{Aig, Certificate, Output};
use q_logic::{Lit, NoMemory};
use q_pages::ByNumber;
use std::alloc::Global;

// Where a variable has several circuits, the first counts, and so it is placed last.
fn place_outputs(
    circuit_lits: &mut ByNumber<Option<Lit>>,
    aig: &Aig,
    outputs: &[Output],
    top: u32,
) -> Result<(), NoMemory>
    requires names { AreNames aig.now.inputs }
    requires room { top + length aig.now.gates + 2 < 2 ^ 31 }
    requires outputs { AreOutputs aig.now outputs.now }
    requires none { (v : ℕ) → value_at circuit_lits.old v ≡ None }
    ensures { OnOk result (StandFor top aig.now.inputs outputs.now circuit_lits.new) }
{
    let mut at = outputs.len();
    while at > 0 {
        at -= 1;
        let output = outputs[at];
        let lit = operand_lit(aig, top, output.lit);
        circuit_lits.put(output.var as usize, Some(lit))?;
    }
    Ok(())
}

/// The literals of the variables that have circuits.
pub fn translation(
    alloc: Global,
    circuits: &Certificate,
    top: u32,
) -> Result<ByNumber<Option<Lit>>, NoMemory>
    requires names { AreNames circuits.now.inputs }
    requires room { top + length circuits.now.gates + 2 < 2 ^ 31 }
    ensures { IfOk result (λ lits. IsTranslation top circuits.now lits) }
{
    let mut circuit_lits = ByNumber::new(alloc, None);
    place_outputs(&mut circuit_lits, circuits.aig(), circuits.outputs(), top)?;
    Ok(circuit_lits)
}

/// What stands for a literal.
pub fn translated_lit(circuit_lits: &ByNumber<Option<Lit>>, lit: Lit) -> Lit
    ensures { (top : ℕ) → (c : CertificateView) → IsTranslation top c circuit_lits.now → result
        ≡ translated top c lit }
{
    match circuit_lits.get(lit.var() as usize) {
        None => lit,
        Some(plain) => {
            if lit.negative() {
                plain.negated()
            } else {
                plain
            }
        }
    }
}

/// What stands for each literal of a clause.
pub fn translate(
    circuit_lits: &ByNumber<Option<Lit>>,
    clause: &[Lit],
    made: &mut Vec<Lit>,
) -> Result<(), NoMemory>
    ensures { OnOk result ((top : ℕ) → (c : CertificateView) → IsTranslation top c circuit_lits.now →
        made.new.items ≡ translated_clause top c clause.now) }
{
    made.clear();
    for lit in clause {
        made.push(translated_lit(circuit_lits, *lit))?;
    }
    Ok(())
}
