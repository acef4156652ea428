//! The circuits of the root as a certificate: the universals are its inputs, the existentials its outputs.
ghost use Rattle.std.specs.Prelude.{◌≡◌, ◌==◌, ◌&&◌, if◌then◌else◌, ◌<◌, ℕ, suc, length, Some, IfOk, OnOk};
ghost use Rattle.q_logic.specs.Prelude.{Distinct, is_exists};
ghost use Rattle.q_certificate.specs.Prelude.{look_at};
ghost use Rattle.q_solve.specs.Joins.{AreIn};
ghost use Rattle.q_solve.specs.Picks.{AreBelow, IsRow};
ghost use Rattle.q_solve.specs.Written.{AreEntries, IsWritten};

use crate::circuits::Circuits;
use crate::picks::{Pick, take};
use q_aig::Certificate;
use q_certificate::{Table, name_outputs, put};
use q_logic::{Bound, NoMemory, Quant};
use std::alloc::Global;

// Enters an existential.
fn enter(table: &mut Table, bound: Bound, lit: u64) -> Result<(), NoMemory>
    ensures { OnOk result ((x : ℕ) → look_at table.new.items x
        ≡ (if is_exists bound.quant && (x == bound.var) then Some lit
        else look_at table.old.items x)) }
{
    match bound.quant {
        Quant::Forall => Ok(()),
        Quant::Exists => {
            put(table, bound.var, Some(lit))?;
            Ok(())
        }
    }
}

// The literal of each existential, by its variable.
fn tabulate(alloc: Global, prefix: &[Bound], row: &[Pick]) -> Result<Table, NoMemory>
    requires distinct { Distinct prefix.now }
    requires row { IsRow 0 row.now }
    requires within { AreBelow (suc (length prefix.now)) row.now }
    ensures { IfOk result (λ table. AreEntries prefix.now 0 row.now table.items) }
{
    let mut table = Table::new(alloc);
    let mut at = 0;
    let mut depth = prefix.len();
    while depth > 0 {
        let taken = take(row, at, depth);
        at = taken.next;
        depth -= 1;
        enter(&mut table, prefix[depth], taken.lit)?;
    }
    Ok(table)
}

/// The certificate of the circuits at the root.
pub fn certificate(circuits: Circuits, prefix: &[Bound]) -> Result<Certificate, NoMemory>
    requires distinct { Distinct prefix.now }
    requires literals { AreIn circuits.aig circuits.current }
    requires row { IsRow 0 circuits.current }
    requires within { AreBelow (suc (length prefix.now)) circuits.current }
    ensures { IfOk result (IsWritten circuits.aig prefix.now circuits.current) }
{
    let alloc = *circuits.aside.allocator();
    let table = tabulate(alloc, prefix, circuits.current.as_slice())?;
    let made = name_outputs(circuits.aig, prefix, &table)?;
    Ok(made)
}
