//! The circuit of a variable: its drops from the last to the first, each over what was built of those behind it.
ghost use Rattle.std.specs.Prelude.{◌≡◌, ◌<◌, length, slice_get, IfOk};
ghost use Rattle.q_aig.specs.Prelude.{IsLiteral};
ghost use Rattle.q_certificate.specs.Prelude.{AreLiterals};
ghost use Rattle.q_extract.specs.Saying.{said_in};
ghost use Rattle.q_extract.specs.Merges.{AreNodes, merge_circuits, value_at};
ghost use Rattle.q_extract.specs.Rows.{guards_in, kept_in, drops_in, AreSound};
ghost use Rattle.q_extract.specs.Built.{AreHeld, IsGiving, IsMade, IsDecided};

use crate::drops::{Drops, Fall};
use crate::guards::guard_of;
use crate::merging::{choose, node};
use q_aig::{Aig, constant};
use q_certificate::{Tables, look, raise};
use q_logic::NoMemory;

// What is taken away where all that is kept is so, and else what was built of the drops behind.
fn give(
    aig: &mut Aig,
    drops: &Drops,
    nodes: &[u64],
    fall: Fall,
    every: u64,
    behind: u64,
) -> Result<u64, NoMemory>
    requires drops { AreSound drops.now }
    requires nodes { AreNodes aig.old (merge_circuits drops.now.merges.items) nodes.now }
    requires every { IsLiteral aig.old every }
    requires behind { IsLiteral aig.old behind }
    ensures { IfOk result (IsGiving aig.old aig.new (value_at (merge_circuits drops.now.merges.items)
        (said_in drops.now.said fall.guard) fall.lit) every behind) }
{
    match drops.said.get(fall.guard, fall.lit.var()) {
        None => {
            let made = raise(aig, fall.lit.negative(), behind, every)?;
            Ok(made)
        }
        Some(merge) => {
            let made = choose(aig, every, node(nodes, merge), behind)?;
            Ok(made)
        }
    }
}

// A drop over what was built of those behind it.
fn make(
    aig: &mut Aig,
    tables: &Tables,
    drops: &Drops,
    nodes: &[u64],
    held: &mut Vec<Option<u64>>,
    fall: Fall,
    behind: u64,
) -> Result<u64, NoMemory>
    requires inputs { AreLiterals aig.old tables.now.inputs.items }
    requires circuits { AreLiterals aig.old tables.now.circuits.items }
    requires drops { AreSound drops.now }
    requires nodes { AreNodes aig.old (merge_circuits drops.now.merges.items) nodes.now }
    requires held { AreHeld aig.old (guards_in drops.now) held.old.items }
    requires guard { fall.guard < length drops.now.guards }
    requires behind { IsLiteral aig.old behind }
    ensures { IfOk result (IsMade aig.old aig.new tables.now.inputs.items tables.now.circuits.items
        (guards_in drops.now) held.old.items held.new.items
        (value_at (merge_circuits drops.now.merges.items) (said_in drops.now.said fall.guard) fall.lit)
        (kept_in (slice_get (guards_in drops.now) fall.guard)) behind) }
{
    let every = guard_of(aig, tables, drops, nodes, held, fall.guard)?;
    let made = give(aig, drops, nodes, fall, every, behind)?;
    Ok(made)
}

/// The circuit of a variable.
pub fn decide(
    aig: &mut Aig,
    tables: &Tables,
    drops: &Drops,
    nodes: &[u64],
    held: &mut Vec<Option<u64>>,
    var: u32,
) -> Result<u64, NoMemory>
    requires inputs { AreLiterals aig.old tables.now.inputs.items }
    requires circuits { AreLiterals aig.old tables.now.circuits.items }
    requires drops { AreSound drops.now }
    requires nodes { AreNodes aig.old (merge_circuits drops.now.merges.items) nodes.now }
    requires held { AreHeld aig.old (guards_in drops.now) held.old.items }
    ensures { IfOk result (IsDecided aig.old aig.new tables.now.inputs.items
        tables.now.circuits.items (guards_in drops.now) held.old.items held.new.items var
        (drops_in drops.now)) }
{
    let mut circuit = constant(false);
    let mut end = drops.row.len();
    let mut at = look(&drops.last, var);
    while let Some(place) = at {
        end = place as usize;
        let fall = drops.row[end];
        at = fall.before;
        circuit = make(aig, tables, drops, nodes, held, fall, circuit)?;
    }
    Ok(circuit)
}
