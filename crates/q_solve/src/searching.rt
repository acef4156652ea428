//! The search. Its path stands in a row, the value 0 is tried first, and no recursion is used.
ghost use Rattle.std.specs.Prelude.{IfOk};
ghost use Rattle.q_solve.specs.Found.{IsFound};

use crate::circuits::Circuits;
use crate::climbing::{climb_lost, climb_won};
use crate::node::Node;
use crate::writing::certificate;
use q_aig::Certificate;
use q_logic::{Formula, NoMemory, Verdict, won_is_true};
use q_search::pay;
use std::alloc::Global;

/// Whether a formula is true, and circuits of a true one.
#[derive(Drop)]
pub enum Found {
    Yes(Certificate),
    No,
    Unknown,
}

/// Whether the formula is true, within a budget of decisions.
pub fn search(alloc: Global, formula: &Formula, budget: Option<u64>) -> Result<Found, NoMemory>
    ensures { IfOk result (λ found. IsFound formula.now budget found) }
{
    won_is_true();
    let mut node = Node::start(alloc, formula)?;
    let mut circuits = Circuits::start(alloc, formula.prefix())?;
    let mut left = budget;
    loop {
        match node.look() {
            Verdict::Open => {
                if !pay(&mut left) {
                    return Ok(Found::Unknown);
                }
                node.give(false)?;
            }
            Verdict::Won => {
                circuits.begin();
                if !climb_won(&mut node, &mut circuits)? {
                    let made = certificate(circuits, formula.prefix())?;
                    return Ok(Found::Yes(made));
                }
            }
            Verdict::Lost => {
                if !climb_lost(&mut node, &mut circuits)? {
                    return Ok(Found::No);
                }
            }
        }
    }
}
