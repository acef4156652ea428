//! Climbs from a node that is won or lost to the next node that has to be looked at.
ghost use Rattle.std.specs.Prelude.{◌≡◌, true, false, IfOk, OnOk};
ghost use Rattle.q_search.specs.Walks.{moved, IsTurned};
ghost use Rattle.q_solve.specs.Places.{walk_of};
ghost use Rattle.q_solve.specs.Waiting.{IsWonAt, IsLostAt, IsWonOr, IsLostOr};

use crate::circuits::Circuits;
use crate::node::Node;
use q_logic::NoMemory;

/// Climbs from a node that is won; whether a node is left to look at.
pub fn climb_won(node: &mut Node, circuits: &mut Circuits) -> Result<bool, NoMemory>
    requires { IsWonAt circuits.old (walk_of node.old) }
    ensures turned { IfOk result (λ more. IsTurned (walk_of node.old) (walk_of node.new) true
        more) }
    ensures circuits { IfOk result (λ more. IsWonOr circuits.new (walk_of node.new) more) }
    ensures same { OnOk result (walk_of node.new ≡ moved (walk_of node.old) node.new.path) }
{
    while let Some(last) = node.take_back() {
        if circuits.pass(last)? {
            node.give(true)?;
            return Ok(true);
        }
    }
    Ok(false)
}

/// Climbs from a node that is lost; whether a node is left to look at.
pub fn climb_lost(node: &mut Node, circuits: &mut Circuits) -> Result<bool, NoMemory>
    requires { IsLostAt circuits.old (walk_of node.old) }
    ensures turned { IfOk result (λ more. IsTurned (walk_of node.old) (walk_of node.new) false
        more) }
    ensures circuits { IfOk result (λ more. IsLostOr circuits.new (walk_of node.new) more) }
{
    while let Some(last) = node.take_back() {
        if circuits.drop_side(last) {
            node.give(true)?;
            return Ok(true);
        }
    }
    Ok(false)
}
