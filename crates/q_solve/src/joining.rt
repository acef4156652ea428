//! The circuits of two sides of a universal, joined: the second where it is true, the first where it is false.
//! Both rows are walked once, from their innermost variables outwards.
ghost use Rattle.std.specs.Prelude.{◌≡◌, IfOk, suc};
ghost use Rattle.q_aig.specs.Prelude.{IsLiteral};
ghost use Rattle.q_solve.specs.Picks.{IsRow};
ghost use Rattle.q_solve.specs.Joins.{IsChosen, IsJoined, AreIn};

use crate::picks::{Pick, Picks, take, top};
use q_aig::{Aig, negate};
use q_certificate::or;
use q_logic::NoMemory;

// The second literal where u is true, and the first where it is false.
fn choose(aig: &mut Aig, u: u64, second: u64, first: u64) -> Result<u64, NoMemory>
    requires u { IsLiteral aig.old u }
    requires second { IsLiteral aig.old second }
    requires first { IsLiteral aig.old first }
    ensures { IfOk result (IsChosen aig.old aig.new u second first) }
{
    if second == first {
        return Ok(second);
    }
    let with = aig.and(u, second)?;
    let without = aig.and(negate(u), first)?;
    let lit = or(aig, with, without)?;
    Ok(lit)
}

/// Joins the circuits of both sides of a universal, of which depth and literal are told.
pub fn join(
    aig: &mut Aig,
    universal: Pick,
    second: &[Pick],
    first: &[Pick],
) -> Result<Picks, NoMemory>
    requires universal { IsLiteral aig.old universal.lit }
    requires second { IsRow (suc universal.depth) second.now }
    requires first { IsRow (suc universal.depth) first.now }
    requires second_in { AreIn aig.old second.now }
    requires first_in { AreIn aig.old first.now }
    ensures { IfOk result (IsJoined aig.old aig.new universal.lit (suc universal.depth) second.now
        first.now) }
{
    let mut joined = Picks::new(aig.allocator());
    let mut second_at = 0;
    let mut first_at = 0;
    let mut end = top(second, 0).max(top(first, 0));
    while end > 0 {
        let with = take(second, second_at, end);
        let without = take(first, first_at, end);
        let lit = choose(aig, universal.lit, with.lit, without.lit)?;
        joined.push(Pick { depth: end, lit })?;
        second_at = with.next;
        first_at = without.next;
        end = top(second, second_at).max(top(first, first_at));
    }
    Ok(joined)
}
