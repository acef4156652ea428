//! Hidden literals by two watched literals.
//!
//! **The idea.** A clause gives a hidden literal only where all of its literals but one are in the set. So while two of them are outside,
//! or one of them has its negation in the set, nothing is to be asked of it. Each clause watches two of its literals, and is looked at
//! where one of these comes to the set: then it watches another one that is outside, or the negation of the other watched one comes. This is
//! how solvers propagate (Moskewicz and others, "Chaff", 2001); the blocking literals are of Chu, Harwood and Stuckey (2009).
//!
//! **What is kept from clause to clause.** For the next test the set is empty again, and any two literals are right for that. So
//! nothing is undone, and what a clause watches stays away from literals that come often: a literal in very many clauses
//! is watched by few of them soon.
//!
//! **Cost.** Two literals of each clause once for a formula; then a visit or two for each literal of a set, in the place of its list.
ghost use Rattle.std.specs.Prelude.{◌≡◌, true, slice_get, take, Some, IfOk};
ghost use Rattle.q_kernel.specs.Prelude.{slots};
ghost use Rattle.q_watch.specs.Watches.{AreRightFor, AreWatchesOf, IsQuietUpTo};
ghost use Rattle.q_blocked.specs.Growths.{Growing};
ghost use Rattle.q_blocked.specs.Following.{IsFollowed, HasVisited, HasClosedFollowed, HasClosedQuiet};

use crate::growth::Growth;
use crate::hidden::{close_by_lists, give};
use q_kernel::{ClauseId, Kernel};
use q_logic::{Lit, NoMemory};
use q_watch::{Visit, Watches};

// Grows by the hidden literals that the clauses give which watch the next literal.
// Hot: this loop is most of what a covered clause costs.
fn spread_watched(
    kernel: &Kernel,
    growth: &mut Growth,
    watches: &mut Watches,
    c: ClauseId,
    k: Lit,
) -> Result<bool, NoMemory>
    requires growing { Growing kernel.now c growth.old }
    requires right { AreWatchesOf kernel.now watches.old }
    requires next { slice_get growth.old.set growth.old.worked ≡ Some k }
    requires quiet { IsQuietUpTo kernel.now watches.old c growth.old.set
        (take growth.old.worked growth.old.set) }
    ensures visited { IfOk result (HasVisited kernel.now c k growth.old watches.new growth.new) }
    ensures right { AreWatchesOf kernel.now watches.new }
    ensures ready { watches.new.ready ≡ watches.old.ready }
{
    let mut i = 0;
    while i < watches.count(k) {
        match watches.visit(kernel, &growth.set, c, k, i)? {
            Visit::Next => i += 1,
            Visit::Again => {}
            Visit::Gives(gift) => {
                if give(kernel, growth, c, gift.id, gift.lit)? {
                    return Ok(true);
                }
                i += 1;
            }
        }
    }
    Ok(false)
}

fn close_by_watches(
    kernel: &Kernel,
    growth: &mut Growth,
    watches: &mut Watches,
    c: ClauseId,
) -> Result<bool, NoMemory>
    requires growing { Growing kernel.now c growth.old }
    requires right { AreWatchesOf kernel.now watches.old }
    requires quiet { IsQuietUpTo kernel.now watches.old c growth.old.set
        (take growth.old.worked growth.old.set) }
    ensures closed { IfOk result (HasClosedQuiet kernel.now c watches.new growth.new) }
    ensures right { AreWatchesOf kernel.now watches.new }
    ensures ready { watches.new.ready ≡ watches.old.ready }
{
    while growth.worked < growth.set.len() {
        let k = growth.set.at(growth.worked);
        if spread_watched(kernel, growth, watches, c, k)? {
            return Ok(true);
        }
        growth.worked += 1;
    }
    Ok(false)
}

/// Grows by all hidden literals but those of clauses of one literal. Yes where the growth ends.
pub(crate) fn close(
    kernel: &Kernel,
    growth: &mut Growth,
    watches: &mut Watches,
    c: ClauseId,
) -> Result<bool, NoMemory>
    requires growing { Growing kernel.now c growth.old }
    requires right { AreRightFor kernel.now watches.old }
    requires followed { IsFollowed kernel.now watches.old c growth.old }
    ensures closed { IfOk result (HasClosedFollowed kernel.now c watches.new growth.new) }
    ensures right { AreRightFor kernel.now watches.new }
{
    if watches.are_ready() {
        return close_by_watches(kernel, growth, watches, c);
    }
    close_by_lists(kernel, growth, watches, c)
}
