// The targets of the rules, as rows write them, and how one is found or tried. All else of a target is told by `q_sched`.
ghost use Rattle.q_kernel.specs.Prelude.{IsReady};

use crate::trouble::Trouble;
use q_blocked::Target as Block;
use q_eliminate::Target as Eliminate;
use q_equiv::Target as Merge;
use q_expand::Target as Expand;
use q_kernel::{Kernel, Taken};
use q_logic::{Bounds, Lit, NoMemory};
use q_reduce::Target as Reduce;
use q_sched::{Group, Move, Searches};
use q_subsume::Target as Subsume;
use std::alloc::Global;

/// A target of one of the rules.
#[derive(Clone, Copy)]
pub struct RowTarget {
    pub target: Move,
}

/// Tries a target, by searches of its own. They stand here alone, so that they are let go by one call.
pub(crate) fn try_one(
    alloc: Global,
    kernel: &mut Kernel,
    target: &Move,
    bounds: &Bounds,
) -> Result<Taken, NoMemory>
    requires ready { IsReady kernel.old }
{
    let mut searches = Searches::new(alloc);
    searches.take(kernel, target, bounds)
}

// The same for a search.
fn search(
    alloc: Global,
    group: Group,
    kernel: &Kernel,
    bounds: &Bounds,
    from: u32,
) -> Result<Option<Move>, NoMemory>
    requires ready { IsReady kernel.now }
{
    let mut searches = Searches::new(alloc);
    searches.find(kernel, group, bounds, from)
}

/// What a group of rules finds from a place on.
pub(crate) fn find(
    alloc: Global,
    group: Group,
    kernel: &Kernel,
    bounds: &Bounds,
    from: u32,
) -> Result<Option<RowTarget>, Trouble>
    requires ready { IsReady kernel.now }
{
    match search(alloc, group, kernel, bounds, from) {
        Ok(Some(target)) => Ok(Some(RowTarget { target })),
        Ok(None) => Ok(None),
        Err(_) => Err(Trouble::NoMemory),
    }
}

/// The group of rules that a row names.
pub(crate) fn group_of(name: &str) -> Result<Group, Trouble> {
    match name {
        "reduce" => Ok(Group::Reduce),
        "subsume" => Ok(Group::Subsume),
        "equiv" => Ok(Group::Merge),
        "blocked" => Ok(Group::Block),
        "eliminate" => Ok(Group::Eliminate),
        "expand" => Ok(Group::Expand),
        _ => Err(Trouble::Unreadable("a crate of rules")),
    }
}

/// The target that a row writes: its kind, then ids of clauses, literals or variables, in the order of its fields.
pub(crate) fn row_target_of(text: &str) -> Result<RowTarget, Trouble> {
    let (kind, rest) = text.split_once(' ').unwrap_or((text, ""));
    let numbers = numbers_of(rest)?;
    if let Some(target) = reduce_of(kind, numbers)? {
        return Ok(RowTarget {
            target: Move::Reduce(target),
        });
    }
    let target = pair_of(kind, numbers)?;
    Ok(RowTarget { target })
}

// A target of one of the other rules.
fn pair_of(kind: &str, numbers: [i64; 3]) -> Result<Move, Trouble> {
    let [first, second, third] = numbers;
    let target = match kind {
        "subsumed" => Move::Subsume(Subsume::Subsumed {
            c: id(first),
            d: id(second),
        }),
        "strengthen" => Move::Subsume(Subsume::Strengthen {
            c: id(first),
            d: id(second),
            l: lit(third)?,
        }),
        "merge" => Move::Merge(Merge::Merge {
            keep: lit(first)?,
            gone: lit(second)?,
        }),
        "eliminate" => Move::Eliminate(Eliminate::Eliminate { x: id(first) }),
        "expand" => Move::Expand(Expand::Expand { u: id(first) }),
        _ => return block_of(kind, first, second),
    };
    Ok(target)
}

fn block_of(kind: &str, first: i64, second: i64) -> Result<Move, Trouble> {
    let target = match kind {
        "blocked" => Block::Blocked {
            c: id(first),
            l: lit(second)?,
        },
        "blocked-forall" => Block::BlockedForall {
            c: id(first),
            l: lit(second)?,
        },
        "cover" => Block::Cover { c: id(first) },
        _ => return Err(Trouble::Unreadable("a target")),
    };
    Ok(Move::Block(target))
}

fn reduce_of(kind: &str, numbers: [i64; 3]) -> Result<Option<Reduce>, Trouble> {
    let [first, second, _] = numbers;
    let target = match kind {
        "tautology" => Reduce::Tautology { c: id(first) },
        "unit" => Reduce::Unit { c: id(first) },
        "cut" => Reduce::Cut {
            c: id(first),
            l: lit(second)?,
        },
        "pure" => Reduce::Pure { l: lit(first)? },
        _ => return Ok(None),
    };
    Ok(Some(target))
}

// At most three numbers; those that are not written are 0.
fn numbers_of(text: &str) -> Result<[i64; 3], Trouble> {
    let mut numbers = [0; 3];
    for (number, word) in numbers.iter_mut().zip(text.split(' ')) {
        match word.parse::<i64>() {
            Ok(given) => *number = given,
            Err(_) => return Err(Trouble::Unreadable("a number of a target")),
        }
    }
    Ok(numbers)
}

// An id or a variable, whatever it is.
fn id(number: i64) -> u32 {
    u32::try_from(number.unsigned_abs()).unwrap_or(u32::MAX)
}

/// The literal of a number.
pub(crate) fn lit(number: i64) -> Result<Lit, Trouble> {
    match u32::try_from(number.unsigned_abs()) {
        Ok(var) if 1 <= var && var <= 2_147_483_647 => Ok(Lit::new(var, number < 0)),
        _ => Err(Trouble::Unreadable("a literal")),
    }
}
