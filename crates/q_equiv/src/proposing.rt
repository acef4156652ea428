//! All merges that are worth a try, in one pass: for each component of the implications pairs of a literal that stays and
//! one that goes. They are meant for a guide, which proposes them one by one; each is tested when it is taken.
//!
//! The order: the existential literals of a component's innermost block are parted by a merge of the first literals of
//! their two halves, then each half in turn. On a ring of implications each merge makes two rings of one, so the ways that
//! a test walks halve as well, and a ring of n literals costs about n log n. Then the outermost literal stays, and the one
//! that is left of that block goes, and all others.
ghost use Rattle.std.specs.Prelude.{All, OnOk};
ghost use Rattle.q_equiv.specs.Targets.{MayStand};

use crate::levels::note_all;
use crate::merge::can_stand_for;
use crate::search::Search;
use crate::target::Target;
use q_kernel::Kernel;
use q_logic::{Lit, NoMemory};
use q_rule::is_existential;
use std::alloc::Global;

/// The literals of a component, and the pieces of it that are still to be halved.
#[derive(Drop)]
pub struct Halves {
    lits: Vec<Lit>,
    pieces: Vec<(usize, usize)>,
}

impl Halves {
    pub(crate) fn new(alloc: Global) -> Halves {
        Halves {
            lits: Vec::new(alloc),
            pieces: Vec::new(alloc),
        }
    }
}

/// Gathers merges that probably apply, and go on to apply while they are taken in their order. In each of them keep may
/// stand for gone; whether the two are joined is not promised.
pub fn candidates(
    kernel: &Kernel,
    search: &mut Search,
    targets: &mut Vec<Target>,
) -> Result<(), NoMemory>
    ensures { OnOk result (All (MayStand kernel.now.prefix) targets.new.items) }
{
    targets.clear();
    let walks = &mut search.walks;
    note_all(kernel, &mut walks.components)?;
    walks.components.find()?;
    for number in 0..walks.components.count() {
        let part = walks.components.part(number);
        pair_up(kernel, part, &mut search.halves, targets)?;
    }
    Ok(())
}

// Pairs of the literals of a component. The component of their negations has the same pairs: one of the two is enough.
fn pair_up(
    kernel: &Kernel,
    part: &[Lit],
    halves: &mut Halves,
    targets: &mut Vec<Target>,
) -> Result<(), NoMemory>
    requires { All (MayStand kernel.now.prefix) targets.old.items }
    ensures { OnOk result (All (MayStand kernel.now.prefix) targets.new.items) }
{
    if part.len() < 2 || is_mirrored(part) {
        return Ok(());
    }
    let inner = innermost(kernel, part, part[0]);
    gather_beside(kernel, part, inner, &mut halves.lits)?;
    halve(kernel, halves, targets)?;
    pair_with(kernel, outermost(kernel, part, inner), part, inner, targets)
}

// Pairs of one literal with the others of a component, but of a block only with one of it.
fn pair_with(
    kernel: &Kernel,
    keep: Lit,
    part: &[Lit],
    inner: Lit,
    targets: &mut Vec<Target>,
) -> Result<(), NoMemory>
    requires { All (MayStand kernel.now.prefix) targets.old.items }
    ensures { OnOk result (All (MayStand kernel.now.prefix) targets.new.items) }
{
    for gone in part {
        if gone.is(inner) || !lies_beside(kernel, *gone, inner) {
            add(kernel, keep, *gone, targets)?;
        }
    }
    Ok(())
}

// Whether the literal of the least variable is negative.
fn is_mirrored(part: &[Lit]) -> bool {
    part.iter().min().is_some_and(|lit| lit.negative())
}

// A literal whose variable is not inner to that of any other.
fn outermost(kernel: &Kernel, part: &[Lit], first: Lit) -> Lit {
    let mut best = first;
    for lit in part {
        if !lies_outside(kernel, best, *lit) {
            best = *lit;
        }
    }
    best
}

fn lies_outside(kernel: &Kernel, a: Lit, b: Lit) -> bool {
    let prefix = kernel.prefix();
    prefix.contains(a.var()) && prefix.contains(b.var()) && prefix.outer_or_same(a.var(), b.var())
}

// The first existential literal whose variable is not outer to that of any other one; the given one where there is none.
fn innermost(kernel: &Kernel, part: &[Lit], first: Lit) -> Lit {
    let mut best = first;
    for lit in part {
        if is_existential(kernel, lit.var()) && !lies_outside(kernel, *lit, best) {
            best = *lit;
        }
    }
    best
}

// Whether two variables are of one block.
fn lies_beside(kernel: &Kernel, a: Lit, b: Lit) -> bool {
    lies_outside(kernel, a, b) && lies_outside(kernel, b, a)
}

// The literals of a component that are of the block of one, in their order.
fn gather_beside(
    kernel: &Kernel,
    part: &[Lit],
    inner: Lit,
    lits: &mut Vec<Lit>,
) -> Result<(), NoMemory> {
    lits.clear();
    for lit in part {
        if lies_beside(kernel, *lit, inner) {
            lits.push(*lit)?;
        }
    }
    Ok(())
}

// Pairs by halves.
fn halve(kernel: &Kernel, halves: &mut Halves, targets: &mut Vec<Target>) -> Result<(), NoMemory>
    requires { All (MayStand kernel.now.prefix) targets.old.items }
    ensures { OnOk result (All (MayStand kernel.now.prefix) targets.new.items) }
{
    halves.pieces.clear();
    halves.pieces.push((0, halves.lits.len()))?;
    for _ in 0..usize::MAX {
        let Some((start, end)) = halves.pieces.pop() else {
            break;
        };
        part_piece(kernel, halves, start, end, targets)?;
    }
    Ok(())
}

// The first literal of the lower half stays, that of the upper half goes; from then on the one stands for the other.
fn part_piece(
    kernel: &Kernel,
    halves: &mut Halves,
    start: usize,
    end: usize,
    targets: &mut Vec<Target>,
) -> Result<(), NoMemory>
    requires { All (MayStand kernel.now.prefix) targets.old.items }
    ensures { OnOk result (All (MayStand kernel.now.prefix) targets.new.items) }
{
    let middle = start.saturating_add(end.saturating_sub(start) / 2);
    if middle <= start || middle >= halves.lits.len() {
        return Ok(());
    }
    let keep = halves.lits[start];
    add(kernel, keep, halves.lits[middle], targets)?;
    halves.lits[middle] = keep;
    halves.pieces.push((middle, end))?;
    halves.pieces.push((start, middle))?;
    Ok(())
}

// One more target, where keep may stand for gone.
fn add(kernel: &Kernel, keep: Lit, gone: Lit, targets: &mut Vec<Target>) -> Result<(), NoMemory>
    requires { All (MayStand kernel.now.prefix) targets.old.items }
    ensures { OnOk result (All (MayStand kernel.now.prefix) targets.new.items) }
{
    if can_stand_for(kernel, keep, gone) {
        targets.push(Target::Merge { keep, gone })?;
    }
    Ok(())
}
