//! Equivalent literals: keep takes the place of gone.
//!
//! The idea: where clauses of two literals lead from keep to gone and from gone back to keep, the two are equal in each
//! assignment that satisfies the formula. If gone is existential and keep is not inner to it, keep, or its negation, can
//! take the place of gone, or of its negation, in all clauses. What becomes a tautology goes.
//!
//! Source: Brafman, on formulas with many clauses of two literals (IJCAI 2001); for quantified formulas Samulowitz and
//! Bacchus (SAT 2006). The exact condition is this project's own.
//!
//! Condition and change: `Mergeable` and `merged` in `q_logic/specs/Merging.antt`. Law: `merge-run` in
//! `q_logic/proofs/MergeRun.antt`; that the measure falls: `q_logic/proofs/MeasureFalls.antt`. The formula never grows, so the
//! limits hold after it (`merge-applies` in `proofs/Bridging.antt`).
//!
//! Steps: the two clauses that join keep and gone come, both implied by the ways; each other clause with the variable is
//! replaced by the renamed one, implied over the two; then the two go, the one that holds gone by that pivot, since it
//! clashes with the other one on keep, and the other one by the pivot not gone, which then is pure.
//!
//! Found: `find.rt`. Cost: the test is two walks from gone, which stop where they meet their aim; the change is the literals
//! of the clauses with the variable. What it touches: the renamed clauses, and so their literals of keep's variable. It may
//! make applicable: unit clauses (where both literals stood in a clause of two), pure literals, subsumption.
ghost use Rattle.std.specs.Prelude.{◌≡◌, ◌↔◌, ◌≤◌, ◌+◌, length, IfOk, IsTrue, vec_capacity};
ghost use Rattle.q_logic.specs.Prelude.{standard, IsInLimits, live, Mergeable, merge};
ghost use Rattle.q_kernel.specs.Prelude.{slots, formula_in};
ghost use Rattle.q_rule.specs.Becoming.{HasResult, IsChanged};
ghost use Rattle.q_equiv.specs.Changing.{CanStandFor, total_with, HasRoomFor, IsBuilt, IsBridged, IsRenamed, HasRenamingRoom, MayReplace, IsReplaced};

use crate::bridge::{Bridge, next_clause, two_lits};
use crate::joined::is_joined;
use crate::renaming::rename;
use q_kernel::{ClauseId, Kernel};
use q_logic::{Lit, NoMemory};
use q_rule::{Queue, is_existential, is_tautology};

/// Whether each literal is joined to the other, and keep may take the place of gone. Both walks begin at gone: clauses of
/// all that keep has taken the place of hang at keep, so a walk from there would go many ways.
pub fn fits(kernel: &Kernel, queue: &mut Queue, keep: Lit, gone: Lit) -> Result<bool, NoMemory>
    ensures { IfOk result (λ yes.
        IsTrue yes ↔ Mergeable kernel.now.prefix (live (slots kernel.now)) keep gone) }
{
    if !can_stand_for(kernel, keep, gone) || !is_joined(kernel, queue, gone, keep)? {
        return Ok(false);
    }
    is_joined(kernel, queue, gone.negated(), keep.negated())
}

/// Whether the literals have different variables, of which that of gone is existential and that of keep is not inner to it.
pub fn can_stand_for(kernel: &Kernel, keep: Lit, gone: Lit) -> bool
    ensures { IsTrue result ↔ CanStandFor kernel.now.prefix keep gone }
{
    if keep.var() == gone.var() || !is_existential(kernel, gone.var()) {
        return false;
    }
    if !kernel.prefix().contains(keep.var()) {
        return false;
    }
    kernel.prefix().outer_or_same(keep.var(), gone.var())
}

/// Puts keep in the place of gone in all clauses, and sweeps.
pub fn take(kernel: &mut Kernel, buffer: &mut Vec<Lit>, keep: Lit, gone: Lit)
    requires fits { Mergeable kernel.old.prefix (live (slots kernel.old)) keep gone }
    requires limits { IsInLimits standard (formula_in kernel.old) }
    requires room { HasRoomFor kernel.old gone.var }
    requires buffer { total_with length gone.var (live (slots kernel.old)) + 8
        ≤ vec_capacity buffer.old }
    ensures { HasResult kernel.old kernel.new (merge keep gone) }
{
    put_in_place(kernel, buffer, keep, gone);
    kernel.sweep_now();
}

fn put_in_place(kernel: &mut Kernel, buffer: &mut Vec<Lit>, keep: Lit, gone: Lit)
    requires fits { Mergeable kernel.old.prefix (live (slots kernel.old)) keep gone }
    requires limits { IsInLimits standard (formula_in kernel.old) }
    requires room { HasRoomFor kernel.old gone.var }
    requires buffer { total_with length gone.var (live (slots kernel.old)) + 8
        ≤ vec_capacity buffer.old }
    ensures { IsChanged kernel.old kernel.new (merge keep gone) }
{
    let bridge = build(kernel, keep, gone);
    rename_all(kernel, buffer, keep, gone, bridge);
    kernel.sound();
    kernel.delete_pivot(bridge.over, gone);
    kernel.sound();
    kernel.delete_pivot(bridge.back, gone.negated());
}

// Adds the two clauses that join keep and gone.
fn build(kernel: &mut Kernel, keep: Lit, gone: Lit) -> Bridge
    requires fits { Mergeable kernel.old.prefix (live (slots kernel.old)) keep gone }
    requires limits { IsInLimits standard (formula_in kernel.old) }
    requires room { HasRoomFor kernel.old gone.var }
    ensures { IsBuilt keep gone kernel.old kernel.new result }
{
    kernel.sound();
    let over = kernel.add_implied(&two_lits(keep.negated(), gone));
    kernel.sound();
    let back = kernel.add_implied(&two_lits(keep, gone.negated()));
    Bridge { over, back }
}

// Puts keep in the place of gone in all clauses but the two of the bridge.
fn rename_all(kernel: &mut Kernel, buffer: &mut Vec<Lit>, keep: Lit, gone: Lit, bridge: Bridge)
    requires stands { CanStandFor kernel.old.prefix keep gone }
    requires bridge { IsBridged keep gone kernel.old bridge }
    requires room { HasRenamingRoom kernel.old gone.var }
    requires buffer { total_with length gone.var (live (slots kernel.old))
        ≤ vec_capacity buffer.old }
    ensures { IsRenamed keep gone kernel.old kernel.new bridge }
{
    while let Some(id) = next_clause(kernel, gone, bridge) {
        kernel.sound();
        rename(buffer, kernel.lits(id), keep, gone);
        replace(kernel, id, buffer);
    }
}

// Puts another clause in the place of one, or nothing where the other one is a tautology.
fn replace(kernel: &mut Kernel, id: ClauseId, clause: &[Lit])
    requires { MayReplace kernel.old id clause.now }
    ensures { IsReplaced kernel.old kernel.new id clause.now }
{
    kernel.sound();
    if is_tautology(clause) {
        kernel.delete_implied(id);
        return;
    }
    kernel.add_implied(clause);
    kernel.delete_implied(id);
}
