//! The expansion of a universal variable: whether it applies, and its steps.
//!
//! Where u is true, the existential variables inner to u may take other values than where it is false. So the clauses that
//! are connected to u by such variables are needed twice: once over the originals, for one value of u, and once over
//! fresh copies, for the other; then u can leave all of them. Clauses that no inner existential connects to u stay as they are.
//!
//! Expansion of universal variables is due to A. Biere, "Resolve and Expand", SAT 2004; it is used as preprocessing by
//! U. Bubeck and H. Kleine Büning, "Bounded Universal Expansion for Preprocessing QBF", SAT 2007. The exact conditions
//! are this project's own.
//!
//! The condition is `Expandable` in q_logic/specs/Expanding.antt, with the limits in `Applicable`, and the change is
//! `expanded` over the prefix of `insert_all`. That its steps are valid is the law `targets_run` of q_logic, and that the
//! measure falls is `targets_lower`.
//!
//! A walk along the lists of literals gathers the dependents of u, breadth first: clauses, and the variables that connect
//! them. It stops as soon as there are more variables, or more literals, than the bound allows, so a variable that can't
//! be expanded costs no more than the bound and the clauses of u. What is left are three comparisons with the limits.
//!
//! An expansion takes u away and shortens its clauses, so clauses may become unit, and outer universals reducible.
ghost use Rattle.std.specs.Prelude.{◌≡◌, ◌≤◌, ◌+◌, ℕ, length, false, Some, vec_capacity, ◌↔◌, true, IfOk, IsTrue};
ghost use Rattle.q_logic.specs.declared.rule_bounds.Bounds.{Bounds as BoundsValue};
ghost use Rattle.q_logic.specs.Prelude.{Clause, standard, IsInLimits, slot, live, clauses_at, expansion_vars, expand_universal, is_universal, clauses_of, change};
ghost use Rattle.q_kernel.specs.Lists.{Has, AreApart};
ghost use Rattle.q_kernel.specs.Prelude.{slots, formula_in, Applies};
ghost use Rattle.q_rule.specs.Becoming.{HasResult};
ghost use Rattle.q_expand.specs.Dependents.{IsWhole};
ghost use Rattle.q_expand.specs.Rooms.{weight_of, HasRoom};
ghost use Rattle.q_expand.specs.Steps.{course, HaveCopies};
ghost use Rattle.q_expand.specs.Tracks.{CanTake, HasTaken};

use crate::changing::{link_all, put_copies, unlink_all};
use crate::dependents::{Dependents, Room};
use crate::dropping::drop_all;
use crate::splitting::split_all;
use q_kernel::Kernel;
use q_logic::{Bounds, Limits, Lit, NoMemory};
use q_rule::is_universal;

/// Whether a variable may be expanded; then the dependents are those of the variable.
pub(crate) fn fits(
    kernel: &Kernel,
    dependents: &mut Dependents,
    u: u32,
    bounds: &Bounds,
) -> Result<bool, NoMemory>
    ensures applies { IfOk result (λ yes.
        IsTrue yes ↔ Applies bounds.now kernel.now (expand_universal u)) }
    ensures whole { IfOk result (λ yes. yes ≡ true → IsWhole kernel.now u dependents.new) }
{
    if !is_universal(kernel, u) {
        return Ok(false);
    }
    kernel.sound();
    let lit = Lit::new(u, false);
    let own = clauses_with(kernel, lit);
    if own == 0 {
        return Ok(false);
    }
    let expand = bounds.expand as usize;
    let room = Room {
        vars: expand,
        size: expand + own,
    };
    if !dependents.grow(kernel, lit, room)? {
        return Ok(false);
    }
    Ok(keeps_limits(kernel, dependents, lit, own))
}

// The number of clauses with u or its negation.
fn clauses_with(kernel: &Kernel, u: Lit) -> usize
    requires { u.negative ≡ false }
    ensures number { result ≡ length (clauses_of u.var (live (slots kernel.now))) }
    ensures small { result ≤ 8589934590 }
{
    kernel.sound();
    kernel.count(u) as usize + kernel.count(u.negated()) as usize
}

// Whether the expansion keeps the limits.
fn keeps_limits(kernel: &Kernel, dependents: &Dependents, u: Lit, own: usize) -> bool
    requires sign { u.negative ≡ false }
    requires universal { is_universal kernel.now.prefix u.var ≡ true }
    requires own { own ≡ length (clauses_of u.var (live (slots kernel.now))) }
    requires small { own ≤ 8589934590 }
    requires whole { IsWhole kernel.now u.var dependents.now }
    requires few { length dependents.now.vars ≤ 10000 }
    ensures { IsTrue result ↔ IsInLimits standard
        (change kernel.now.prefix (slots kernel.now) (expand_universal u.var)) }
{
    kernel.sound();
    let limits = Limits::standard();
    if kernel.greatest_var() as usize + dependents.count() > limits.vars as usize {
        return false;
    }
    let clauses = kernel.clauses() + dependents.others();
    if clauses > limits.clauses as usize {
        return false;
    }
    let lits = kernel.size() + dependents.size();
    lits <= limits.lits as usize + clauses + own
}

/// Expands a universal variable, and sweeps.
pub(crate) fn take(
    kernel: &mut Kernel,
    dependents: &Dependents,
    order: &[u32],
    spare: &mut Vec<Lit>,
    u: u32,
)
    requires applies { (B : BoundsValue) × Applies B kernel.old (expand_universal u) }
    requires limits { IsInLimits standard (formula_in kernel.old) }
    requires whole { IsWhole kernel.old u dependents.now }
    requires order { order.now ≡ expansion_vars kernel.old.prefix (live (slots kernel.old)) u }
    requires room { HasRoom kernel.old dependents.now }
    requires spare { weight_of kernel.old dependents.now ≤ vec_capacity spare.old }
    ensures { HasResult kernel.old kernel.new (expand_universal u) }
{
    kernel.sound();
    let lit = Lit::new(u, false);
    part(
        kernel,
        dependents,
        lit,
        order,
        kernel.greatest_var() + 1,
        spare,
    );
    drop_all(kernel, lit);
    drop_all(kernel, lit.negated());
    kernel.sweep_now();
}

// Takes all steps before the variable leaves its clauses.
fn part(
    kernel: &mut Kernel,
    dependents: &Dependents,
    u: Lit,
    order: &[u32],
    first: u32,
    spare: &mut Vec<Lit>,
)
    requires copies { HaveCopies u order.now first }
    requires apart { AreApart dependents.now.met }
    requires room { (c : ℕ) → Has dependents.now.met c
        → (C : Clause) × (slot (slots kernel.old) c ≡ Some C)
        × (length C + 1 ≤ vec_capacity spare.old) }
    requires steps { CanTake kernel.old
        (course u.var order.now first (clauses_at (slots kernel.old) dependents.now.met)) }
    ensures { HasTaken kernel.old kernel.new
        (course u.var order.now first (clauses_at (slots kernel.old) dependents.now.met)) }
{
    put_copies(kernel, order, first);
    link_all(kernel, u, order, first);
    split_all(kernel, dependents, u, order, first, spare);
    unlink_all(kernel, u, order, first);
}
