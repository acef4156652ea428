//! Elimination of an existential variable x by resolution.
//!
//! Idea: a resolvent on x of a clause with x and a clause with its negation says what both say of the other variables.
//! Where all literals beside x on one side are outer or same to x, the resolvents say all that there is to say, so they
//! come in place of the clauses of x. This is done where they are no larger than these clauses and the bound `grow`.
//!
//! Source: elimination by clause distribution goes back to Davis and Putnam (1960); bounded as here: Een and Biere
//! (SAT 2005); for quantified formulas: Biere (SAT 2004), and Heule, Seidl and Biere (IJCAR 2014), whose proof system the
//! steps are of. That one side alone has to be outer is this project's own condition.
//!
//! Condition and change: `Eliminable` in q_logic/specs/Eliminating.antt, the rule in q_logic/specs/Rules/Eliminate.antt.
//! Law: `targets_run` and `targets_lower` of q_logic. Steps: each resolvent comes as implied by its parents. Then the
//! clauses of the inner sign go by it as pivot, since a resolvent stands for each clash with the outer side, and last the
//! others, whose pivot is pure by then.
//!
//! Search: variables in ascending order. The ids of both sides are gathered from their lists. The outer side is looked for
//! on the shorter one first. Resolvents are measured one after the other, by marks of one parent, and given up as soon as
//! they pass the bound; none is made before all are known to fit. Where long clauses with short ones pass it alone (`early.rt`), nothing
//! else is read. Nothing is kept from one variable to the next.
//!
//! Cost: what the clauses of x are, and for each pair of them the length of the one that is not marked. A target that
//! applies is measured once and made once.
//!
//! It may make applicable: any rule on the resolvents, above all subsumption, and elimination of other variables, whose
//! lists got shorter.
ghost use Rattle.std.specs.Prelude.{◌≤◌, vec_capacity};
ghost use Rattle.q_logic.specs.declared.rule_bounds.Bounds.{Bounds as BoundsValue};
ghost use Rattle.q_logic.specs.Prelude.{negation, positive, standard, IsInLimits};
ghost use Rattle.q_logic.specs.Targets as theory;
ghost use Rattle.q_kernel.specs.Prelude.{formula_in, HasSweepBytes, Applies};
ghost use Rattle.q_rule.specs.Becoming.{HasResult};
ghost use Rattle.q_eliminate.specs.Sides.{AreSidesOf};
ghost use Rattle.q_eliminate.specs.Plans.{IsPlanOf, HasRoomFor};
ghost use Rattle.q_eliminate.specs.Growing.{MayGoBy, MayGoByLater, HasLost};

use crate::adding::add_resolvents;
use crate::plan::Plan;
use crate::removing::delete_with;
use crate::search::Search;
use q_kernel::Kernel;
use q_logic::Lit;

/// Adds the resolvents, deletes the clauses of the variable, and sweeps.
pub(crate) fn take(kernel: &mut Kernel, search: &mut Search, x: u32, plan: &Plan)
    requires applies { (B : BoundsValue) × Applies B kernel.old (theory.eliminate x) }
    requires limits { IsInLimits standard (formula_in kernel.old) }
    requires plan { IsPlanOf kernel.old (positive x) plan.now }
    requires sides { AreSidesOf kernel.old (positive x) search.old.sides }
    requires room { HasRoomFor kernel.old plan.now }
    requires buffer { plan.now.size ≤ vec_capacity search.old.resolvent }
    ensures { HasResult kernel.old kernel.new (theory.eliminate x) }
{
    kernel.sound();
    let lit = Lit::new(x, false);
    let sides = &search.sides;
    add_resolvents(
        kernel,
        &mut search.resolvent,
        lit,
        &sides.positive,
        &sides.negative,
    );
    delete_sides(kernel, plan.outer);
    kernel.sweep_now();
}

// Deletes the clauses of a variable. Those of the outer sign go last: before that its negation is a pivot of the others.
fn delete_sides(kernel: &mut Kernel, outer: Lit)
    requires first { MayGoBy kernel.old (negation outer) }
    requires second { MayGoByLater kernel.old outer }
    requires bytes { HasSweepBytes kernel.old }
    ensures { HasLost kernel.old kernel.new outer }
{
    delete_with(kernel, outer.negated());
    delete_with(kernel, outer);
}
