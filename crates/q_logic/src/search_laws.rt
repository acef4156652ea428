//! Laws on searches that give values to variables: what a search finds, and how many decisions it makes. Each is the
//! contract of a function that does nothing.
ghost use Rattle.std.specs.Prelude.{◌≡◌, ◌<◌, ◌^◌, ◌↔◌, true, false, IsTrue, length};
ghost use Rattle.q_logic.specs.Formulas.{Clause, Prefix, PrenexFormula, IsIn};
ghost use Rattle.q_logic.specs.Prefixes.{IsFormula};
ghost use Rattle.q_logic.specs.Truth.{Assignment, ClauseTrue, Holds};
ghost use Rattle.q_logic.specs.Skolems.{Lawful, SkolemOf, outcome};
ghost use Rattle.q_logic.specs.Searching.{Test, explored};
ghost use Rattle.q_logic.specs.Branches.{Claim, AreFed, branches, counter_at, search_of as branching_of};
ghost use Rattle.q_logic.specs.Decisions.{decisions, circuits_of, search_of};

use crate::laws::truth_is_decided;

/// A search makes fewer decisions than there are assignments, whatever is said of its nodes.
pub fn values_are_few()
    ensures { (f : Test) → (P : Prefix) → (A : Assignment) → (explored f P A).decisions
        < 2 ^ length P }
{}

/// The search for truth is won exactly where the formula is true.
pub fn won_is_true()
    ensures { (F : PrenexFormula) → IsFormula F → IsTrue (search_of F).won ↔ Holds F }
{
    truth_is_decided();
}

/// The search for truth makes fewer decisions than there are assignments of the variables.
pub fn decisions_are_few()
    ensures { (F : PrenexFormula) → decisions F < 2 ^ length F.prefix }
{
    values_are_few();
}

/// The circuits that a won search picks are Skolem functions.
pub fn circuits_are_skolem()
    ensures { (F : PrenexFormula) → IsFormula F → (search_of F).won ≡ true
        → SkolemOf F (circuits_of F) }
{}

/// No node is hit exactly where lawful circuits over the inputs are Skolem functions.
pub fn valid_is_skolem()
    ensures { (q : Claim) → Lawful q.formula.prefix q.circuits → AreFed q →
        IsTrue (branching_of q).won ↔ SkolemOf q.formula q.circuits }
{}

/// Where a node is hit, some clause is false under the values that the first such node gives.
pub fn counters_falsify()
    ensures { (q : Claim) → Lawful q.formula.prefix q.circuits → AreFed q → (branching_of q).won
        ≡ false →
        (C : Clause) × IsIn C q.formula.matrix
        × (¬ ClauseTrue (outcome q.circuits (counter_at q (branching_of q).last)) C) }
{}

/// There are fewer branches than assignments of the inputs.
pub fn branches_are_few()
    ensures { (q : Claim) → branches q < 2 ^ length q.inputs }
{}
