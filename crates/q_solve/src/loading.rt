//! The clauses of a formula, counted and entered before any variable has a value.
ghost use Rattle.std.specs.Prelude.{◌≡◌, ◌<◌, ◌+◌, [], ℕ, true, eqb, length, OnOk, IfOk};
ghost use Rattle.q_logic.specs.Prelude.{Literal, IsBelow, ArePairs, nothing, Within};
ghost use Rattle.q_logic.specs.Prefixes.{Distinct, is_bound, place};
ghost use Rattle.q_logic.specs.Decisions.{standing};
ghost use Rattle.q_search.specs.Paths.{along, rest_of};
ghost use Rattle.q_search.specs.PlaceTables.{ArePlaces};
ghost use Rattle.q_solve.specs.Counting.{if_so, count_of, times, times_in};
ghost use Rattle.q_solve.specs.Counted.{row_of, IsCounted};

use crate::counts::{Count, Counts};
use crate::places::first_standing;
use crate::sides::Sides;
use q_logic::{Bound, Formula, Lit, NoMemory, is_tautology};
use q_search::PlaceTable;
use std::alloc::Global;

/// All clauses, counted and entered.
#[derive(Drop)]
pub struct Loaded {
    pub sides: Sides,
    pub counts: Counts,
}

fn count_clause(prefix: &[Bound], places: &PlaceTable, clause: &[Lit]) -> Count
    requires places { ArePlaces prefix.now places.now }
    requires within { Within prefix.now clause.now }
    requires ordered { ArePairs IsBelow clause.now }
    ensures { result ≡ count_of (standing (rest_of prefix.now []) (along prefix.now [] nothing))
        clause.now }
{
    let mut count = Count {
        trues: 0,
        opens: 0,
        both: is_tautology(clause),
    };
    for lit in clause {
        count = count.with(first_standing(prefix, places, *lit));
    }
    count
}

// Enters a clause at each of its literals.
fn enter(
    prefix: &[Bound],
    places: &PlaceTable,
    clause: &[Lit],
    at: usize,
    sides: &mut Sides,
) -> Result<(), NoMemory>
    requires distinct { Distinct prefix.now }
    requires places { ArePlaces prefix.now places.now }
    requires within { Within prefix.now clause.now }
    ensures { OnOk result ((k : Literal) → is_bound prefix.now k.var ≡ true → (i : ℕ) →
        times i (row_of prefix.now sides.new k) ≡ times i (row_of prefix.now sides.old k) + if_so
        (eqb at i) (times_in k clause.now)) }
{
    for lit in clause {
        let place = places.place(lit.var());
        sides.enter(place, lit.negative(), at)?;
    }
    Ok(())
}

/// The clauses of a formula.
pub fn load(alloc: Global, formula: &Formula) -> Result<Loaded, NoMemory>
    ensures { IfOk result (λ l. IsCounted formula.now l.sides l.counts []) }
{
    let prefix = formula.prefix();
    let places = PlaceTable::of(alloc, prefix)?;
    let mut sides = Sides::new(alloc);
    let mut counts = Counts::new(alloc);
    for i in 0..formula.clauses() {
        let clause = formula.clause(i);
        counts.push(count_clause(prefix, &places, clause))?;
        enter(prefix, &places, clause, i, &mut sides)?;
    }
    Ok(Loaded { sides, counts })
}
