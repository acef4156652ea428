//! What is known of the two literals of a variable: before it has a value, and with one.
ghost use Rattle.std.specs.Prelude.{◌≡◌, [], true};
ghost use Rattle.q_logic.specs.Prelude.{nothing, is_bound};
ghost use Rattle.q_logic.specs.Decisions.{standing as standing_spec};
ghost use Rattle.q_search.specs.Paths.{along, rest_of};
ghost use Rattle.q_search.specs.PlaceTables.{ArePlaces};
ghost use Rattle.q_solve.specs.Places.{known_open as known_open_spec, known_value as known_value_spec, open_to as open_to_spec};

use q_logic::{Bound, Lit, Quant, Standing};
use q_search::PlaceTable;

/// What is known of the two literals of a variable.
#[derive(Clone, Copy, Debug, PartialEq, Eq)]
pub struct Known {
    pub positive: Standing,
    pub negative: Standing,
}

fn open_to(quant: Quant) -> Standing
    ensures { result ≡ open_to_spec quant }
{
    match quant {
        Quant::Exists => Standing::Chosen,
        Quant::Forall => Standing::Free,
    }
}

/// Before the variable has a value.
pub fn known_open(quant: Quant) -> Known
    ensures { result ≡ known_open_spec quant }
{
    Known {
        positive: open_to(quant),
        negative: open_to(quant),
    }
}

/// With a value.
pub fn known_value(value: bool) -> Known
    ensures { result ≡ known_value_spec value }
{
    match value {
        true => Known {
            positive: Standing::True,
            negative: Standing::False,
        },
        false => Known {
            positive: Standing::False,
            negative: Standing::True,
        },
    }
}

/// What is known of a literal before any variable has a value.
pub fn first_standing(prefix: &[Bound], places: &PlaceTable, lit: Lit) -> Standing
    requires places { ArePlaces prefix.now places.now }
    requires bound { is_bound prefix.now lit.var ≡ true }
    ensures { result ≡ standing_spec (rest_of prefix.now []) (along prefix.now [] nothing) lit }
{
    let place = places.place(lit.var());
    open_to(prefix[place].quant)
}
