//! The line below a node: the nodes to which further zeros lead, where the search goes as long as nothing is decided. What
//! is known at a node of it is known at all later ones, so one number tells it, and one pass over the gates tells what is
//! said of each node down to the last input.
ghost use Rattle.std.specs.Prelude.{◌≡◌, List, Bool, Option};
ghost use Rattle.q_logic.specs.Branches.{known_both, known_signed};
ghost use Rattle.q_validate.specs.Below.{verdict_of};
ghost use Rattle.q_validate.specs.Lines.{zeros, Follows};

use crate::below::Below;
use q_logic::Verdict;

/// A value that is known after so many zeros, and at all later nodes.
#[derive(Clone, Copy)]
pub struct Since {
    pub after: usize,
    pub value: bool,
}

impl Since {
    /// What a value says of the node after so many zeros.
    pub fn at(self, depth: usize) -> Verdict
        ensures { (f : List Bool → Option Bool) → Follows self f
            → result ≡ verdict_of (f (zeros depth)) }
    {
        if depth < self.after {
            return Verdict::Open;
        }
        if self.value {
            return Verdict::Won;
        }
        Verdict::Lost
    }
}

impl Below for Since {
    ghost use Rattle.q_validate.specs.Lines.{Follows, follows_same};

    ghost Says = { Follows };

    fn value(value: bool) -> Since {
        Since { after: 0, value }
    }

    fn input(place: usize) -> Since {
        Since {
            after: place + 1,
            value: false,
        }
    }

    fn signed(self, negative: bool) -> Since {
        if negative {
            return Since {
                after: self.after,
                value: !self.value,
            };
        }
        self
    }

    fn and(self, other: Since) -> Since {
        let earlier = self.after < other.after;
        let second = match (self.value, other.value) {
            (true, true) => earlier,
            (true, false) => true,
            (false, true) => false,
            (false, false) => !earlier,
        };
        if second { other } else { self }
    }

    ghost says_same = { follows_same };
}
