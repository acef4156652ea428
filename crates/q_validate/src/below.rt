//! What is known of a value at the nodes below a node, for all nodes of some shape at once: those of a subtree (`words`)
//! or those of a line (`line`). What is told of gates and clauses is composed alike for every shape.
ghost use Rattle.std.specs.Prelude.{◌≡◌, ◌<◌, ◌^◌, List, Bool, Option, Some, slice_get};
ghost use Rattle.q_logic.specs.Branches.{known_both, known_signed};
ghost use Rattle.q_validate.specs.Below.{known_either};

/// What is known at each node of a shape: 0, 1, or nothing so far.
pub trait Below: Copy {
    /// It tells what is known at the end of the way to each node.
    ghost Says: { Self → (List Bool → Option Bool) → Type 0 };

    /// The same at each node.
    fn value(value: bool) -> Self
        ensures { Says result (λ w. Some value) };

    /// An input that gets its value on the way: at this place of it.
    fn input(place: usize) -> Self
        requires { place < 2 ^ 62 }
        ensures { Says result (λ w. slice_get w place) };

    fn signed(self, negative: bool) -> Self
        ensures { (f : List Bool → Option Bool) → Says self f
            → Says result (λ w. known_signed negative (f w)) };

    fn and(self, other: Self) -> Self
        ensures { (f g : List Bool → Option Bool) → Says self f → Says other g
            → Says result (λ w. known_both (f w) (g w)) };

    ghost says_same: { (x : Self) (f g : List Bool → Option Bool) → Says x f
        → ((w : List Bool) → f w ≡ g w) → Says x g };

    final fn or(self, other: Self) -> Self
        ensures { (f g : List Bool → Option Bool) → Says self f → Says other g
            → Says result (λ w. known_either (f w) (g w)) }
    {
        self.signed(true).and(other.signed(true)).signed(true)
    }
}
