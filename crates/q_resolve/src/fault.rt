//! What is wrong with a line of a trace.
ghost use Rattle.std.specs.Prelude.{◌≡◌};
ghost use Rattle.q_resolve.specs.Faults.{number_of};

#[derive(Clone, Copy, Debug, PartialEq, Eq)]
pub enum Fault {
    /// A variable that is not in the prefix.
    Unbound,
    /// An antecedent is no earlier line, and the line is no leaf.
    Missing,
    /// No antecedents, and the line is no leaf.
    NoLeaf,
    /// Two antecedents without a pivot.
    NoPivot,
    /// No pivot stands before each variable of the owner of which the lines hold different signs; or the line holds both signs of one
    /// of which that from which it follows does not.
    Merged,
    /// A literal of the opponent is gone.
    Lost,
    /// A literal of the owner is gone before which not all literals of the opponent stand.
    Shed,
}

impl Fault {
    /// The number by which lines and documents name it.
    pub fn number(self) -> u8
        ensures { result ≡ number_of self }
    {
        match self {
            Fault::Unbound => 4,
            Fault::Missing => 5,
            Fault::NoLeaf => 6,
            Fault::NoPivot => 7,
            Fault::Merged => 9,
            Fault::Lost => 10,
            Fault::Shed => 11,
        }
    }
}

/// A line that is not right, by its place.
#[derive(Clone, Copy)]
pub struct Wrong {
    pub at: usize,
    pub fault: Fault,
}
