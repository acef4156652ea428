/// Whose functions circuits are to be.
#[derive(Clone, Copy, Debug, PartialEq, Eq)]
pub enum Side {
    /// Circuits of the existentials, over the universals.
    Skolem,
    /// Circuits of the universals, over the existentials.
    Herbrand,
}
