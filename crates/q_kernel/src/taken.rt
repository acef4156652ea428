/// What a rule answers to a target: whether it was applicable, and then the kernel holds the changed
/// formula.
#[derive(Clone, Copy, Debug, PartialEq, Eq)]
pub enum Taken {
    Yes,
    No,
}
