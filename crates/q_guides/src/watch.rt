//! Who is told what the guide looks at, and says whether it goes on. By it a program says that a long pass goes on, and ends one
//! that takes too long. Nothing rests on it but how much is proposed.

use q_kernel::Kernel;

/// What is looked for.
#[derive(Clone, Copy, Debug, PartialEq, Eq)]
pub enum Pass {
    /// Nothing yet: all clauses are noted, each at the literals by which it is found again.
    Note,
    Subsume,
    Merge,
    Eliminate,
    Block,
    Expand,
    Cover,
    Cut,
}

/// Is told of each clause, literal or variable before it is looked at, so it should answer soon.
pub trait Watch: Drop {
    /// Whether to go on. Where it says no, the pass ends there and proposes nothing more, as each pass behind it does that asks; so
    /// once it has said no, it should say nothing else.
    fn look(&self, pass: Pass, kernel: &Kernel) -> bool;
}

/// Says nothing, and goes on.
#[derive(Clone, Copy, Debug, Drop)]
pub struct Quiet;

impl Watch for Quiet {
    fn look(&self, _pass: Pass, _kernel: &Kernel) -> bool {
        true
    }
}
