// The limits of formulas and logs, at which readers refuse and below which 32-bit places suffice.
ghost use Rattle.std.specs.Prelude.{◌≡◌};
ghost use Rattle.q_logic.specs.Limits.{standard};

/// What is accepted at most: the greatest variable, and the numbers of clauses, of literals as
/// written, and of bytes in one file. The checker takes four times the clauses and literals.
#[derive(Clone, Copy, Debug, PartialEq, Eq)]
pub struct Limits {
    pub vars: u32,
    pub clauses: u64,
    pub lits: u64,
    pub bytes: u64,
}

impl Limits {
    /// The limits of the program.
    pub fn standard() -> Limits
        ensures { result ≡ standard }
    {
        Limits {
            vars: 16_777_215,
            clauses: 33_554_432,
            lits: 134_217_728,
            bytes: 1_099_511_627_776,
        }
    }
}
