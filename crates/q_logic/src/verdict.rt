// The words of a search over assignments: what is known of a node, and of a literal at it.
ghost use Rattle.std.specs.Prelude.{◌≡◌};
ghost use Rattle.q_logic.specs.Searching.{worse};
ghost use Rattle.q_logic.specs.Decisions.{is_true, is_hopeless};

/// What is said of a node of a search: it is lost, it is won, or a decision is made there.
#[derive(Clone, Copy, Debug, PartialEq, Eq)]
pub enum Verdict {
    Lost,
    Won,
    Open,
}

impl Verdict {
    /// What two parts say together: a lost part loses the node, and an open one keeps it open.
    pub fn worse(self, more: Verdict) -> Verdict
        ensures { result ≡ worse self more }
    {
        match (self, more) {
            (Verdict::Lost, _) => Verdict::Lost,
            (Verdict::Won, _) => more,
            (Verdict::Open, Verdict::Lost) => Verdict::Lost,
            (Verdict::Open, _) => Verdict::Open,
        }
    }
}

/// What is known of a literal at a node: it is true or false, or its variable has no value and is existential
/// (a value is chosen) or universal (each value has to do).
#[derive(Clone, Copy, Debug, PartialEq, Eq)]
pub enum Standing {
    True,
    False,
    Chosen,
    Free,
}

impl Standing {
    pub fn is_true(self) -> bool
        ensures { result ≡ is_true self }
    {
        matches!(self, Standing::True)
    }

    /// Whether no choice is left that could make the literal true.
    pub fn is_hopeless(self) -> bool
        ensures { result ≡ is_hopeless self }
    {
        matches!(self, Standing::False | Standing::Free)
    }
}
