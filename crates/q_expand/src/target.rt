// What universal expansion is applied to (Biere 2004).
ghost use Rattle.std.specs.Prelude.{◌≡◌};

/// What expansion is applied to.
#[derive(Clone, Copy, Debug, PartialEq, Eq)]
pub enum Target {
    /// The clauses of a universal variable stay over copies of the inner existentials that are connected to it.
    Expand { u: u32 },
}

impl Target {
    ghost use Rattle.q_logic.specs.Prelude.{expand_universal};
    ghost use Rattle.q_expand.specs.Targets.{target_of};

    /// The variable that is expanded.
    pub(crate) fn variable(&self) -> u32
        ensures { target_of self.now ≡ expand_universal result }
    {
        let Target::Expand { u } = *self;
        u
    }
}
