// What bounded variable elimination is applied to (Een and Biere 2005; with universals, Biere 2004).
ghost use Rattle.std.specs.Prelude.{◌≡◌};

/// What elimination is applied to.
#[derive(Clone, Copy, Debug, PartialEq, Eq)]
pub enum Target {
    /// An existential variable goes, and the resolvents of its clauses come.
    Eliminate { x: u32 },
}

impl Target {
    ghost use Rattle.q_logic.specs.Targets as theory;
    ghost use Rattle.q_eliminate.specs.Targets.{target_of};

    /// The variable that goes.
    pub(crate) fn variable(&self) -> u32
        ensures { target_of self.now ≡ theory.eliminate result }
    {
        let Target::Eliminate { x } = *self;
        x
    }
}
