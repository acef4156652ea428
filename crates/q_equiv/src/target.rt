// What equivalent literals are merged by: the representative, and the literal that it takes the place of.
ghost use Rattle.std.specs.Prelude.{◌≡◌};
ghost use Rattle.q_equiv.specs.Targets.{keep_of, gone_of};

use q_logic::Lit;

/// What the rule of equivalent literals is applied to.
#[derive(Clone, Copy, Debug, PartialEq, Eq)]
pub enum Target {
    /// Keep takes the place of gone in all clauses.
    Merge { keep: Lit, gone: Lit },
}

impl Target {
    /// The literal that stays.
    pub fn keep(&self) -> Lit
        ensures { result ≡ keep_of self.now }
    {
        match *self {
            Target::Merge { keep, gone: _ } => keep,
        }
    }

    /// The literal that goes.
    pub fn gone(&self) -> Lit
        ensures { result ≡ gone_of self.now }
    {
        match *self {
            Target::Merge { keep: _, gone } => gone,
        }
    }
}
