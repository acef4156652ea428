//! How a look for growths ends.
ghost use Rattle.std.specs.Prelude.{◌≡◌};
ghost use Rattle.q_blocked.specs.Progress.{is_ended, is_grown};

/// What a look for growths finds.
#[derive(Clone, Copy, Debug)]
pub enum Progress {
    /// The set is a tautology, or blocked.
    Ended,
    /// The set may grow, or has grown.
    Grown,
    /// Neither.
    Unchanged,
}

impl Progress {
    pub fn is_ended(self) -> bool
        ensures { result ≡ is_ended self }
    {
        matches!(self, Progress::Ended)
    }

    pub fn is_grown(self) -> bool
        ensures { result ≡ is_grown self }
    {
        matches!(self, Progress::Grown)
    }
}
