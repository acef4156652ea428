//! What says that it is time to stop.
//!
//! A run that is stopped is one whose budget was spent there. Whoever stops where the measure has fallen from M1 to M2 has taken
//! each target at a measure above M2, so the run is one under the budget M1 - M2. So nothing rests on an alarm but how far a run
//! goes, and whether it says that no target is left.
ghost use Rattle.std.specs.Prelude.{◌≡◌, ℕ, Bool, true, false, Option};
ghost use Rattle.q_sched.specs.Alarms.{risen};

/// Says when a run is to stop. Its counts stay at the last number that a u64 has.
pub trait Alarm: Drop {
    /// How often it was asked.
    ghost asked: { Self → ℕ };

    /// How often it rang.
    ghost rang: { Self → ℕ };

    /// The seconds behind which it is to ring, where it was set to some.
    ghost limit: { Self → Option ℕ };

    /// Whether it is to ring where no guide is left.
    ghost is_plain: { Self → Bool };

    /// Sets it, once, before the run: to ring behind so many seconds, and, in a plain run, where no guide is left.
    fn set(&mut self, seconds: Option<u64>, plain: bool)
        ensures limit { limit self.new ≡ seconds }
        ensures is_plain { is_plain self.new ≡ plain }
        ensures asked { asked self.new ≡ asked self.old }
        ensures rang { rang self.new ≡ rang self.old };

    /// Whether it is time to stop. It is asked before each turn and within long searches, and told whether a guide is left.
    fn rings(&mut self, guided: bool) -> bool
        ensures asked { asked self.new ≡ risen (asked self.old) }
        ensures rang { result ≡ true → rang self.new ≡ risen (rang self.old) }
        ensures silent { result ≡ false → rang self.new ≡ rang self.old }
        ensures limit { limit self.new ≡ limit self.old }
        ensures is_plain { is_plain self.new ≡ is_plain self.old };
}

/// An alarm that never rings, whatever it is set to.
#[derive(Clone, Copy, Debug, Drop)]
pub struct Never {
    asked: u64,
    limit: Option<u64>,
    plain: bool,
}

impl Never {
    /// An alarm that was not asked, and is not set.
    pub fn new() -> Never
        ensures asked { ⟦<Never as Alarm>⟧.asked result ≡ 0 }
        ensures rang { ⟦<Never as Alarm>⟧.rang result ≡ 0 }
    {
        Never {
            asked: 0,
            limit: None,
            plain: false,
        }
    }
}

impl Alarm for Never {
    ghost asked = { λ a. a.asked };

    ghost rang = { λ a. 0 };

    ghost limit = { λ a. a.limit };

    ghost is_plain = { λ a. a.plain };

    fn set(&mut self, seconds: Option<u64>, plain: bool) {
        self.limit = seconds;
        self.plain = plain;
    }

    fn rings(&mut self, _guided: bool) -> bool {
        self.asked = self.asked.saturating_add(1);
        false
    }
}
