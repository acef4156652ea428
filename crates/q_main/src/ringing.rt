//! The alarm of a run: it rings when it is time to stop, and in a plain run where no guide is left. Else all rules would be searched
//! there, and extended universal reduction with them.
ghost use Rattle.std.specs.Prelude.{◌≡◌, true, false};
ghost use Rattle.q_sched.specs.Alarms.{risen};

use crate::stopping::Stopping;
use q_simplify::Alarm;
use std::rc::Rc;

/// Rings when it is time.
#[derive(Drop)]
pub(crate) struct Ringing {
    stopping: Rc<Stopping>,
    asked: u64,
    rang: u64,
    seconds: Option<u64>,
    plain: bool,
}

impl Ringing {
    pub(crate) fn new(stopping: Rc<Stopping>) -> Ringing {
        Ringing {
            stopping,
            asked: 0,
            rang: 0,
            seconds: None,
            plain: false,
        }
    }
}

impl Alarm for Ringing {
    ghost asked = { λ r. r.asked };

    ghost rang = { λ r. r.rang };

    ghost limit = { λ r. r.seconds };

    ghost is_plain = { λ r. r.plain };

    fn set(&mut self, seconds: Option<u64>, plain: bool) {
        self.seconds = seconds;
        self.plain = plain;
        self.stopping.set(seconds);
    }

    fn rings(&mut self, guided: bool) -> bool {
        self.asked = self.asked.saturating_add(1);
        let rings = (self.plain && !guided) || self.stopping.is_time();
        if rings {
            self.rang = self.rang.saturating_add(1);
        }
        rings
    }
}
