// The alarm of a row.
ghost use Rattle.std.specs.Prelude.{◌≡◌, true, false};
ghost use Rattle.q_sched.specs.Alarms.{risen};

use crate::trouble::Trouble;
use q_simplify::Alarm;
use std::alloc::Global;

/// Rings where it is asked for the n-th time, and in a plain run where no guide is left. It has no clock, and is only told the seconds.
#[derive(Drop)]
pub struct RowAlarm {
    // None where it does not
    turn: Option<u64>,
    asked: u64,
    rang: u64,
    seconds: Option<u64>,
    plain: bool,
}

impl RowAlarm {
    /// The times are counted from 0.
    pub(crate) fn new(turn: Option<u64>) -> RowAlarm {
        RowAlarm {
            turn,
            asked: 0,
            rang: 0,
            seconds: None,
            plain: false,
        }
    }

    /// How often it was asked and rang, and what it was set to.
    pub(crate) fn text(&self, alloc: Global) -> Result<String, Trouble> {
        let (asked, rang) = (self.asked, self.rang);
        let mut text = format!(in alloc; "asked {asked}, rang {rang}")?;
        if let Some(seconds) = self.seconds {
            write!(text, ", seconds {seconds}")?;
        }
        if self.plain {
            text.push_str(", plain")?;
        }
        Ok(text)
    }
}

impl Alarm for RowAlarm {
    ghost asked = { λ a. a.asked };

    ghost rang = { λ a. a.rang };

    ghost limit = { λ a. a.seconds };

    ghost is_plain = { λ a. a.plain };

    fn set(&mut self, seconds: Option<u64>, plain: bool) {
        self.seconds = seconds;
        self.plain = plain;
    }

    fn rings(&mut self, guided: bool) -> bool {
        let rings = self.turn == Some(self.asked) || (self.plain && !guided);
        self.asked = self.asked.saturating_add(1);
        if rings {
            self.rang = self.rang.saturating_add(1);
        }
        rings
    }
}
