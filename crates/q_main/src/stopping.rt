//! Whether it is time to stop: the seconds of `--time` are over, or a signal came.

use crate::bell::Bell;
use crate::deadline::Deadline;
use std::cell::Cell;

/// What says so, shared by the alarm and by what a guide tells of its looks. Once it is time, it stays so.
#[derive(Drop)]
pub(crate) struct Stopping {
    deadline: Deadline,
    bell: Bell,
    is_time: Cell<bool>,
}

impl Stopping {
    pub(crate) fn new(rt: HostRuntime) -> Stopping {
        Stopping {
            deadline: Deadline::new(rt),
            bell: Bell::new(rt),
            is_time: Cell::new(false),
        }
    }

    /// Sets how many seconds there are.
    pub(crate) fn set(&self, seconds: Option<u64>) {
        self.deadline.set(seconds);
    }

    /// Whether it is time.
    pub(crate) fn is_time(&self) -> bool {
        if !self.is_time.get() && (self.deadline.is_set() || self.bell.is_hung()) {
            self.look();
        }
        self.is_time.get()
    }

    fn look(&self) {
        if let Some(millis) = self.deadline.millis() {
            self.is_time
                .set(self.deadline.is_over(millis) || self.bell.rings(millis));
        }
    }
}
