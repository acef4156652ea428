//! The clock of a run, and the seconds that it may take.

use std::cell::Cell;
use std::time::Instant;

/// So many seconds from the start of the program on; none where nobody set them.
#[derive(Drop)]
pub(crate) struct Deadline {
    rt: HostRuntime,
    // None where there is no clock
    start: Option<Instant>,
    limit: Cell<Option<u64>>,
}

impl Deadline {
    /// The program has just started.
    pub(crate) fn new(rt: HostRuntime) -> Deadline {
        Deadline {
            rt,
            start: Instant::now(&rt).ok(),
            limit: Cell::new(None),
        }
    }

    pub(crate) fn set(&self, seconds: Option<u64>) {
        self.limit.set(seconds);
    }

    pub(crate) fn is_set(&self) -> bool {
        self.limit.get().is_some()
    }

    /// The milliseconds since the start.
    pub(crate) fn millis(&self) -> Option<u64> {
        let start = self.start?;
        match start.elapsed(&self.rt) {
            Ok(passed) => Some(
                passed
                    .as_secs()
                    .saturating_mul(1000)
                    .saturating_add(u64::from(passed.subsec_millis())),
            ),
            Err(_) => None,
        }
    }

    /// Whether the seconds are over so many milliseconds after the start.
    pub(crate) fn is_over(&self, millis: u64) -> bool {
        match self.limit.get() {
            Some(seconds) => millis / 1000 >= seconds,
            None => false,
        }
    }
}
