//! A file by which a run is asked to stop. The launcher says in the environment which one it makes when it gets a signal, since a
//! program gets none here.

use std::cell::Cell;
use std::{env, fs};

// It is looked for again after so many milliseconds.
const PAUSE: u64 = 100;

/// Rings once the file is there.
#[derive(Drop)]
pub(crate) struct Bell {
    rt: HostRuntime,
    // None where nobody rings
    name: Option<String>,
    // the milliseconds at which it is looked for next
    next: Cell<u64>,
}

impl Bell {
    pub(crate) fn new(rt: HostRuntime) -> Bell {
        Bell {
            rt,
            name: env::var(&rt, "CELDRINN_BELL").ok(),
            next: Cell::new(0),
        }
    }

    /// Whether anybody may ring.
    pub(crate) fn is_hung(&self) -> bool {
        self.name.is_some()
    }

    /// Whether somebody rang, as far as was looked so many milliseconds after the start.
    pub(crate) fn rings(&self, millis: u64) -> bool {
        let Some(name) = &self.name else {
            return false;
        };
        if millis < self.next.get() {
            return false;
        }
        self.next.set(millis.saturating_add(PAUSE));
        match fs::exists(&self.rt, name.as_str()) {
            Ok(is_there) => is_there,
            Err(_) => false,
        }
    }
}
