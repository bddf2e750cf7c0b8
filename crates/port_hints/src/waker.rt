//! The waker of the hub's thread.

use std::sync::Wait;
use std::thread::Parker;
use std::time::Duration;

/// Wakes the hub's thread if it waits; otherwise its next wait ends at once.
#[derive(Drop)]
pub struct Waker {
    parker: Parker,
}

impl Waker {
    pub(crate) fn new() -> Waker {
        Waker {
            parker: Parker::new(),
        }
    }

    pub fn wake(&self) {
        self.parker.unpark();
    }

    /// Waits up to `at_most` for a wake. It may return early.
    pub fn wait<R: Wait>(&self, rt: &R, at_most: Duration) {
        self.parker.park_timeout(rt, at_most);
    }
}
