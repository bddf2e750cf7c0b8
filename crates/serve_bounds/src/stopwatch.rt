//! The time since the server began.

use std::time::{Clock, Instant};

/// Counts the time since it was started, by the monotonic clock.
#[derive(Clone, Copy)]
pub struct Stopwatch {
    start: Option<Instant>,
    // The microseconds at the last reading.
    last: u64,
}

impl Stopwatch {
    pub fn start<R: Clock>(rt: &R) -> Stopwatch {
        Stopwatch {
            start: Instant::now(rt).ok(),
            last: 0,
        }
    }

    /// The milliseconds at the last reading.
    pub fn last(&self) -> u64 {
        self.last / 1000
    }

    pub(crate) fn last_microseconds(&self) -> u64 {
        self.last
    }

    /// The milliseconds by now.
    pub fn now<R: Clock>(&mut self, rt: &R) -> u64 {
        self.microseconds(rt) / 1000
    }

    /// The microseconds by now. While the clock can't be read, time stands still.
    pub fn microseconds<R: Clock>(&mut self, rt: &R) -> u64 {
        let Some(start) = self.start else {
            return self.last;
        };
        if let Ok(now) = Instant::now(rt) {
            let passed = u64::try_from(now.duration_since(start).as_micros()).unwrap_or(u64::MAX);
            self.last = passed;
        }
        self.last
    }
}
