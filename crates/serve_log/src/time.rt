//! The time of a line of the log.

use jiff::Timestamp;
use std::fmt;
use std::rt::Clock;

/// Shows a time in UTC, to the millisecond: `2026-11-27T02:31:44.120Z`.
#[derive(Clone, Copy, Debug)]
pub struct Stamp(Timestamp);

/// The time by now, or None if the clock can't be read.
pub(crate) fn stamp_now<R: Clock>(rt: &R) -> Option<Stamp> {
    match Timestamp::now(rt) {
        Ok(time) => Some(Stamp(time)),
        Err(_) => None,
    }
}

impl fmt::Display for Stamp {
    fn fmt<W: fmt::Write>(&self, f: &mut fmt::Formatter<W>) -> fmt::Result {
        let time = self.0;
        write!(f, "{time:.3}")
    }
}
