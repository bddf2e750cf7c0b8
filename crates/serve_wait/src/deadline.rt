//! The time that is left.

ghost use Rattle.std.specs.Prelude.{◌≡◌, ◌≤◌};
ghost use Rattle.std.specs.Duration.{as_nanos};
ghost use Rattle.serve_wait.specs.Answer.{milliseconds_left, try_limit, pause_limit};

use std::time::{Clock, Duration, Instant};

// How long a server has to accept a connection, and again to answer, in milliseconds.
const TRY_LIMIT: u64 = 1000;

// The time between two tries, in milliseconds.
const PAUSE: u64 = 200;

// Of so many milliseconds, what is left after this time.
fn milliseconds_left(limit: u64, passed: Duration) -> u64
    ensures { result ≡ milliseconds_left limit (as_nanos passed) }
{
    let passed = u64::try_from(passed.as_millis()).unwrap_or(u64::MAX);
    limit.saturating_sub(passed)
}

/// The end of a time of some milliseconds.
#[derive(Clone, Copy)]
pub(crate) struct Deadline {
    start: Option<Instant>,
    limit: u64,
}

impl Deadline {
    /// The end of so many milliseconds from now on.
    pub fn new<R: Clock>(rt: &R, limit: u64) -> Deadline
        ensures { result.limit ≡ limit }
    {
        Deadline {
            start: Instant::now(rt).ok(),
            limit,
        }
    }

    /// The milliseconds that are left; none if the clock can't be read.
    pub fn left<R: Clock>(&self, rt: &R) -> u64
        ensures { result ≤ self.now.limit }
    {
        match (self.start, Instant::now(rt)) {
            (Some(start), Ok(now)) => milliseconds_left(self.limit, now.duration_since(start)),
            _ => 0,
        }
    }
}

/// How long a step of a try may take, if so many milliseconds are left.
pub(crate) fn try_limit(left: u64) -> u64
    ensures { result ≡ try_limit left }
{
    left.min(TRY_LIMIT)
}

/// How long the pause before the next try is, if so many milliseconds are left.
pub(crate) fn pause_limit(left: u64) -> u64
    ensures { result ≡ pause_limit left }
{
    left.min(PAUSE)
}
