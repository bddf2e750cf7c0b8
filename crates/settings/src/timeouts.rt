//! The bounds of timeouts.

ghost use Rattle.std.specs.Prelude.{◌≡◌, IsTrue};
ghost use Rattle.settings.specs.Settings.{TimeoutPair, timeout_pair, are_timeouts, timeouts_of, default_timeouts};

use std::marker::Model;

/// The least and the greatest timeout of a session in milliseconds: at least 1, and the least not above the greatest.
#[derive(Clone, Copy, Debug)]
pub struct TimeoutBounds {
    least: i32,
    greatest: i32,
}

impl Model for TimeoutBounds {
    ghost Value = { TimeoutPair };

    ghost view = { λ t. timeout_pair t.least t.greatest };

    ghost invariant = { λ t. IsTrue (are_timeouts (timeout_pair t.least t.greatest)) };

    ghost inverse = { λ t. record { least = t.least; greatest = t.greatest } };
}

impl TimeoutBounds {
    /// Returns these bounds, or None if they are invalid.
    pub fn new(least: i32, greatest: i32) -> Option<TimeoutBounds>
        ensures { result ≡ timeouts_of least greatest }
    {
        let are_timeouts = 1 <= least && least <= greatest;
        if !are_timeouts {
            return None;
        }
        Some(TimeoutBounds { least, greatest })
    }

    pub fn least(self) -> i32
        ensures { result ≡ self.least }
    {
        self.least
    }

    pub fn greatest(self) -> i32
        ensures { result ≡ self.greatest }
    {
        self.greatest
    }
}

impl Default for TimeoutBounds {
    fn default() -> TimeoutBounds
        ensures { result ≡ default_timeouts }
    {
        TimeoutBounds {
            least: 4000,
            greatest: 40_000,
        }
    }
}
