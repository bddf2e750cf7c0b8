//! The counter after which the session ids of a server begin.

ghost use Rattle.std.specs.Prelude.{◌≡◌, ℕ, IsTrue};
ghost use Rattle.settings.specs.Settings.{is_first_counter, first_counter_of, clock_counter, default_first_counter};

use std::marker::Model;

// The greatest: one id can still be given out after it.
const GREATEST: u64 = 0x00ff_ffff_ffff_fffe;

// The clock's counters come again after so many milliseconds, which are more than 17 years.
const CLOCK_PERIOD: u64 = 0x0080_0000_0000;

// The counters between one millisecond and the next.
const COUNTERS_PER_MILLISECOND: u64 = 0x0001_0000;

/// The counter after which the session ids of a server begin, from 0 to 2^56 - 2: the first id has the next counter.
/// The counter is the 7 bytes of an id below the server id.
#[derive(Clone, Copy, Debug)]
pub struct FirstCounter {
    number: u64,
}

impl Model for FirstCounter {
    ghost Value = { ℕ };

    ghost view = { λ first. first.number };

    ghost invariant = { λ first. IsTrue (is_first_counter first.number) };

    ghost inverse = { λ number. record { number = number } };
}

impl FirstCounter {
    /// Returns the first counter, or None if it is out of bounds.
    pub fn new(number: u64) -> Option<FirstCounter>
        ensures { result ≡ first_counter_of number }
    {
        if number > GREATEST {
            return None;
        }
        Some(FirstCounter { number })
    }

    /// The first counter of a server that starts now, by the milliseconds since 1970. A later start under the same
    /// server id gives other ids, unless the earlier one gave more than 65,536 for each millisecond between them, the
    /// clock was set back, or 17 years have passed. At least 2^55 ids can be given out after it.
    pub fn from_clock(milliseconds: u64) -> FirstCounter
        ensures { result ≡ clock_counter milliseconds }
    {
        FirstCounter {
            number: milliseconds % CLOCK_PERIOD * COUNTERS_PER_MILLISECOND,
        }
    }

    pub fn number(self) -> u64
        ensures number { result ≡ self }
        ensures bounds { IsTrue (is_first_counter result) }
    {
        self.number
    }
}

impl Default for FirstCounter {
    fn default() -> FirstCounter
        ensures { result ≡ default_first_counter }
    {
        FirstCounter { number: 0 }
    }
}
