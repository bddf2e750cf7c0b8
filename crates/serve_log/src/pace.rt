//! How often a line is written.

ghost use Rattle.std.specs.Prelude.{◌≡◌, ◌↔◌, None, Some, IsTrue, if◌then◌else◌};
ghost use Rattle.serve_log.specs.Paces.{IsDue, IsReport};

/// Lets something happen at most once in ten seconds. Times are in milliseconds of a clock that doesn't go back.
#[derive(Clone, Copy, Debug, Default)]
pub struct Pace {
    last: Option<u64>,
}

const BETWEEN: u64 = 10_000;

impl Pace {
    pub fn new() -> Pace
        ensures { result.last ≡ None }
    {
        Pace { last: None }
    }

    /// Whether it is time again. If it is, the next ten seconds begin.
    pub fn is_due(&mut self, now: u64) -> bool
        ensures due { IsTrue result ↔ IsDue self.old.last now }
        ensures began { self.new.last ≡ (if result then Some now else self.old.last) }
    {
        let is_due = match self.last {
            None => true,
            Some(last) => now.saturating_sub(last) >= BETWEEN,
        };
        if is_due {
            self.last = Some(now);
        }
        is_due
    }
}

/// How many refusals there were since they were told last, which is at most once in ten seconds.
#[derive(Clone, Copy, Debug, Default)]
pub struct Refusals {
    told: u64,
    pace: Pace,
}

impl Refusals {
    pub fn new() -> Refusals
        ensures none { result.told ≡ 0 }
        ensures pace { result.pace.last ≡ None }
    {
        Refusals {
            told: 0,
            pace: Pace::new(),
        }
    }

    /// How many refusals are to be told now, of this many in all; None if there is nothing new, or if it isn't time yet.
    pub fn report(&mut self, all: u64, now: u64) -> Option<u64>
        ensures { IsReport self.old result self.new all now }
    {
        if all <= self.told || !self.pace.is_due(now) {
            return None;
        }
        let fresh = all - self.told;
        self.told = all;
        Some(fresh)
    }
}
