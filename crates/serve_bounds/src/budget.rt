//! What a turn of the hub may spend on clients before the leader is heard again.

ghost use Rattle.std.specs.Prelude.{◌≡◌, ◌≤◌, ◌<◌, ◌-◌, ◌+◌, true, false};

use crate::stopwatch::Stopwatch;
use port_hints::Budget;
use std::time::Clock;

// After so long, in microseconds, no more messages of clients are taken in a turn. So what the leader sends waits no
// longer than this, and for the messages of one port. What the leader's own messages take doesn't count.
const MOST_TIME: u64 = 20_000;

// The same for the bytes that clients are answered.
const MOST_ANSWERED: usize = 4 * 1024 * 1024;

// The messages of a port are costly if they take longer, in microseconds, or are answered by more bytes. The time is more
// than this thread is mostly held up where the machine is busy, and the bytes are more than 16 small answers have.
const COSTLY_TIME: u64 = 4000;

const COSTLY_ANSWERED: usize = 1024 * 1024;

// What is taken and answered with so few bytes isn't costly, however long it took: it takes that long only if this thread
// is held up, and its client would wait for a pause. A word has 4 bytes, and may look at all watches.
const SMALL: usize = 4096;

const WORD_LEN: usize = 4;

// Costly messages that take longer in a turn, in microseconds, are followed by a pause, which is so many times as long:
// meanwhile no port is served whose last messages were costly. So the other clients seldom wait for one.
const LONG_TIME: u64 = 25_000;

const PAUSE: u64 = 6;

/// The budget of a turn. Times are microseconds of the server's stopwatch.
#[derive(Clone, Copy)]
pub struct TurnBudget<'a, R> {
    rt: &'a R,
    clock: Stopwatch,
    began: u64,
    last: u64,
    // How long costly messages took.
    costly: u64,
    answered: usize,
    takes_costly: bool,
}

impl<'a, R: Clock> TurnBudget<'a, R> {
    /// The budget of a turn. It reads the clock only if the pause wasn't over at the last reading.
    pub fn new(rt: &'a R, clock: Stopwatch, pause: Pause) -> TurnBudget<'a, R> {
        let mut clock = clock;
        let last = clock.last_microseconds();
        TurnBudget {
            rt,
            takes_costly: pause.rest(last) == 0 || pause.rest(clock.microseconds(rt)) == 0,
            clock,
            began: last,
            last,
            costly: 0,
            answered: 0,
        }
    }
}

// Whether messages with so many bytes were costly, which were answered with so many, and took so many microseconds.
fn is_costly(taken: usize, answered: usize, took: u64) -> bool
    ensures nothing { taken ≡ 0 → result ≡ false }
    ensures small { 4 < taken → taken + answered ≤ 4096 → result ≡ false }
    ensures cheap { took ≤ 4000 → answered ≤ 1048576 → result ≡ false }
    ensures word { 0 < taken → taken ≤ 4 → 4000 < took → result ≡ true }
    ensures long { 4096 < taken + answered → 4000 < took → 0 < taken → result ≡ true }
    ensures large { 1048576 < answered → 0 < taken → result ≡ true }
{
    let is_small = taken > WORD_LEN && taken.saturating_add(answered) <= SMALL;
    // A checkpoint takes long, and brings no bytes of a client.
    taken > 0 && !is_small && (took > COSTLY_TIME || answered > COSTLY_ANSWERED)
}

impl<'a, R: Clock> Budget for TurnBudget<'a, R> {
    fn begin(&mut self) {
        self.began = self.clock.microseconds(self.rt);
        self.last = self.began;
    }

    fn spend(&mut self, taken: usize, answered: usize) -> bool {
        let now = self.clock.microseconds(self.rt);
        let took = now.saturating_sub(self.last);
        self.last = now;
        self.answered = self.answered.saturating_add(answered);
        let is_costly = is_costly(taken, answered, took);
        if is_costly {
            self.costly = self.costly.saturating_add(took);
        }
        is_costly
    }

    fn is_spent(&self) -> bool {
        self.answered > MOST_ANSWERED || self.last.saturating_sub(self.began) > MOST_TIME
    }

    fn takes_costly(&self) -> bool {
        self.takes_costly
    }
}

/// A pause in which no port is served whose last messages were costly. Times are microseconds of the server's stopwatch.
#[derive(Clone, Copy, Debug, Default)]
pub struct Pause {
    until: u64,
}

impl Pause {
    /// The pause after a turn with this budget: a new one where costly messages took long.
    pub fn after<R>(self, budget: &TurnBudget<'_, R>) -> Pause
        ensures short { budget.now.costly ≤ 25000 → result ≡ self }
        ensures no_shorter { self.until ≤ result.until }
    {
        if budget.costly <= LONG_TIME {
            return self;
        }
        let until = budget
            .last
            .saturating_add(budget.costly.saturating_mul(PAUSE));
        Pause {
            until: self.until.max(until),
        }
    }

    /// For how long it lasts.
    pub fn rest(self, now: u64) -> u64
        ensures { result ≡ self.until - now }
    {
        self.until.saturating_sub(now)
    }
}
