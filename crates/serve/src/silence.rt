//! The leader's silence.

use following::{Judgement, Patience, Stage, silence_limit};
use learner_sync::Phase;
use observer_core::Engine;

/// How long the last look at a silent leader waits for its bytes, in milliseconds.
pub(crate) const SECOND_LOOK: u64 = 200;

// The timeouts of sessions are looked through at most once in so many milliseconds.
const BETWEEN_LOOKS: u64 = 250;

/// How long a leader may be silent: a tick in milliseconds, and limits in ticks; a limit of 0 is none.
#[derive(Clone, Copy, Debug)]
pub struct SilenceLimits {
    pub tick: u64,
    pub init_limit: u64,
    pub sync_limit: u64,
}

/// Watches whether the leader is heard. Times are milliseconds of the server's stopwatch.
#[derive(Clone, Copy, Debug)]
pub struct Silence {
    limits: SilenceLimits,
    patience: Patience,
    heard: u64,
    // The second look is taken no sooner.
    again: u64,
    // The least timeout among the sessions of this server's clients, and when it was looked for.
    least: Option<i32>,
    looked: Option<u64>,
    was_silent: bool,
}

impl Silence {
    pub fn new(limits: SilenceLimits) -> Silence {
        Silence {
            limits,
            patience: Patience::new(0),
            heard: 0,
            again: 0,
            least: None,
            looked: None,
            was_silent: false,
        }
    }

    /// A server was connected, which was silent the last time or not.
    pub fn begin(&mut self, now: u64, was_silent: bool) {
        self.heard(now);
        self.was_silent = was_silent;
    }

    /// The leader was heard.
    pub fn heard(&mut self, now: u64) {
        self.patience.heard(now);
        self.heard = now;
        self.again = now;
        self.looked = None;
    }

    // Three half ticks: a leader sends a PING in each half tick.
    fn three_pings(&self) -> u64 {
        self.limits.tick.saturating_mul(3) / 2
    }

    // Looks for the least timeout, if the leader has been silent for so long that it may matter.
    fn look(&mut self, engine: &Engine, now: u64) {
        let is_quiet = now.saturating_sub(self.heard) >= self.three_pings();
        if !is_quiet {
            self.least = None;
            return;
        }
        let is_fresh = match self.looked {
            None => false,
            Some(looked) => now.saturating_sub(looked) < BETWEEN_LOOKS,
        };
        if !is_fresh {
            self.least = engine.least_timeout();
            self.looked = Some(now);
        }
    }

    /// Judges the leader after a turn. Where it is too long silent, it is given up only after a second look: the process
    /// may have been stopped itself, and then the leader's bytes lie in the socket.
    pub fn judge(&mut self, engine: &Engine, now: u64) -> Judgement {
        if now < self.again {
            return Judgement::Wait(self.again - now);
        }
        self.look(engine, now);
        let SilenceLimits {
            tick,
            init_limit,
            sync_limit,
        } = self.limits;
        let stage = match engine.learner().phase() {
            Phase::Down | Phase::Hello if self.was_silent => Stage::GreetingAgain,
            Phase::Down | Phase::Hello => Stage::Greeting,
            Phase::Sync | Phase::Image(_) | Phase::ReplayOnImage(_) | Phase::Replay => {
                Stage::Synchronising
            }
            Phase::Serving => Stage::Serving,
        };
        let limit = silence_limit(stage, tick, init_limit, sync_limit, self.least);
        match self.patience.judge(now, limit) {
            Judgement::Wait(left) => Judgement::Wait(left.min(self.three_pings().max(1))),
            Judgement::SecondLook => {
                self.again = now.saturating_add(SECOND_LOOK);
                Judgement::SecondLook
            }
            Judgement::GivenUp { silent } => Judgement::GivenUp { silent },
        }
    }
}
