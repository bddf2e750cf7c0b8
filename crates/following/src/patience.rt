//! When a silent leader is given up.

ghost use Rattle.std.specs.Prelude.{◌≡◌};
ghost use Rattle.following.specs.Patience.{new_wait, after_hearing, after_judging, judgement_on, limit_of_silence, limit_in_ticks, limit_by_sessions, lesser_limit};

use std::marker::Model;

const GREETING_LIMIT: u64 = 3000;

const SECOND_GREETING_LIMIT: u64 = 500;

/// How far a connection to a leader has come.
#[derive(Clone, Copy, Debug, PartialEq, Eq)]
pub enum Stage {
    /// Its LEADERINFO hasn't come.
    Greeting,
    /// The same, of a server that was silent the last time: it may be frozen, while its system accepts connections.
    GreetingAgain,
    /// From its LEADERINFO to its UPTODATE.
    Synchronising,
    /// Clients are served.
    Serving,
}

/// What a leader's silence means.
#[derive(Clone, Copy, Debug, PartialEq, Eq)]
pub enum Judgement {
    /// Not too long yet: to be judged again after this many milliseconds at the latest (`u64::MAX`: there is no limit).
    Wait(u64),
    /// Too long, by this clock. But this process may have been stopped itself, and then bytes lie in the socket: to be
    /// judged again after the socket was read once more.
    SecondLook,
    /// Too long at the second look too: silent for this many milliseconds.
    GivenUp { silent: u64 },
}

/// The wait for a leader's next bytes.
#[derive(Clone, Copy, Debug)]
pub struct Patience {
    heard: u64,
    // Whether the last judgement was `SecondLook`, and nothing was heard since.
    looks_again: bool,
}

impl Model for Patience {
    ghost use Rattle.following.specs.Patience.{LeaderWait};

    ghost Value = { LeaderWait };

    ghost view = { λ p. record { heard = p.heard; looks_again = p.looks_again } };

    ghost inverse = { λ w. record { heard = w.heard; looks_again = w.looks_again } };
}

impl Patience {
    /// The wait for the first bytes of a leader that was connected now.
    pub fn new(now: u64) -> Patience
        ensures { result ≡ new_wait now }
    {
        Patience {
            heard: now,
            looks_again: false,
        }
    }

    /// Bytes of the leader were taken.
    pub fn heard(&mut self, now: u64)
        ensures { self.new ≡ after_hearing self.old now }
    {
        *self = Patience::new(now);
    }

    /// Judges the leader after a turn that took nothing of it. A leader may be silent for as long as the limit says, in
    /// milliseconds; for ever, where there is none. It is given up only where the judgement before was `SecondLook`,
    /// and nothing was heard since.
    pub fn judge(&mut self, now: u64, limit: Option<u64>) -> Judgement
        ensures judgement { result ≡ judgement_on self.old now limit }
        ensures after { self.new ≡ after_judging self.old now limit }
    {
        let silent = now.saturating_sub(self.heard);
        let left = match limit {
            None => u64::MAX,
            Some(limit) => limit.saturating_sub(silent),
        };
        if left > 0 {
            self.looks_again = false;
            return Judgement::Wait(left);
        }
        self.looks_again = !self.looks_again;
        if self.looks_again {
            Judgement::SecondLook
        } else {
            Judgement::GivenUp { silent }
        }
    }
}

/// For how many milliseconds a leader may be silent at this stage; None: for ever. A tick and the least timeout among
/// the sessions that are connected here, if there is one, are in milliseconds, and the limits in ticks (0: none).
///
/// Before its LEADERINFO it is 3,000 ms, and 500 ms where it was silent the last time; until its UPTODATE `init_limit`, and then `sync_limit`, but no longer than
/// three quarters of the least timeout, so that no client is served past its session. A leader that lives is heard each
/// half tick, and it is given three of these, however short the timeout is.
pub fn silence_limit(
    stage: Stage,
    tick: u64,
    init_limit: u64,
    sync_limit: u64,
    least_timeout: Option<i32>,
) -> Option<u64>
    ensures { result ≡ limit_of_silence stage tick init_limit sync_limit least_timeout }
{
    match stage {
        Stage::Greeting => Some(GREETING_LIMIT),
        Stage::GreetingAgain => Some(SECOND_GREETING_LIMIT),
        Stage::Synchronising => ticks(tick, init_limit),
        Stage::Serving => lesser(ticks(tick, sync_limit), session_limit(tick, least_timeout)),
    }
}

// So many ticks.
fn ticks(tick: u64, count: u64) -> Option<u64>
    ensures { result ≡ limit_in_ticks tick count }
{
    if count == 0 {
        None
    } else {
        Some(tick.saturating_mul(count))
    }
}

// How long a leader may be silent for the sake of the sessions that are connected here.
fn session_limit(tick: u64, least_timeout: Option<i32>) -> Option<u64>
    ensures { result ≡ limit_by_sessions tick least_timeout }
{
    let timeout = least_timeout?;
    let timeout = timeout.max(0) as u64;
    Some((timeout * 3 / 4).max(tick.saturating_add(tick / 2)))
}

// The lesser limit, where none is longer than each.
fn lesser(one: Option<u64>, other: Option<u64>) -> Option<u64>
    ensures { result ≡ lesser_limit one other }
{
    match (one, other) {
        (Some(one), Some(other)) => Some(one.min(other)),
        (None, limit) | (limit, None) => limit,
    }
}
