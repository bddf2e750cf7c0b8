//! Which server is tried next, and how long to pause before.

ghost use Rattle.std.specs.Prelude.{◌≡◌, ◌<◌, ◌≤◌, ◌↔◌, IsSome, IfSome, IsTrue};
ghost use Rattle.following.specs.Finding.{new_search, candidate_of, after_outcome, after_failure, after_refusal, after_service, following_server, longer_pause, is_hopeless};

use settings::ServerId;
use std::marker::Model;

/// The most servers among which a leader is looked for.
pub const SERVER_LIMIT: usize = 64;

const LEAST_PAUSE: u64 = 100;

const LONGEST_PAUSE: u64 = 2000;

const LONG_SERVICE: u64 = 10_000;

const REFUSAL_LIMIT: u64 = 5;

/// What became of a server that was tried.
#[derive(Clone, Copy, Debug, PartialEq, Eq)]
pub enum Outcome {
    /// Nobody was followed: the connection was refused or timed out, the server's name is unknown, or the server
    /// accepted and then ended, or said nothing, before its LEADERINFO.
    NotLeading,
    /// It was followed, and then its connection ended; clients were served for this many milliseconds (0: never).
    Ended { served: u64 },
    /// It was followed, and then it fell silent; the same milliseconds.
    Silent { served: u64 },
    /// What it sent was refused with F10 or F11.
    Refused,
}

/// The server to be tried, and the pause before, in milliseconds.
#[derive(Clone, Copy, Debug, PartialEq, Eq)]
pub struct Candidate {
    pub server: usize,
    pub pause: u64,
}

/// The search for a leader among some servers, which are named by their numbers from 0 on.
///
/// They are tried in turn, again and again, and after one that was served the search goes on behind it: so the one
/// that was lost is the last of the round. A round in which all fail is followed by a pause, of 100 ms at first, then
/// half as long again each time, and 2,000 ms at most; after a leader was served for 10 s it is 100 ms again. A server
/// whose bytes were refused is followed by such a pause too. Up to a tenth is added by the id of this server, so that
/// those that lost one leader don't look for the next in step.
#[derive(Debug, Drop)]
pub struct Finding {
    count: usize,
    server_id: u64,
    next: usize,
    // Before the next try.
    pause: u64,
    // The tries of this round, all of which failed.
    failed: usize,
    // After this round, if all of its tries fail.
    round_pause: u64,
    // Since clients were served, and no more are counted than make it hopeless.
    refusals: u64,
}

impl Model for Finding {
    ghost use Rattle.following.specs.Finding.{LeaderSearch, IsSearch};

    ghost Value = { LeaderSearch };

    ghost view = { λ f. record {
      count = f.count;
      server_id = f.server_id;
      next = f.next;
      pause = f.pause;
      failed = f.failed;
      round_pause = f.round_pause;
      refusals = f.refusals;
    } };

    ghost invariant = { λ f. IsSearch (record {
      count = f.count;
      server_id = f.server_id;
      next = f.next;
      pause = f.pause;
      failed = f.failed;
      round_pause = f.round_pause;
      refusals = f.refusals;
    }) };
}

impl Finding {
    /// A search among this many servers, or None unless they are 1 to [`SERVER_LIMIT`]. The first one is tried at once.
    pub fn new(count: usize, server_id: ServerId) -> Option<Finding>
        ensures { result ≡ new_search count server_id }
    {
        if count == 0 || count > SERVER_LIMIT {
            return None;
        }
        let number = server_id.number();
        Some(Finding {
            count,
            server_id: number as u64,
            next: 0,
            pause: 0,
            failed: 0,
            round_pause: LEAST_PAUSE,
            refusals: 0,
        })
    }

    /// The server to be tried. It stays the same until an outcome is reported.
    pub fn next(&self) -> Candidate
        ensures { result ≡ candidate_of self.now }
    {
        Candidate {
            server: self.next,
            pause: self.pause + self.pause * self.server_id / 2550,
        }
    }

    /// Takes in what became of a server that was tried. The search goes on behind that server; a number that no server
    /// has counts by its remainder.
    pub fn report(&mut self, server: usize, outcome: Outcome)
        ensures { self.new ≡ after_outcome self.old server outcome }
    {
        self.next = self.following(server);
        match outcome {
            Outcome::NotLeading => self.fail(),
            Outcome::Refused => self.refuse(),
            Outcome::Ended { served } | Outcome::Silent { served } => {
                if served == 0 {
                    self.fail();
                } else {
                    self.serve(served);
                }
            }
        }
    }

    /// Whether no further server will help this process: five in a row were refused, and none was served between.
    pub fn is_hopeless(&self) -> bool
        ensures { result ≡ is_hopeless self.now }
    {
        self.refusals >= REFUSAL_LIMIT
    }

    // The server behind this one, in turn.
    fn following(&self, server: usize) -> usize
        ensures { result ≡ following_server self.now.count server }
    {
        let next = server % self.count + 1;
        if next == self.count { 0 } else { next }
    }

    // A try failed. The last one of a round is followed by a pause.
    fn fail(&mut self)
        ensures { self.new ≡ after_failure self.old }
    {
        self.failed += 1;
        self.pause = 0;
        if self.failed == self.count {
            self.failed = 0;
            self.pause = self.round_pause;
            self.round_pause = longer(self.round_pause);
        }
    }

    // A server was refused.
    fn refuse(&mut self)
        ensures { self.new ≡ after_refusal self.old }
    {
        let pause = self.round_pause;
        self.fail();
        self.pause = pause;
        self.refusals = (self.refusals + 1).min(REFUSAL_LIMIT);
    }

    // Clients were served for so long.
    fn serve(&mut self, served: u64)
        ensures { self.new ≡ after_service self.old served }
    {
        self.pause = LEAST_PAUSE;
        self.failed = 0;
        self.refusals = 0;
        if served >= LONG_SERVICE {
            self.pause = 0;
            self.round_pause = LEAST_PAUSE;
        }
    }
}

// The pause after the next round.
fn longer(pause: u64) -> u64
    requires { pause ≤ 2000 }
    ensures { result ≡ longer_pause pause }
{
    (pause * 3 / 2).min(LONGEST_PAUSE)
}
