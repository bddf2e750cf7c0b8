//! Whether a server is healthy.

ghost use Rattle.std.specs.Prelude.{◌≡◌};
ghost use Rattle.server_metrics.specs.Health.{health_of, makes_turns};

use server_words::ServerFigures;

/// Whether a server does what it is there for.
#[derive(Clone, Copy, Debug, PartialEq, Eq)]
pub enum Health {
    /// It serves clients, and its leader was heard in time.
    Healthy,
    /// It serves no clients.
    NotServing,
    /// The leader hasn't been heard for so many milliseconds.
    Silent(u64),
}

// The longest that the thread which has the engine may be without a turn, in microseconds.
const LONGEST_TURN: u64 = 10_000_000;

/// Whether a server with these figures is healthy, whose leader was last heard so many microseconds ago, and may be
/// silent for so many milliseconds; 0: for any time.
pub fn health_of(figures: &ServerFigures, silence: u64, limit: u64) -> Health
    ensures { result ≡ health_of figures.now.serving silence limit }
{
    if !figures.serving {
        return Health::NotServing;
    }
    let silent = silence / 1000;
    if limit > 0 && silent > limit {
        return Health::Silent(silent);
    }
    Health::Healthy
}

/// Whether a server lives whose engine made its last turn so many microseconds ago.
pub fn is_live(since_turn: u64) -> bool
    ensures { result ≡ makes_turns since_turn }
{
    since_turn <= LONGEST_TURN
}
