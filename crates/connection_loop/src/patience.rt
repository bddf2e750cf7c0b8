//! How long a session waits.

ghost use Rattle.std.specs.Prelude.{◌≡◌};
ghost use Rattle.connection_loop.specs.Patience.{earlier_of, limit_end, deadline_of};

use crate::limits::SessionLimits;

/// How long a session waits for the answers to what came before the end of its stream, in milliseconds.
const LAST_WAIT: u64 = 2000;

/// What a session waits for. Times are in milliseconds since it began.
#[derive(Clone, Copy)]
pub struct Waits {
    /// Since when it could do nothing.
    pub since: u64,
    /// Its connect isn't answered yet.
    pub connecting: bool,
    /// It has bytes to write, which the socket doesn't take.
    pub unread: bool,
    /// The connection is to close.
    pub closing: bool,
    /// Its stream brings no more.
    pub ended: bool,
}

fn earlier_of(one: Option<u64>, other: Option<u64>) -> Option<u64>
    ensures { result ≡ earlier_of one other }
{
    match (one, other) {
        (Some(one), Some(other)) => Some(one.min(other)),
        (one, None) => one,
        (None, other) => other,
    }
}

// The end of a limit that began then, if it counts. A limit of 0 never ends.
fn limit_end(counts: bool, since: u64, limit: u64) -> Option<u64>
    ensures { result ≡ limit_end counts since limit }
{
    if counts && limit > 0 {
        return Some(since.saturating_add(limit));
    }
    None
}

impl Waits {
    /// When the session ends if nothing changes until then; `None` if it waits for good.
    pub(crate) fn deadline(self, limits: SessionLimits) -> Option<u64>
        ensures { result ≡ deadline_of self limits }
    {
        let unread = if self.closing {
            limits.closing
        } else {
            limits.unread
        };
        let connect = limit_end(self.connecting, 0, limits.unconnected);
        let written = limit_end(self.unread, self.since, unread);
        let last = limit_end(self.ended, self.since, LAST_WAIT);
        earlier_of(connect, earlier_of(written, last))
    }
}
