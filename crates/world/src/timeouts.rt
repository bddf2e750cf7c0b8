//! The timeouts of sessions that the leader is told.

ghost use Rattle.world.specs.Timeouts.{known_timeout};

use data_tree::Timeouts;
use forwarding::SessionTimeouts;
use sessions::Sessions;

/// The timeouts of sessions: those that connections were told, if these count, and those of the tree.
#[derive(Clone, Copy)]
pub struct KnownTimeouts<'a> {
    /// Whether the timeout that a session's connection was told comes before the tree's.
    pub counts_told: bool,
    pub sessions: &'a Sessions,
    /// The timeouts in the tree, which has each session of the ensemble.
    pub tree: &'a Timeouts,
}

impl SessionTimeouts for KnownTimeouts<'_> {
    ghost timeout = { λ known. known_timeout known.counts_told known.sessions.now known.tree.now };

    fn timeout_of(&self, session: i64) -> Option<i32> {
        if !self.counts_told {
            return self.tree.get(session);
        }
        let told = self.sessions.told_timeout(session);
        told.or(self.tree.get(session))
    }
}
