//! What an item of the leader's stream causes.

use data_tree::{Triggers, TxnResults};
use quorum_packet::QuorumPacket;
use values::Listed;

/// What an item tells that concerns more than the replica.
#[derive(Debug, Drop)]
pub enum LeaderNews {
    /// The leader asks whether the observer is alive, and which sessions are. This is its PING.
    Ping(QuorumPacket),
    /// The leader has done the oldest sync that it was asked for.
    SyncSettled,
    /// The leader has answered whether a session that a client brought lives.
    Revalidated {
        session: i64,
        is_valid: bool,
    },
    /// A transaction was applied.
    Applied {
        /// Its place in the log since the base.
        place: usize,
        /// What comes of it.
        results: TxnResults,
    },
}

/// What an item of the leader's stream causes.
#[derive(Debug, Drop)]
pub struct ItemOutcome {
    /// Packets to send to the leader, in order.
    pub replies: Listed<QuorumPacket>,
    /// Triggers for the watchers, in order.
    pub triggers: Triggers,
    /// What it tells besides, if there is anything.
    pub news: Option<LeaderNews>,
}
