//! What a leader's packet means to an observer.

ghost use Rattle.std.specs.Prelude.{◌≡◌};
ghost use Rattle.learner_sync.specs.Messages.{message_of_packet};

use crate::zxid::epoch_of;
use quorum_packet::{Packet, PacketKind};
use settings::Dialect;
use values::Bytes;

/// What a leader's packet means to an observer. The data that the packet carries is lent and isn't decoded yet; null
/// data is empty.
#[derive(Drop)]
pub enum Message<'a> {
    /// The leader names its epoch. The data has its protocol version.
    LeaderInfo { epoch: i32, bytes: Bytes<'a> },
    /// The transactions that the learner lacks follow.
    Diff,
    /// The learner is to drop the transactions above this zxid.
    Trunc(i64),
    /// An image of the leader's state at this zxid follows.
    Snap(i64),
    /// The data is a transaction that waits for its commit.
    Proposal(Bytes<'a>),
    /// The oldest proposal is committed; it has to have this zxid.
    Commit(i64),
    /// The data is a transaction that is proposed and committed at once.
    Inform(Bytes<'a>),
    /// The same, of a transaction that changes the configuration. In front of it the data names a server.
    InformAndActivate(Bytes<'a>),
    /// The leader's epoch begins.
    NewLeader,
    /// The learner is up to date and may serve.
    UpToDate,
    /// The leader asks whether the learner is alive. The packet itself is sent back, with other data.
    Ping(Packet<'a>),
    /// The leader has done the oldest sync that it was asked for.
    Sync,
    /// The data answers whether a session that a client brought lives.
    Revalidated(Bytes<'a>),
    /// Any other kind, known or unknown.
    Other,
}

/// Reads what a packet means in this dialect; from here on nothing looks at its kind. Allocates nothing.
pub(crate) fn message_of_packet(dialect: Dialect, packet: Packet<'_>) -> Message<'_>
    ensures { result ≡ message_of_packet dialect packet.entry }
{
    let reads = dialect.reads();
    match PacketKind::from_code(packet.kind()) {
        Some(PacketKind::LeaderInfo) => Message::LeaderInfo {
            epoch: epoch_of(packet.zxid()),
            bytes: packet.data(),
        },
        Some(PacketKind::Diff) => Message::Diff,
        Some(PacketKind::Trunc) => Message::Trunc(packet.zxid()),
        Some(PacketKind::Snap) => Message::Snap(packet.zxid()),
        Some(PacketKind::Proposal) => Message::Proposal(packet.data()),
        Some(PacketKind::Commit) => Message::Commit(packet.zxid()),
        Some(PacketKind::Inform) => Message::Inform(packet.data()),
        Some(PacketKind::CommitAndActivate) if reads.extended_types => {
            Message::Commit(packet.zxid())
        }
        Some(PacketKind::InformAndActivate) if reads.extended_types => {
            Message::InformAndActivate(packet.data())
        }
        Some(PacketKind::Revalidate) if reads.moved_sessions => Message::Revalidated(packet.data()),
        Some(PacketKind::NewLeader) => Message::NewLeader,
        Some(PacketKind::UpToDate) => Message::UpToDate,
        Some(PacketKind::Ping) => Message::Ping(packet),
        Some(PacketKind::Sync) => Message::Sync,
        None
        | Some(
            PacketKind::Request
            | PacketKind::Ack
            | PacketKind::Revalidate
            | PacketKind::CommitAndActivate
            | PacketKind::FollowerInfo
            | PacketKind::ObserverInfo
            | PacketKind::AckEpoch
            | PacketKind::InformAndActivate,
        ) => Message::Other,
    }
}
