//! The kinds of packets.

ghost use Rattle.std.specs.Prelude.{◌≡◌, Some};
ghost use Rattle.quorum_packet.specs.Kinds.{code_of, kind_of};

/// The kinds of packets between a leader and its servers.
#[derive(Clone, Copy, Debug, PartialEq, Eq)]
pub enum PacketKind {
    /// A server forwards a client's request to the leader.
    Request = 1,
    /// The leader proposes a transaction.
    Proposal = 2,
    /// A server acknowledges a proposal, or a new leader.
    Ack = 3,
    /// A proposal is committed.
    Commit = 4,
    /// The leader asks whether the server is alive, and the server answers.
    Ping = 5,
    /// A server asks the leader to confirm a session.
    Revalidate = 6,
    /// A server asks for everything that was committed so far.
    Sync = 7,
    /// A transaction is proposed and committed in one packet.
    Inform = 8,
    /// A proposal that changes the configuration is committed (ZooKeeper 3.5 and later).
    CommitAndActivate = 9,
    /// The leader's epoch begins.
    NewLeader = 10,
    /// A follower introduces itself.
    FollowerInfo = 11,
    /// The server is up to date and may serve.
    UpToDate = 12,
    /// The transactions that the server lacks follow.
    Diff = 13,
    /// The server is to drop the transactions above a zxid.
    Trunc = 14,
    /// An image of the leader's state follows.
    Snap = 15,
    /// An observer introduces itself.
    ObserverInfo = 16,
    /// The leader names its epoch.
    LeaderInfo = 17,
    /// A server answers the leader's epoch.
    AckEpoch = 18,
    /// A change of the configuration is proposed and committed in one packet (ZooKeeper 3.5 and later).
    InformAndActivate = 19,
}

impl PacketKind {
    /// The kind with this code; `None` for an unknown code.
    #[tactic(auto, unfolding(crate::specs::Kinds::kind_of))]
    pub fn from_code(code: i32) -> Option<PacketKind>
        ensures { result ≡ kind_of code }
    {
        match code {
            1 => Some(PacketKind::Request),
            2 => Some(PacketKind::Proposal),
            3 => Some(PacketKind::Ack),
            4 => Some(PacketKind::Commit),
            5 => Some(PacketKind::Ping),
            6 => Some(PacketKind::Revalidate),
            7 => Some(PacketKind::Sync),
            8 => Some(PacketKind::Inform),
            9 => Some(PacketKind::CommitAndActivate),
            10 => Some(PacketKind::NewLeader),
            11 => Some(PacketKind::FollowerInfo),
            12 => Some(PacketKind::UpToDate),
            13 => Some(PacketKind::Diff),
            14 => Some(PacketKind::Trunc),
            15 => Some(PacketKind::Snap),
            16 => Some(PacketKind::ObserverInfo),
            17 => Some(PacketKind::LeaderInfo),
            18 => Some(PacketKind::AckEpoch),
            19 => Some(PacketKind::InformAndActivate),
            _ => None,
        }
    }

    /// The code of the kind.
    pub fn code(self) -> i32
        ensures code { result ≡ code_of self }
        ensures back { kind_of result ≡ Some self }
    {
        self as i32
    }
}
