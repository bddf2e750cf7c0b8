//! The packets that a learner sends to its leader, and lists of acts.

ghost use Rattle.std.specs.Prelude.{◌≡◌, ◌∷◌, [], ◌*◌, length, IfOk};
ghost use Rattle.learner_sync.specs.Answers.{observer_info, ack_epoch, epoch_ack, ping_reply, session_rows};

use crate::act::{Act, ActList};
use crate::learner::Learner;
use crate::record::LearnerInfo;
use crate::zxid::first_zxid;
use jute::{WriteRecord, put_int, put_long};
use quorum_packet::{PacketKind, QuorumPacket};
use settings::ServerId;
use std::alloc::Global;
use values::{Blob, NoMemory};

// The protocol version that a learner names.
const PROTOCOL_VERSION: i32 = 0x1_0000;

// A list of one act. Fails only if an allocation is refused.
pub(crate) fn act_list(alloc: Global, act: Act) -> Result<ActList, NoMemory>
    ensures { IfOk result (λ acts. acts ≡ act ∷ []) }
{
    Ok(ActList::from_vec(vec![in alloc; act]?))
}

// A list of no act. Allocates nothing.
pub(crate) fn empty_act_list(alloc: Global) -> ActList
    ensures { result ≡ [] }
{
    ActList::from_vec(Vec::new(alloc))
}

impl Learner {
    // The OBSERVERINFO packet by which the learner introduces itself.
    #[tactic(auto, unfolding(crate::specs::Records::learner_info))]
    pub(crate) fn introduction(
        &self,
        alloc: Global,
        server_id: ServerId,
    ) -> Result<QuorumPacket, NoMemory>
        ensures { IfOk result (λ p. p ≡ observer_info self.now server_id) }
    {
        let info = LearnerInfo {
            server_id: i64::from(server_id.number()),
            protocol_version: PROTOCOL_VERSION,
        };
        let mut bytes = Vec::with_capacity(alloc, 12)?;
        info.write(&mut bytes)?;
        Ok(QuorumPacket {
            kind: PacketKind::ObserverInfo.code(),
            zxid: first_zxid(self.accepted_epoch),
            bytes: Some(Blob::from_vec(bytes)),
            authinfo: None,
        })
    }

    // The ACKEPOCH packet that answers a LEADERINFO, with the last zxid and this epoch: the current one, or -1.
    pub(crate) fn epoch_answer(&self, alloc: Global, epoch: i32) -> Result<QuorumPacket, NoMemory>
        ensures { IfOk result (λ p. p ≡ ack_epoch self.now epoch) }
    {
        let mut bytes = Vec::with_capacity(alloc, 4)?;
        put_int(&mut bytes, epoch)?;
        Ok(QuorumPacket {
            kind: PacketKind::AckEpoch.code(),
            zxid: self.last_zxid,
            bytes: Some(Blob::from_vec(bytes)),
            authinfo: None,
        })
    }

    // The ACK of the leader's epoch.
    pub(crate) fn acknowledgement(&self) -> QuorumPacket
        ensures { result ≡ epoch_ack self.now }
    {
        QuorumPacket {
            kind: PacketKind::Ack.code(),
            zxid: first_zxid(self.accepted_epoch),
            bytes: None,
            authinfo: None,
        }
    }
}

/// The answer to a PING: the same packet with this table of sessions as its data. Allocates nothing.
pub fn ping_answer(packet: QuorumPacket, table: Blob) -> QuorumPacket
    ensures { result ≡ ping_reply packet table }
{
    QuorumPacket {
        bytes: Some(table),
        ..packet
    }
}

/// The table of sessions in a PING's answer.
pub fn session_table(alloc: Global, rows: &[(i64, i32)]) -> Result<Blob, NoMemory>
    ensures table { IfOk result (λ table. table ≡ session_rows rows.now) }
    ensures length { IfOk result (λ table. length table ≡ 12 * length rows.now) }
{
    let mut bytes = Vec::new(alloc);
    for row in rows {
        put_long(&mut bytes, row.0)?;
        put_int(&mut bytes, row.1)?;
    }
    Ok(Blob::from_vec(bytes))
}
