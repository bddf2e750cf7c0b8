//! The packets by which a learner forwards what its clients ask, and asks for their sessions.
//!
//! The law that goes over this: `Sending`.

ghost use Rattle.std.specs.Prelude.{◌≡◌, ◌<◌, ◌≤◌, ◌^◌, length, All, IfOk};
ghost use Rattle.jute.specs.Owned.{id_format};
ghost use Rattle.quorum_packet.specs.Packet.{packet_format};
ghost use Rattle.learner_sync.specs.Answers.{request_of, session_request, session_question};

use jute::{Id, put_int, put_long};
use quorum_packet::{PacketKind, QuorumPacket};
use std::alloc::Global;
use values::{Blob, Listed, NoMemory};

// The zxid of a request, which has none.
const REQUEST_ZXID: i64 = -1;

// The type of a request for a session.
const CREATE_SESSION: i32 = -10;

// A copy of the ids.
fn copied_ids(alloc: Global, ids: &[Id]) -> Result<Listed<Id>, NoMemory>
    ensures { IfOk result (λ copy. copy ≡ ids.now) }
{
    Ok(Listed::from_vec(ids.to_vec(alloc)?))
}

/// The packet that forwards a client's frame as it came, without its length, with the ids that the client has shown.
/// It can be written if the frame is shorter than 2^30 bytes and there are at most 1,024 ids. Fails only if an
/// allocation is refused.
pub fn request_of(
    alloc: Global,
    session: i64,
    frame: &[u8],
    ids: &[Id],
) -> Result<QuorumPacket, NoMemory>
    ensures packet { IfOk result (λ p. p ≡ request_of session frame.now ids.now) }
    ensures writable { length frame.now < 2 ^ 30 → length ids.now ≤ 1024 → All id_format.Writable ids.now
        → IfOk result (λ p. packet_format.Writable p) }
{
    let mut bytes = Vec::with_capacity(alloc, 8 + frame.len())?;
    put_long(&mut bytes, session)?;
    bytes.extend_from_slice(frame)?;
    Ok(QuorumPacket {
        kind: PacketKind::Request.code(),
        zxid: REQUEST_ZXID,
        bytes: Some(Blob::from_vec(bytes)),
        authinfo: Some(copied_ids(alloc, ids)?),
    })
}

/// The packet that asks for a session of this id and timeout, in milliseconds. Fails only if an allocation is refused.
pub fn session_request(alloc: Global, session: i64, time_out: i32) -> Result<QuorumPacket, NoMemory>
    ensures packet { IfOk result (λ p. p ≡ session_request session time_out) }
    ensures writable { IfOk result (λ p. packet_format.Writable p) }
{
    let mut bytes = Vec::with_capacity(alloc, 20)?;
    put_long(&mut bytes, session)?;
    put_int(&mut bytes, 0)?;
    put_int(&mut bytes, CREATE_SESSION)?;
    put_int(&mut bytes, time_out)?;
    Ok(QuorumPacket {
        kind: PacketKind::Request.code(),
        zxid: REQUEST_ZXID,
        bytes: Some(Blob::from_vec(bytes)),
        authinfo: None,
    })
}

/// The packet that asks whether a session that a client brought lives. The timeout is the one that the client is told,
/// in milliseconds. Fails only if an allocation is refused.
pub fn session_question(
    alloc: Global,
    session: i64,
    time_out: i32,
) -> Result<QuorumPacket, NoMemory>
    ensures packet { IfOk result (λ p. p ≡ session_question session time_out) }
    ensures writable { IfOk result (λ p. packet_format.Writable p) }
{
    let mut bytes = Vec::with_capacity(alloc, 12)?;
    put_long(&mut bytes, session)?;
    put_int(&mut bytes, time_out)?;
    Ok(QuorumPacket {
        kind: PacketKind::Revalidate.code(),
        zxid: REQUEST_ZXID,
        bytes: Some(Blob::from_vec(bytes)),
        authinfo: None,
    })
}
