//! Tests of the crates that read and write bytes: `values`, `jute` and `quorum_packet`. They are a crate of their own,
//! since a crate with tests is proved twice.
#![tactic(auto)]

#[cfg(test)]
mod field_rows;
#[cfg(test)]
mod packet_rows;
#[cfg(test)]
mod record_rows;
#[cfg(test)]
mod text_rows;
#[cfg(test)]
mod value_rows;

ghost use Rattle.std.specs.Prelude.{◌<◌, ◌^◌, length};

use quorum_packet::{PacketKind, QuorumPacket, write_packet};
use std::alloc::Global;
use values::{Blob, NoMemory};

/// The bytes of a packet with this data and without authinfo.
#[tactic(auto, unfolding(quorum_packet::specs::Packet::packet_format))]
pub fn packet_bytes(
    alloc: Global,
    kind: PacketKind,
    zxid: i64,
    bytes: &[u8],
) -> Result<Vec<u8>, NoMemory>
    requires { length bytes.now < 2 ^ 31 }
{
    let packet = QuorumPacket {
        kind: kind.code(),
        zxid,
        bytes: Some(Blob::new(alloc, bytes)?),
        authinfo: None,
    };
    let mut out = Vec::new(alloc);
    write_packet(&packet, &mut out)?;
    Ok(out)
}
