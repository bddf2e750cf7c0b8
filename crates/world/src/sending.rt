//! What is sent to the leader.

ghost use Rattle.std.specs.Prelude.{◌∷◌, []};
ghost use Rattle.values.specs.Gains.{Puts};
ghost use Rattle.quorum_packet.specs.Packet.{packet_format};
ghost use Rattle.world.specs.Sending.{to_leader};

use crate::output::Output;
use quorum_packet::{QuorumPacket, write_packet};
use std::alloc::Global;
use values::{Blob, NoMemory};

/// Sends a packet to the leader.
///
/// Fails only if an allocation is refused; then nothing has been appended.
pub fn send_to_leader(
    alloc: Global,
    packet: &QuorumPacket,
    outputs: &mut Vec<Output>,
) -> Result<(), NoMemory>
    requires { packet_format.Writable packet.now }
    ensures { Puts result outputs.old.items (to_leader packet.now ∷ []) outputs.new.items }
{
    let mut bytes = Vec::new(alloc);
    write_packet(packet, &mut bytes)?;
    outputs.push(Output::ToLeader(Blob::from_vec(bytes)))?;
    Ok(())
}
