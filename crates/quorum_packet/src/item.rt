//! The items of a leader's stream.

use crate::packet::{Packet, QuorumPacket};
use snapshot_codec::ImagePart;

/// An item of a leader's stream.
#[derive(Debug, Drop)]
pub enum Item {
    Packet(QuorumPacket),
    /// A part of the image that follows a SNAP packet.
    Part(ImagePart),
}

/// An item of a leader's stream whose packet is lent.
#[derive(Drop)]
pub enum LentItem<'a> {
    Packet(Packet<'a>),
    /// A part of the image that follows a SNAP packet.
    Part(ImagePart),
}
