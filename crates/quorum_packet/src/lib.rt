//! Packets between a leader and its servers (zookeeper.jute of ZooKeeper 3.4), and the leader's stream.
//!
//! After a SNAP packet comes an image of the leader's state, which is read in parts. A `PacketFeed` takes the leader's
//! bytes in whatever pieces they come, and returns the complete packets and parts. They don't depend on how the bytes
//! were cut. A fault ends the stream, and is returned from then on. The work is linear in the bytes: of a packet or
//! part that comes in pieces, each piece is scanned once.
//!
//! ```text
//! feed.feed(piece)?;
//! while let Some(item) = feed.next(alloc)? { .. }  // Item::Packet or Item::Part
//! feed.held()                                      // the number of bytes that wait for more
//! feed.end()                                       // whether the stream may end here
//! ```
//!
//! Where no packet has to be owned, the feed is opened for a piece, and each packet is lent from the bytes in which it
//! lies: those of the piece, unless an incomplete value waits in front of them.
//!
//! ```text
//! let (source, progress) = feed.open(piece)?;
//! let mut items = LentItems::new(source.as_slice(), progress);
//! while let Some(item) = items.next(alloc)? { .. }  // LentItem::Packet or LentItem::Part
//! let (used, progress) = items.close();
//! let feed = PacketFeed::resume(source, used, progress)?;
//! ```
#![tactic(auto)]

mod feed;
mod item;
mod kind;
mod law;
mod lending;
mod packet;
mod phase;
mod unseen;

pub use feed::PacketFeed;
pub use item::{Item, LentItem};
pub use kind::PacketKind;
pub use law::{grouped_items, leader_stream, whole_items};
pub use lending::{LentItems, Progress, Source};
pub use packet::{Packet, QuorumPacket, write_packet};
pub use phase::Phase;
