//! How a leader brings the observer up to date.

use quorum_packet::{Item, PacketFeed, PacketKind};
use std::alloc::Global;

/// Reads a leader's first packets, until the one that says how the observer is brought up to date, and counts bytes.
#[derive(Drop)]
pub struct Greeting {
    alloc: Global,
    // What was read of it; None once the packet was read, or can't be.
    feed: Option<PacketFeed>,
    word: &'static str,
    bytes: u64,
}

// The word for a packet that says how the observer is brought up to date.
fn synchronisation(code: i32) -> Option<&'static str> {
    match PacketKind::from_code(code)? {
        PacketKind::Diff => Some("DIFF"),
        PacketKind::Trunc => Some("TRUNC"),
        PacketKind::Snap => Some("SNAP"),
        _ => None,
    }
}

impl Greeting {
    pub fn new(alloc: Global) -> Greeting {
        Greeting {
            alloc,
            feed: None,
            word: "",
            bytes: 0,
        }
    }

    /// A leader was connected.
    pub fn begin(&mut self) {
        self.feed = Some(PacketFeed::new(self.alloc));
        self.word = "";
        self.bytes = 0;
    }

    /// DIFF, TRUNC or SNAP, once the packet was read.
    pub fn word(&self) -> &'static str {
        self.word
    }

    /// How many bytes the leader has sent since it was connected.
    pub fn bytes(&self) -> u64 {
        self.bytes
    }

    /// The leader has sent these bytes.
    pub fn take(&mut self, bytes: &[u8]) {
        self.bytes = self.bytes.saturating_add(bytes.len() as u64);
        if let Some(feed) = self.feed.take() {
            self.read(feed, bytes);
        }
    }

    // Reads the packets up to the one that is looked for.
    fn read(&mut self, feed: PacketFeed, bytes: &[u8]) {
        let mut feed = feed;
        if feed.feed(bytes).is_err() {
            return;
        }
        for _ in 0..u64::MAX {
            match feed.next(self.alloc) {
                Ok(Some(Item::Packet(packet))) => {
                    if let Some(word) = synchronisation(packet.kind) {
                        self.word = word;
                        return;
                    }
                }
                Ok(Some(Item::Part(_))) | Err(_) => return,
                Ok(None) => break,
            }
        }
        self.feed = Some(feed);
    }
}
