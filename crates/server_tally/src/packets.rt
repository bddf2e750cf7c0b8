//! The packets in a stream.

/// How many bytes of a packet are looked at: its length and its xid.
const HEAD: usize = 8;

/// What some bytes of a stream brought.
#[derive(Clone, Copy, Debug, PartialEq, Eq)]
pub struct Found {
    pub packets: u64,
    /// Those with xid -1, which are events and no answers.
    pub notices: u64,
}

/// How far the packets of a stream were counted: each counts when its length and its xid have come.
#[derive(Clone, Copy, Debug)]
pub struct PacketCount {
    head: [u8; HEAD],
    // How many bytes of the head have come.
    have: usize,
    // How many bytes of the packet are still to come after its head.
    left: usize,
}

// The bytes of a packet after its head.
fn rest_of(head: [u8; HEAD]) -> usize {
    let [a, b, c, d, _, _, _, _] = head;
    let len = u32::from_be_bytes([a, b, c, d]);
    (len as usize).saturating_sub(4)
}

fn is_notice(head: [u8; HEAD]) -> bool {
    let [_, _, _, _, a, b, c, d] = head;
    u32::from_be_bytes([a, b, c, d]) == u32::MAX
}

// The bytes after the first ones.
fn after(bytes: &[u8], first: usize) -> &[u8] {
    bytes.get(first..).unwrap_or(&[])
}

impl PacketCount {
    pub fn new() -> PacketCount {
        PacketCount {
            head: [0; HEAD],
            have: 0,
            left: 0,
        }
    }

    // Takes what is left of the packet off the bytes.
    fn skip<'a>(&mut self, bytes: &'a [u8]) -> &'a [u8] {
        let skipped = self.left.min(bytes.len());
        self.left = self.left.saturating_sub(skipped);
        after(bytes, skipped)
    }

    // Adds a byte of a head. Returns whether it is whole.
    fn add(&mut self, byte: u8) -> bool {
        if let Some(place) = self.head.get_mut(self.have) {
            *place = byte;
        }
        self.have = self.have.saturating_add(1);
        self.have >= HEAD
    }

    // Takes a whole head off the bytes, if they have one, and else a byte of it. Returns whether it is whole.
    fn take_head(&mut self, bytes: &mut &[u8]) -> bool {
        if self.have == 0 {
            if let Some(head) = bytes.first_chunk::<HEAD>() {
                self.head = *head;
                *bytes = after(bytes, HEAD);
                return true;
            }
        }
        match bytes.split_first() {
            None => false,
            Some((byte, rest)) => {
                *bytes = rest;
                self.add(*byte)
            }
        }
    }

    // Counts the packet whose head is whole.
    fn end_head(&mut self, found: &mut Found) {
        found.packets = found.packets.saturating_add(1);
        if is_notice(self.head) {
            found.notices = found.notices.saturating_add(1);
        }
        self.left = rest_of(self.head);
        self.have = 0;
    }

    /// Counts the packets whose heads end in these bytes, which come next.
    pub fn count(&mut self, bytes: &[u8]) -> Found {
        let mut found = Found {
            packets: 0,
            notices: 0,
        };
        let mut rest = bytes;
        // Each step takes a byte of a head at least.
        for _ in 0..bytes.len() {
            rest = self.skip(rest);
            if rest.is_empty() {
                break;
            }
            if self.take_head(&mut rest) {
                self.end_head(&mut found);
            }
        }
        found
    }
}
