//! What a run of a loop shows.

use crate::others::Others;
use crate::played::{bytes_for, is_share, outputs_of, sent_between};
use crate::streams::Wire;
use intake::Hub;
use std::alloc::Global;
use std::test::Fail;

/// What a run of a loop shows, at a port of a hub.
#[derive(Drop)]
pub struct Seen {
    /// The bytes that were sent on, if they are framed by one `Up` and one `End`.
    pub sent: Option<Vec<u8>>,
    pub written: Vec<u8>,
    /// The bytes of the outputs for the port, by *Play*.
    pub owed: Vec<u8>,
    /// Each other port heard its share of the outputs.
    pub others_are_served: bool,
    /// How many writes came after the one that failed.
    pub late: usize,
    pub done_while_stuck: usize,
}

/// What the hub, the other ports and the wire show of the loop at this port.
pub fn see(
    alloc: Global,
    is_primed: bool,
    port: usize,
    hub: &Hub,
    others: &Others,
    wire: Wire,
) -> Result<Seen, Fail> {
    let taken = hub.taken();
    let outputs = outputs_of(alloc, is_primed, taken)?;
    let outputs = outputs.as_slice();
    let heard = others.heard.as_slice();
    Ok(Seen {
        sent: sent_between(alloc, taken, port)?,
        owed: bytes_for(alloc, outputs, port)?,
        others_are_served: is_share(heard, outputs, 1)
            && (others.leader.is_none() || is_share(heard, outputs, 0)),
        written: wire.bytes,
        late: wire.late,
        done_while_stuck: wire.done_while_stuck,
    })
}

impl Seen {
    /// Whether just these bytes were sent on.
    pub fn has_sent(&self, bytes: &[u8]) -> bool {
        match &self.sent {
            None => false,
            Some(sent) => sent.as_slice() == bytes,
        }
    }

    /// Whether what was sent on is a front of these bytes, what was written is one of what is owed, nothing was written
    /// after a write that failed, and everyone else was served.
    pub fn is_right(&self, bytes: &[u8]) -> bool {
        match &self.sent {
            None => false,
            Some(sent) => {
                bytes.starts_with(sent.as_slice())
                    && self.owed.as_slice().starts_with(self.written.as_slice())
                    && self.others_are_served
                    && self.late == 0
            }
        }
    }

    /// Whether it is right, all of these bytes were sent on, and all that is owed was written.
    pub fn is_whole(&self, bytes: &[u8]) -> bool {
        self.is_right(bytes)
            && self.has_sent(bytes)
            && self.written.as_slice() == self.owed.as_slice()
    }
}
