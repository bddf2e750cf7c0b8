//! Counts of what an engine gives.

use anyhow::{Context, Result, bail};
use observer_core::Output;

// The xid of an event's frame, after its length: -1.
const EVENT_XID: &[u8] = &[0xff, 0xff, 0xff, 0xff];

/// What an engine has given.
#[derive(Clone, Copy)]
pub struct Counts {
    /// Answers to clients.
    pub replies: u64,
    /// Events that tell clients of changes.
    pub events: u64,
    /// Packets to the leader.
    pub packets: u64,
    /// The bytes of all answers and events.
    pub bytes: u64,
}

// The sum of two counts.
fn sum(count: u64, more: u64) -> Result<u64> {
    count.checked_add(more).context("no count is left")
}

impl Counts {
    /// Counts an output. Nobody is closed under a load.
    pub fn add(&mut self, output: &Output) -> Result<()> {
        match output {
            Output::ToLeader(_) => self.packets = sum(self.packets, 1)?,
            Output::ToClient(_, frame) => {
                let frame = frame.as_slice();
                self.bytes = sum(self.bytes, frame.len() as u64)?;
                if frame.get(4..8) == Some(EVENT_XID) {
                    self.events = sum(self.events, 1)?;
                } else {
                    self.replies = sum(self.replies, 1)?;
                }
            }
            Output::CloseLeader(_) => bail!("the leader was refused"),
            Output::CloseClient(_) => bail!("a connection was closed"),
        }
        Ok(())
    }
}
