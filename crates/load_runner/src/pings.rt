//! Connections that send a frame of the greatest length.

ghost use Rattle.std.specs.Prelude.{◌≤◌};

use crate::messages::write_long_ping;
use crate::supply::{Sender, Supply, opened};
use anyhow::Result;
use std::alloc::Global;

// The length of the pieces in which the frame comes, of which there are two.
const HALF: usize = 524_290;

impl Supply {
    /// Opens so many connections, each of which then sends one long frame in two pieces.
    pub fn ping(&mut self, alloc: Global, connections: u32) -> Result<()> {
        self.open_all(alloc, connections)?;
        let start = self.bytes.len();
        write_long_ping(alloc, &mut self.bytes)?;
        let frame = self.since(start);
        for place in 0..connections {
            self.send_in_pieces(Sender::Client(opened(place)), frame, HALF)?;
        }
        Ok(())
    }
}
