//! Logs of which a leader truncates the end.

use crate::messages::CONTENT;
use crate::supply::{EPOCH, Supply};
use anyhow::Result;
use quorum_packet::PacketKind;
use std::alloc::Global;

/// The sizes of the load.
#[derive(Drop)]
pub struct Logs {
    /// The number of nodes created below the root.
    pub parents: u32,
    /// The number of nodes created below each of these.
    pub children: u32,
    /// The number of these transactions that are kept.
    pub kept: u32,
    /// The number of leaders that truncate the others.
    pub times: u32,
}

impl Supply {
    /// Creates the nodes; then leaders connect, each of which truncates the transactions after the first ones.
    pub fn undo(&mut self, alloc: Global, sizes: &Logs) -> Result<()> {
        self.make_tree(alloc, sizes.parents, sizes.children, CONTENT)?;
        let last = EPOCH + i64::from(sizes.kept);
        for _ in 0..sizes.times {
            self.meet(alloc, PacketKind::Trunc, last)?;
            self.serve()?;
        }
        Ok(())
    }
}
