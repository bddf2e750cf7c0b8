//! A leader that replaces another one, and brings the observer up to date.

use crate::leading::{write_bare, write_leader_info};
use crate::supply::{Sender, Step, Supply};
use anyhow::Result;
use quorum_packet::PacketKind;
use std::alloc::Global;

/// The zxid before the first transaction of the new leaders' epoch.
pub const NEXT_EPOCH: i64 = 0x2_0000_0000;

impl Supply {
    // The leader sends a packet without data.
    fn follow(&mut self, kind: PacketKind, zxid: i64) -> Result<()> {
        let start = self.bytes.len();
        write_bare(kind, zxid, &mut self.bytes)?;
        self.send(Sender::Leader, start)
    }

    /// The leader leaves, another one connects and names its epoch, and sends the packet that brings the observer up to
    /// date.
    pub fn meet(&mut self, alloc: Global, kind: PacketKind, zxid: i64) -> Result<()> {
        self.add(Step::LeaderEnd)?;
        self.add(Step::LeaderUp)?;
        let start = self.bytes.len();
        write_leader_info(alloc, NEXT_EPOCH, &mut self.bytes)?;
        self.send(Sender::Leader, start)?;
        self.follow(kind, zxid)
    }

    /// The observer is up to date.
    pub fn serve(&mut self) -> Result<()> {
        self.follow(PacketKind::NewLeader, NEXT_EPOCH)?;
        self.follow(PacketKind::UpToDate, NEXT_EPOCH)
    }
}
