//! Reads, one after another without waiting.

ghost use Rattle.std.specs.Prelude.{◌≤◌};

use crate::choice::Choice;
use crate::messages::{LONG_CONTENT, child_path, write_read};
use crate::supply::{CONNECTION, Sender, Supply};
use anyhow::{Result, ensure};
use client_records::ReadKind;
use std::alloc::Global;

/// The sizes of the load.
#[derive(Drop)]
pub struct Reads {
    /// The number of nodes created below the root.
    pub parents: u32,
    /// The number of nodes created below each of these.
    pub children: u32,
    /// The number of reads of such nodes that the client makes.
    pub reads: u32,
    /// How often it sends all of them.
    pub times: u32,
    /// The length of the pieces in which they come, in bytes.
    pub piece: u32,
}

impl Supply {
    // Writes the frames that read the data of children, in a mixed order.
    fn write_reads(&mut self, alloc: Global, sizes: &Reads) -> Result<()>
        requires parents { 1 ≤ sizes.now.parents }
        requires children { 1 ≤ sizes.now.children }
    {
        let mut choice = Choice::new();
        for _ in 0..sizes.reads {
            let parent = choice.below(sizes.parents);
            let child = choice.below(sizes.children);
            let path = child_path(alloc, parent, child)?;
            write_read(alloc, ReadKind::GetData, &path, false, &mut self.bytes)?;
        }
        Ok(())
    }

    /// Creates the nodes with 100 bytes of data each; then a client reads children.
    pub fn read(&mut self, alloc: Global, sizes: &Reads) -> Result<()> {
        ensure!(
            sizes.parents > 0 && sizes.children > 0 && sizes.piece > 0,
            "there is nothing to be read"
        );
        self.make_tree(alloc, sizes.parents, sizes.children, LONG_CONTENT)?;
        self.measure_from_here(alloc);
        let start = self.bytes.len();
        self.write_reads(alloc, sizes)?;
        let frames = self.since(start);
        for _ in 0..sizes.times {
            self.send_in_pieces(Sender::Client(CONNECTION), frames, sizes.piece as usize)?;
        }
        Ok(())
    }
}
