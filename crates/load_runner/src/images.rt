//! Images that a leader sends, and checkpoints.

ghost use Rattle.std.specs.Prelude.{◌≤◌};

use crate::following::NEXT_EPOCH;
use crate::leading::{image_child, image_parent, write_node};
use crate::supply::{Sender, Step, Supply};
use anyhow::{Result, ensure};
use jute::{put_int, put_string};
use quorum_packet::PacketKind;
use std::alloc::Global;

/// An image, and the checkpoints after it.
#[derive(Drop)]
pub struct Images {
    /// The number of nodes below the root.
    pub parents: u32,
    /// The number of nodes below each of these.
    pub children: u32,
    /// The length of the data of each of these, in bytes.
    pub content: u32,
    /// The length of the pieces in which the image comes, in bytes.
    pub piece: u32,
    /// The number of checkpoints taken afterwards.
    pub checkpoints: u32,
}

impl Supply {
    // Writes a node below the root, and the nodes below it.
    fn write_below(
        &mut self,
        alloc: Global,
        parent: u32,
        children: u32,
        content: &[u8],
    ) -> Result<()> {
        let path = image_parent(alloc, parent)?;
        write_node(path.as_str(), content, &mut self.bytes)?;
        for child in 0..children {
            let path = image_child(alloc, parent, child)?;
            write_node(path.as_str(), content, &mut self.bytes)?;
        }
        Ok(())
    }

    // Writes an image without sessions, in which every client may change every node.
    fn write_image(&mut self, alloc: Global, sizes: &Images) -> Result<()> {
        let content = Vec::from_elem(alloc, b'x', sizes.content as usize)?;
        put_int(&mut self.bytes, 0)?;
        put_int(&mut self.bytes, 0)?;
        write_node("", &[], &mut self.bytes)?;
        for parent in 0..sizes.parents {
            self.write_below(alloc, parent, sizes.children, content.as_slice())?;
        }
        put_string(&mut self.bytes, "/")?;
        Ok(put_string(&mut self.bytes, "BenWasHere")?)
    }

    /// A leader connects and sends an image; then checkpoints are taken.
    pub fn load_image(&mut self, alloc: Global, sizes: &Images) -> Result<()> {
        ensure!(sizes.piece > 0, "a piece has no bytes");
        self.meet(alloc, PacketKind::Snap, NEXT_EPOCH)?;
        let start = self.bytes.len();
        self.write_image(alloc, sizes)?;
        let image = self.since(start);
        self.send_in_pieces(Sender::Leader, image, sizes.piece as usize)?;
        self.serve()?;
        for _ in 0..sizes.checkpoints {
            self.add(Step::Checkpoint)?;
        }
        Ok(())
    }
}
