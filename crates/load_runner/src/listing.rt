//! Long lists of children.

use crate::messages::{CONTENT, parent_path, write_read};
use crate::supply::{CONNECTION, Sender, Step, Supply};
use anyhow::Result;
use client_records::ReadKind;
use std::alloc::Global;

impl Supply {
    /// Creates so many children of one node; then a client lists them so many times.
    pub fn list(&mut self, alloc: Global, children: u32, times: u32) -> Result<()> {
        self.make_tree(alloc, 1, children, CONTENT)?;
        self.measure_from_here(alloc);
        let path = parent_path(alloc, 0)?;
        let start = self.bytes.len();
        write_read(alloc, ReadKind::GetChildren, &path, false, &mut self.bytes)?;
        let frame = self.since(start);
        for _ in 0..times {
            self.add(Step::Bytes(Sender::Client(CONNECTION), frame))?;
        }
        Ok(())
    }
}
