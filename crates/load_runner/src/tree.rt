//! The nodes that a load begins with.

use crate::messages::{child_path, create, parent_path};
use crate::supply::Supply;
use anyhow::Result;
use std::alloc::Global;

impl Supply {
    // Creates the nodes below a parent.
    fn make_children_of(
        &mut self,
        alloc: Global,
        parent: u32,
        children: u32,
        content: &[u8],
    ) -> Result<()> {
        for child in 0..children {
            let path = child_path(alloc, parent, child)?;
            let body = create(alloc, path, content)?;
            self.tell(alloc, body)?;
        }
        Ok(())
    }

    /// Creates nodes below the root.
    pub fn make_parents(&mut self, alloc: Global, parents: u32, content: &[u8]) -> Result<()> {
        for parent in 0..parents {
            let path = parent_path(alloc, parent)?;
            let body = create(alloc, path, content)?;
            self.tell(alloc, body)?;
        }
        Ok(())
    }

    /// Creates nodes below each of the nodes below the root.
    pub fn make_children(
        &mut self,
        alloc: Global,
        parents: u32,
        children: u32,
        content: &[u8],
    ) -> Result<()> {
        for parent in 0..parents {
            self.make_children_of(alloc, parent, children, content)?;
        }
        Ok(())
    }

    /// Creates nodes below the root, and nodes below each of these, all with the same data.
    pub fn make_tree(
        &mut self,
        alloc: Global,
        parents: u32,
        children: u32,
        content: &[u8],
    ) -> Result<()> {
        self.make_parents(alloc, parents, content)?;
        self.make_children(alloc, parents, children, content)
    }
}
