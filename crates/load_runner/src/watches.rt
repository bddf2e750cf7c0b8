//! Watches, and the events that use them up.

use crate::messages::{CONTENT, parent_path, set_data, watched_path, write_read};
use crate::supply::{CONNECTION, Sender, Step, Supply, opened};
use anyhow::Result;
use client_records::ReadKind;
use std::alloc::Global;

/// The sizes of the load.
#[derive(Drop)]
pub struct Watched {
    /// The number of connections opened.
    pub connections: u32,
    /// The number of watches that each of them leaves and that never fire.
    pub watches: u32,
    /// The number of nodes that each of them watches besides.
    pub nodes: u32,
    /// The number of these nodes that are set afterwards.
    pub sets: u32,
    /// The number of other watches that never fire.
    pub others: u32,
}

impl Supply {
    // A connection watches paths of 20 bytes, where there are no nodes.
    fn set_watches(&mut self, alloc: Global, connection: u64, watches: u32) -> Result<()> {
        for watch in 0..watches {
            let path = watched_path(alloc, connection, watch)?;
            let start = self.bytes.len();
            write_read(alloc, ReadKind::Exists, &path, true, &mut self.bytes)?;
            self.send(Sender::Client(connection), start)?;
        }
        Ok(())
    }

    // Each of the connections leaves its own watches.
    fn set_own_watches(&mut self, alloc: Global, connections: u32, watches: u32) -> Result<()> {
        for place in 0..connections {
            self.set_watches(alloc, opened(place), watches)?;
        }
        Ok(())
    }

    // Each of the connections watches a node below the root.
    fn watch_node(&mut self, alloc: Global, connections: u32, node: u32) -> Result<()> {
        let path = parent_path(alloc, node)?;
        let start = self.bytes.len();
        write_read(alloc, ReadKind::GetData, &path, true, &mut self.bytes)?;
        let frame = self.since(start);
        for place in 0..connections {
            self.add(Step::Bytes(Sender::Client(opened(place)), frame))?;
        }
        Ok(())
    }

    // Each of the connections watches the same nodes, and then some of these are set.
    fn fire(&mut self, alloc: Global, sizes: &Watched) -> Result<()> {
        for node in 0..sizes.nodes {
            self.watch_node(alloc, sizes.connections, node)?;
        }
        for node in 0..sizes.sets {
            let path = parent_path(alloc, node)?;
            let body = set_data(alloc, path, CONTENT)?;
            self.tell(alloc, body)?;
        }
        Ok(())
    }

    /// Opens connections that leave watches and all watch the same nodes besides; then some of these nodes are set.
    pub fn watch(&mut self, alloc: Global, sizes: &Watched) -> Result<()> {
        self.set_watches(alloc, CONNECTION, sizes.others)?;
        self.open_all(alloc, sizes.connections)?;
        self.set_own_watches(alloc, sizes.connections, sizes.watches)?;
        self.make_parents(alloc, sizes.nodes, CONTENT)?;
        self.fire(alloc, sizes)
    }
}
