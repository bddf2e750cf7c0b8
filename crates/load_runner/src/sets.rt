//! Transactions with reads in between.

ghost use Rattle.std.specs.Prelude.{◌≤◌, length};

use crate::choice::Choice;
use crate::messages::{CONTENT, PATH_LIMIT, child_path, set_data, write_read};
use crate::supply::{CONNECTION, Sender, Supply};
use anyhow::Result;
use client_records::ReadKind;
use paths_and_acls::Path;
use std::alloc::Global;

/// The sizes of the load.
#[derive(Drop)]
pub struct Sets {
    /// The number of nodes created below the root.
    pub parents: u32,
    /// The number of nodes created below each of these.
    pub children: u32,
    /// How often the data of such a node is set.
    pub sets: u32,
    /// A node is read after each this many sets; 0 means never.
    pub every: u32,
}

/// Whether this number is one of every so many; 0 means none.
pub fn is_due(every: u32, number: u32) -> bool {
    every != 0 && number % every == 0
}

impl Supply {
    /// A client reads a node's data, and may watch it.
    pub fn get(&mut self, alloc: Global, connection: u64, path: &Path, watch: bool) -> Result<()>
        requires { length path.now ≤ PATH_LIMIT }
    {
        let start = self.bytes.len();
        write_read(alloc, ReadKind::GetData, path, watch, &mut self.bytes)?;
        self.send(Sender::Client(connection), start)
    }

    // Sets the data of children, and reads some of them before.
    fn set_children(&mut self, alloc: Global, sizes: &Sets) -> Result<()>
        requires parents { 1 ≤ sizes.now.parents }
        requires children { 1 ≤ sizes.now.children }
    {
        let mut choice = Choice::new();
        for set in 0..sizes.sets {
            let parent = choice.below(sizes.parents);
            let child = choice.below(sizes.children);
            let path = child_path(alloc, parent, child)?;
            if is_due(sizes.every, set) {
                self.get(alloc, CONNECTION, &path, false)?;
            }
            let body = set_data(alloc, path, CONTENT)?;
            self.tell(alloc, body)?;
        }
        Ok(())
    }

    /// Creates the nodes, and then sets and reads children in a mixed order.
    pub fn set(&mut self, alloc: Global, sizes: &Sets) -> Result<()> {
        self.make_tree(alloc, sizes.parents, sizes.children, CONTENT)?;
        if sizes.parents == 0 || sizes.children == 0 {
            return Ok(());
        }
        self.set_children(alloc, sizes)
    }
}
