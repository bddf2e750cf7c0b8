//! Many connections, each of which reads in its turn.

ghost use Rattle.std.specs.Prelude.{◌≤◌};

use crate::choice::Choice;
use crate::messages::{LONG_CONTENT, child_path};
use crate::sets::is_due;
use crate::supply::{Supply, opened};
use anyhow::{Result, ensure};
use std::alloc::Global;

/// The sizes of the load.
#[derive(Drop)]
pub struct Turns {
    /// The number of nodes created below the root.
    pub parents: u32,
    /// The number of nodes created below each of these.
    pub children: u32,
    /// The number of connections opened.
    pub connections: u32,
    /// How often each of them reads such a node.
    pub turns: u32,
    /// Of this many connections one watches what it reads; 0 means none.
    pub every: u32,
}

impl Supply {
    // Each connection reads the data of a child.
    fn take_turn(&mut self, alloc: Global, sizes: &Turns, choice: &mut Choice) -> Result<()>
        requires parents { 1 ≤ sizes.now.parents }
        requires children { 1 ≤ sizes.now.children }
    {
        for place in 0..sizes.connections {
            let parent = choice.below(sizes.parents);
            let child = choice.below(sizes.children);
            let path = child_path(alloc, parent, child)?;
            self.get(alloc, opened(place), &path, is_due(sizes.every, place))?;
        }
        Ok(())
    }

    /// Creates the nodes with 100 bytes of data each and opens the connections; then these read children in turn.
    pub fn take_turns(&mut self, alloc: Global, sizes: &Turns) -> Result<()> {
        ensure!(
            sizes.parents > 0 && sizes.children > 0,
            "there is nothing to be read"
        );
        self.make_tree(alloc, sizes.parents, sizes.children, LONG_CONTENT)?;
        self.open_all(alloc, sizes.connections)?;
        self.measure_from_here(alloc);
        let mut choice = Choice::new();
        for _ in 0..sizes.turns {
            self.take_turn(alloc, sizes, &mut choice)?;
        }
        Ok(())
    }
}
