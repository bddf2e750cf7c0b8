//! Cells that are taken out of a tree, so that groups of transactions can be applied separately.

ghost use Rattle.std.specs.Prelude.{◌≡◌, [], pos, OnOk, OnErr, IfOk};
ghost use Rattle.data_tree.specs.Cells.{cells_at, without_cells, with_cells, effect_in_cells, HasPartOfCells, CopiesCell, without_node};
ghost use Rattle.data_tree.specs.Making.{empty_state};
ghost use Rattle.data_tree.specs.Meaning.{answer_of};
ghost use Rattle.data_tree.specs.Refused.{IsLeftByRefused};

use crate::outcome::{Outcome, Triggers};
use crate::tree::Tree;
use ephemerals::TextSet;
use node_map::HashKey;
use std::alloc::Global;
use std::marker::Model;
use txn_codec::{Body, Txn};
use values::NoMemory;

/// The cells at some paths, taken out of a tree by `Tree::take_cells`: the nodes there, and the sessions that list
/// these paths. Its model is a state without sessions.
#[derive(Drop)]
pub struct Cells {
    tree: Tree,
}

impl Model for Cells {
    ghost use Rattle.std.specs.FinMap as finmap;
    ghost use Rattle.data_tree.specs.State.{State, state_code};
    ghost use Rattle.node_map.specs.contracts.node.Node as node;

    ghost Value = { State };

    ghost coded = { state_code node.the_row.coded };

    ghost view = { λ c. record {
      nodes = c.tree.nodes;
      pairs = c.tree.pairs;
      sessions = finmap.empty;
    } };
}

impl Tree {
    /// Moves the cells at these paths out of the tree and leaves empty cells. A refused allocation leaves the tree as
    /// it was.
    pub fn take_cells(&mut self, alloc: Global, paths: &TextSet) -> Result<Cells, NoMemory>
        ensures cells { IfOk result (λ cells. cells ≡ cells_at paths.now self.old) }
        ensures rest { OnOk result (self.new ≡ without_cells paths.now self.old) }
        ensures err { OnErr result (self.new ≡ self.old) }
    {
        Ok(Cells {
            tree: self.take_tree(alloc, paths)?,
        })
    }

    /// Moves the cells into the tree, where they replace empty cells. After a refused allocation the tree has a part of
    /// them, the rest is lost, and the caller drops the tree.
    pub fn put_cells(&mut self, alloc: Global, cells: Cells) -> Result<(), NoMemory>
        ensures ok { OnOk result (self.new ≡ with_cells cells self.old) }
        ensures err { OnErr result (HasPartOfCells cells self.old self.new) }
    {
        self.put_tree(alloc, cells.tree)
    }

    /// Replaces the cells at these paths by those that the others have there, which become empty. After a refused
    /// allocation the caller drops the tree and the others.
    pub fn replace_cells(
        &mut self,
        alloc: Global,
        paths: &TextSet,
        others: &mut Cells,
    ) -> Result<(), NoMemory>
        ensures { OnOk result
            (self.new ≡ with_cells (cells_at paths.now others.old) (without_cells paths.now self.old)) }
    {
        let cells = others.tree.take_tree(alloc, paths)?;
        // What is replaced is dropped first.
        drop(self.take_tree(alloc, paths)?);
        self.put_tree(alloc, cells)
    }
}

impl Cells {
    /// Empty cells, which find their nodes by this key. Allocates nothing.
    pub fn none(alloc: Global, key: HashKey) -> Cells
        ensures { result ≡ empty_state }
    {
        Cells {
            tree: Tree::empty_with_key(alloc, key),
        }
    }

    /// Replaces the cell at the path by a copy of the tree's. After a refused allocation a part of that cell is missing.
    pub fn copy_cell(&mut self, alloc: Global, tree: &Tree, path: &str) -> Result<(), NoMemory>
        ensures { OnOk result (CopiesCell path.now tree.now self.old self.new) }
    {
        self.tree.copy_cell(alloc, tree, path)
    }

    /// Replaces the cell at the path by a copy of the tree's without its node. After a refused allocation a part of that
    /// cell is missing.
    pub fn copy_owners(&mut self, alloc: Global, tree: &Tree, path: &str) -> Result<(), NoMemory>
        ensures { OnOk result
            (CopiesCell path.now (without_node path.now tree.now) self.old self.new) }
    {
        self.tree.copy_owners(alloc, tree, path)
    }

    /// Applies a transaction to the cells. If they include its footprint, it leaves the same cells and has the same
    /// outcome as in the whole tree, whatever the other cells are. A session's timeout isn't set.
    ///
    /// A refused allocation leaves what it leaves in `Tree::apply`: a multi has applied a prefix of its parts, after a
    /// closeSession the cells are unspecified, and any other transaction leaves the cells as they were.
    pub fn apply(&mut self, alloc: Global, txn: &Txn) -> Result<Outcome, NoMemory>
        ensures cells { OnOk result (self.new ≡ (effect_in_cells self.old txn.now).state) }
        ensures answer { IfOk result (λ o. o ≡ answer_of (effect_in_cells self.old txn.now)) }
        ensures err { OnErr result (IsLeftByRefused txn.now.header txn.now.body self.old self.new) }
    {
        if let Body::CreateSession(_) = &txn.body {
            let none = Triggers::from_vec(Vec::new(alloc));
            return Ok(Outcome::without_parts(alloc, 0, none));
        }
        self.tree.apply(alloc, txn)
    }
}
