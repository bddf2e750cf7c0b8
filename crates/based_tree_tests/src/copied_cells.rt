//! Cells that are copied from a tree, and put in place of those that it has.

use crate::going_back::{WITH_NODE, begin, create, shown};
use data_tree::{Cells, Tree};
use ephemerals::TextSet;
use std::alloc::Global;
use std::test::Fail;

// The node is removed. The root still lists it, and so does its session.
const WITHOUT_NODE: &str = "3 1 2 -1 5000";

// A tree with the ephemeral node /e of session 7.
fn with_node(alloc: Global) -> Result<Tree, Fail> {
    let mut tree = Tree::fresh(alloc)?;
    tree.apply(alloc, &begin())?;
    tree.apply(alloc, &create(alloc)?)?;
    Ok(tree)
}

// Puts the cells in place of the tree's cell at /e.
fn replace(alloc: Global, tree: &mut Tree, cells: &mut Cells) -> Result<(), Fail> {
    let mut paths = TextSet::new(alloc);
    paths.insert(alloc, "/e")?;
    tree.replace_cells(alloc, &paths, cells)?;
    Ok(())
}

#[test]
fn node_is_removed(rt: HostRuntime) -> Result<(), Fail> {
    let mut tree = with_node(rt.alloc())?;
    tree.remove_node("/e");
    tree.remove_node("/missing");
    assert_eq!(rt; shown(rt.alloc(), &tree)?.as_str(), WITHOUT_NODE);
    Ok(())
}

#[test]
fn whole_cell_is_copied(rt: HostRuntime) -> Result<(), Fail> {
    let alloc = rt.alloc();
    let mut tree = with_node(alloc)?;
    let mut cells = Cells::none(alloc, tree.hash_key());
    cells.copy_cell(alloc, &tree, "/e")?;
    tree.remove_node("/e");
    replace(alloc, &mut tree, &mut cells)?;
    assert_eq!(rt; shown(alloc, &tree)?.as_str(), WITH_NODE);
    Ok(())
}

#[test]
fn cell_is_copied_without_its_node(rt: HostRuntime) -> Result<(), Fail> {
    let alloc = rt.alloc();
    let mut tree = with_node(alloc)?;
    let mut cells = Cells::none(alloc, tree.hash_key());
    cells.copy_owners(alloc, &tree, "/e")?;
    replace(alloc, &mut tree, &mut cells)?;
    assert_eq!(rt; shown(alloc, &tree)?.as_str(), WITHOUT_NODE);
    Ok(())
}
