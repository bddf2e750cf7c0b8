//! The nodes that are newer than a transaction.

ghost use Rattle.std.specs.Prelude.{◌≡◌, IfOk, OnOk};
ghost use Rattle.based_tree.specs.Inner.{is_newer, has_newer, HasNoNewer, AreNewerPaths, without_nodes_at, without_newer};

use data_tree::{Node, Tree};
use pairs::TextKey;
use std::alloc::Global;
use values::NoMemory;

/// Whether a later transaction than this one created the node, or changed its data or its children.
pub(crate) fn is_newer(zxid: i64, node: &Node) -> bool
    ensures { result ≡ is_newer zxid node.now }
{
    zxid < node.stat.czxid || zxid < node.stat.mzxid || zxid < node.stat.pzxid
}

/// Whether there is a node at the path that is newer than the transaction.
pub(crate) fn has_newer(zxid: i64, tree: &Tree, path: &str) -> bool
    ensures { result ≡ has_newer zxid tree.now path.now }
{
    match tree.node(path) {
        None => false,
        Some(node) => is_newer(zxid, node),
    }
}

/// A zxid than which no node of the tree is newer. It looks at each node.
pub(crate) fn newest_zxid(tree: &Tree) -> i64
    ensures { HasNoNewer result tree.now }
{
    let mut newest = i64::MIN;
    for (_, node) in tree.nodes() {
        let changed = node.stat.mzxid.max(node.stat.pzxid);
        newest = newest.max(node.stat.czxid.max(changed));
    }
    newest
}

// The paths of all newer nodes.
fn newer_paths(alloc: Global, zxid: i64, tree: &Tree) -> Result<Vec<TextKey>, NoMemory>
    ensures { IfOk result (λ paths. AreNewerPaths zxid tree.now paths.items) }
{
    let mut paths = Vec::new(alloc);
    for (path, node) in tree.nodes() {
        if is_newer(zxid, node) {
            paths.push(TextKey::new(alloc, path.as_str())?)?;
        }
    }
    Ok(paths)
}

// Removes the nodes at these paths.
fn remove_nodes(tree: &mut Tree, paths: &[TextKey])
    ensures { tree.new ≡ without_nodes_at paths.now tree.old }
{
    for path in paths {
        tree.remove_node(path.as_str());
    }
}

/// Removes all newer nodes; the sessions that list their paths stay. A refused allocation changes nothing.
pub(crate) fn remove_newer(alloc: Global, zxid: i64, tree: &mut Tree) -> Result<(), NoMemory>
    ensures { OnOk result (tree.new ≡ without_newer zxid tree.old) }
{
    let paths = newer_paths(alloc, zxid, tree)?;
    remove_nodes(tree, paths.as_slice());
    Ok(())
}
