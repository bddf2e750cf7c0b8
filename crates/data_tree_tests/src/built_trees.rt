//! Trees that are built node by node, and copied.

use crate::path_of;
use data_tree::{Node, Tree};
use ephemerals::TextSet;
use jute::StatPersisted;
use paths_and_acls::AclList;
use std::alloc::Global;
use std::test::Fail;
use values::Listed;

// Numbers that are all different, with the owner.
fn stat_of(owner: i64) -> StatPersisted {
    StatPersisted {
        czxid: 1,
        mzxid: 2,
        ctime: 3,
        mtime: 4,
        version: 5,
        cversion: 6,
        aversion: 7,
        ephemeral_owner: owner,
        pzxid: 8,
    }
}

// A node without data, entries and children, with this owner.
fn node_of(alloc: Global, owner: i64) -> Result<Node, Fail> {
    Ok(Node {
        bytes: None,
        acl: AclList::from_entries(Listed::from_vec(Vec::new(alloc))),
        stat: stat_of(owner),
        mark: 0,
        children: TextSet::new(alloc),
    })
}

// Adds a node of the owner, and returns whether there was a place.
fn put(alloc: Global, tree: &mut Tree, text: &str, owner: i64) -> Result<bool, Fail> {
    let path = path_of(alloc, text).ok_or("a path")?;
    Ok(tree.put_node(alloc, &path, node_of(alloc, owner)?)?)
}

// A root that lists these names.
fn root_of(alloc: Global, names: &[&str]) -> Result<Node, Fail> {
    let mut root = node_of(alloc, 0)?;
    for name in names {
        root.children.insert(alloc, name)?;
    }
    Ok(root)
}

// Adds the root and then /x/y, and returns whether the tree is whole.
fn is_whole_below(alloc: Global, tree: &mut Tree, root: Node) -> Result<bool, Fail> {
    let path = path_of(alloc, "/").ok_or("a path")?;
    tree.put_node(alloc, &path, root)?;
    put(alloc, tree, "/x", 0)?;
    put(alloc, tree, "/x/y", 0)?;
    Ok(tree.is_whole(alloc)?)
}

// A tree of /x/y whose root listed the names before, and whether it is whole.
fn is_whole_from(alloc: Global, names: &[&str]) -> Result<bool, Fail> {
    let root = root_of(alloc, names)?;
    let mut tree = Tree::empty(alloc);
    is_whole_below(alloc, &mut tree, root)
}

// Session 9 has a timeout of 5 seconds; then come nodes, and for each a sign whether there was a place.
fn make(alloc: Global, tree: &mut Tree, nodes: &[(&str, i64)]) -> Result<String, Fail> {
    tree.put_session(9, 5000)?;
    let mut signs = String::new(alloc);
    for (text, owner) in nodes {
        signs.push_str(if put(alloc, tree, text, *owner)? {
            "+"
        } else {
            "-"
        })?;
    }
    Ok(signs)
}

// Adds /a too early, the root, its children, and nodes that have no place any more.
fn make_whole(alloc: Global, tree: &mut Tree) -> Result<String, Fail> {
    make(
        alloc,
        tree,
        &[
            ("/a", 0),
            ("/", 0),
            ("/b", 0),
            ("/a", 9),
            ("/a", 0),
            ("/", 0),
        ],
    )
}

// The names of the root's children, one after the other.
fn names(alloc: Global, tree: &Tree) -> Result<String, Fail> {
    let mut text = String::new(alloc);
    for name in tree.children("/").ok_or("no root")?.iter() {
        text.push_str(name.as_str())?;
    }
    Ok(text)
}

// Whether the tree is whole, and session 9 has a timeout of 5 seconds and owns /a.
fn is_as_made(alloc: Global, tree: &Tree) -> Result<bool, Fail> {
    let owns = tree.ephemerals().contains(9, "/a");
    Ok(tree.is_whole(alloc)? && owns && tree.sessions().get(9) == Some(5000))
}

// Whether a copy of the tree keeps the timeout that the tree then loses.
fn is_copied(alloc: Global, tree: &mut Tree) -> Result<bool, Fail> {
    let copy = tree.copy()?;
    tree.put_session(9, 0)?;
    Ok(is_as_made(alloc, &copy)? && names(alloc, &copy)?.as_str() == "ab")
}

// For each node a sign whether there was a place, and then whether the tree is as it was built.
fn signs_and_tree(alloc: Global, tree: &mut Tree) -> Result<(String, bool), Fail> {
    let signs = make_whole(alloc, tree)?;
    let is_made = is_as_made(alloc, tree)?;
    Ok((signs, is_made))
}

fn made(alloc: Global) -> Result<(String, bool), Fail> {
    let mut tree = Tree::empty(alloc);
    signs_and_tree(alloc, &mut tree)
}

// Whether a copy is as the tree was built, and whether the tree itself still is.
fn copy_and_tree(alloc: Global, tree: &mut Tree) -> Result<(bool, bool), Fail> {
    make_whole(alloc, tree)?;
    let is_copied = is_copied(alloc, tree)?;
    Ok((is_copied, is_as_made(alloc, tree)?))
}

fn copied(alloc: Global) -> Result<(bool, bool), Fail> {
    let mut tree = Tree::empty(alloc);
    copy_and_tree(alloc, &mut tree)
}

// How many nodes a tree shows, and their paths in ascending order, each after a blank.
fn paths(alloc: Global, tree: &Tree) -> Result<String, Fail> {
    let mut count: u32 = 0;
    let mut paths = TextSet::new(alloc);
    for (path, _) in tree.nodes() {
        count = count.wrapping_add(1);
        paths.insert(alloc, path.as_str())?;
    }
    listed(alloc, count, &paths)
}

fn listed(alloc: Global, count: u32, paths: &TextSet) -> Result<String, Fail> {
    let mut text = format!(in alloc; "{count}:")?;
    for path in paths.iter() {
        text.push_str(" ")?;
        text.push_str(path.as_str())?;
    }
    Ok(text)
}

fn paths_made(alloc: Global, tree: &mut Tree) -> Result<String, Fail> {
    make_whole(alloc, tree)?;
    paths(alloc, tree)
}

fn made_paths(alloc: Global) -> Result<String, Fail> {
    let mut tree = Tree::empty(alloc);
    paths_made(alloc, &mut tree)
}

#[test]
fn each_node_comes_once(rt: HostRuntime) -> Result<(), Fail> {
    assert_eq!(rt; made_paths(rt.alloc())?.as_str(), "3: / /a /b");
    Ok(())
}

#[test]
fn a_tree_is_made_node_by_node(rt: HostRuntime) -> Result<(), Fail> {
    let (signs, is_made) = made(rt.alloc())?;
    assert!(rt; signs.as_str() == "-+++--" && is_made);
    Ok(())
}

#[test]
fn a_copy_stands_alone(rt: HostRuntime) -> Result<(), Fail> {
    assert!(rt; copied(rt.alloc())? == (true, false));
    Ok(())
}

#[test]
fn a_whole_tree_lists_names(rt: HostRuntime) -> Result<(), Fail> {
    assert!(rt; is_whole_from(rt.alloc(), &[])?);
    assert!(rt; is_whole_from(rt.alloc(), &["x"])?);
    assert!(rt; !is_whole_from(rt.alloc(), &[""])?);
    assert!(rt; !is_whole_from(rt.alloc(), &["x/y"])?);
    Ok(())
}
