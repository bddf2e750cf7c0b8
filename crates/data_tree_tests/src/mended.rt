//! Trees of images that were written while the leader went on, and what the rules of each dialect make of them.

use crate::path_of;
use crate::transactions::apply;
use data_tree::{Node, Tree};
use ephemerals::TextSet;
use jute::StatPersisted;
use paths_and_acls::{AclField, AclList};
use settings::Dialect;
use std::alloc::Global;
use std::test::Fail;
use txn_codec::{Body, Create, Delete, Operation, Owner, Txn, TxnHeader};
use values::Listed;

// A node with the cversion 6 and the pzxid 8, and without entries in its list.
fn node_of(alloc: Global, owner: i64) -> Result<Node, Fail> {
    let stat = StatPersisted {
        czxid: 1,
        mzxid: 2,
        ctime: 3,
        mtime: 4,
        version: 5,
        cversion: 6,
        aversion: 7,
        ephemeral_owner: owner,
        pzxid: 8,
    };
    Ok(Node {
        bytes: None,
        acl: AclList::from_entries(Listed::from_vec(Vec::new(alloc))),
        stat,
        mark: 0,
        children: TextSet::new(alloc),
    })
}

fn put(alloc: Global, tree: &mut Tree, text: &str, owner: i64) -> Result<(), Fail> {
    let path = path_of(alloc, text).ok_or("a path")?;
    tree.put_node(alloc, &path, node_of(alloc, owner)?)?;
    Ok(())
}

// The root, /a, and session 9's /e.
fn load(alloc: Global, tree: &mut Tree) -> Result<(), Fail> {
    put(alloc, tree, "/", 0)?;
    put(alloc, tree, "/a", 0)?;
    put(alloc, tree, "/e", 9)
}

// A transaction of session 9.
fn txn_of(rules: Dialect, zxid: i64, body: Body) -> Txn {
    let header = TxnHeader {
        client_id: 9,
        cxid: 1,
        zxid,
        time: 1000,
        rules,
    };
    Txn { header, body }
}

fn create_of(alloc: Global, path: &str, parent_cversion: i32) -> Result<Body, Fail> {
    Ok(Body::Single(Operation::Create(Create {
        path: path_of(alloc, path).ok_or("a path")?,
        bytes: None,
        acl: AclField::null(),
        owner: Owner::Nobody,
        asks_stat: false,
        parent_cversion,
    })))
}

fn delete_of(alloc: Global, path: &str) -> Result<Body, Fail> {
    let path = path_of(alloc, path).ok_or("a path")?;
    Ok(Body::Single(Operation::Delete(Delete {
        path,
        of_container: false,
    })))
}

// The end of the session, which lists this path.
fn close_of(alloc: Global, path: &str) -> Result<Body, Fail> {
    let mut listed = Vec::new(alloc);
    listed.push(path_of(alloc, path).ok_or("a path")?)?;
    Ok(Body::CloseSession(Listed::from_vec(listed)))
}

// Whether the node at the path has a list.
fn has_list(tree: &Tree, path: &str) -> bool {
    match tree.node(path) {
        None => false,
        Some(node) => !node.acl.is_empty(),
    }
}

// Appends the stored cversion and the pzxid of the root, and whether /a has a list.
fn add_root(alloc: Global, tree: &Tree, text: &mut String) -> Result<(), Fail> {
    let root = tree.node("/").ok_or("no root")?;
    let shown = format!(in alloc;
        ": {} {} {}",
        root.stat.cversion,
        root.stat.pzxid,
        has_list(tree, "/a")
    )?;
    text.push_str(shown.as_str())?;
    Ok(())
}

// Applies the transaction to such a tree, and appends the outcome and what the root has then.
fn apply_in(alloc: Global, tree: &mut Tree, txn: &Txn, text: &mut String) -> Result<(), Fail> {
    load(alloc, tree)?;
    apply(alloc, tree, txn, text)?;
    add_root(alloc, tree, text)
}

// Appends what the dialect makes of the transaction.
fn add_told(
    alloc: Global,
    rules: Dialect,
    zxid: i64,
    body: &Body,
    text: &mut String,
) -> Result<(), Fail> {
    let txn = txn_of(rules, zxid, body.clone()?);
    let mut tree = Tree::empty(alloc);
    apply_in(alloc, &mut tree, &txn, text)
}

fn add_both(alloc: Global, zxid: i64, body: &Body, text: &mut String) -> Result<(), Fail> {
    add_told(alloc, Dialect::Zk34, zxid, body, text)?;
    text.push_str(" | ")?;
    add_told(alloc, Dialect::Zk38, zxid, body, text)
}

// What both dialects make of the transaction, the earlier one first.
fn both(alloc: Global, zxid: i64, body: &Body) -> Result<String, Fail> {
    let mut text = String::new(alloc);
    add_both(alloc, zxid, body, &mut text)?;
    Ok(text)
}

#[test]
fn numbers_of_a_parent_dont_fall(rt: HostRuntime) -> Result<(), Fail> {
    let alloc = rt.alloc();
    assert_eq!(rt;
        both(alloc, 20, &create_of(alloc, "/n", 5)?)?.as_str(),
        "0 +/n ~/: 5 20 false | 0 +/n ~/: 6 8 false"
    );
    assert_eq!(rt;
        both(alloc, 20, &create_of(alloc, "/n", -1)?)?.as_str(),
        "0 +/n ~/: 7 20 false | 0 +/n ~/: 7 20 false"
    );
    assert_eq!(rt;
        both(alloc, 3, &delete_of(alloc, "/a")?)?.as_str(),
        "0 -/a ~/: 6 3 false | 0 -/a ~/: 6 8 false"
    );
    assert_eq!(rt;
        both(alloc, 20, &delete_of(alloc, "/a")?)?.as_str(),
        "0 -/a ~/: 6 20 false | 0 -/a ~/: 6 20 false"
    );
    Ok(())
}

#[test]
fn missing_node_raises_its_parents_pzxid(rt: HostRuntime) -> Result<(), Fail> {
    let alloc = rt.alloc();
    assert_eq!(rt;
        both(alloc, 20, &delete_of(alloc, "/q")?)?.as_str(),
        "-101: 6 8 false | -101: 6 20 false"
    );
    assert_eq!(rt;
        both(alloc, 20, &delete_of(alloc, "/q/r")?)?.as_str(),
        "-101: 6 8 false | -101: 6 8 false"
    );
    Ok(())
}

#[test]
fn create_that_comes_again_brings_the_list(rt: HostRuntime) -> Result<(), Fail> {
    let alloc = rt.alloc();
    assert_eq!(rt;
        both(alloc, 20, &create_of(alloc, "/a", 9)?)?.as_str(),
        "-110: 9 20 false | -110: 9 20 true"
    );
    assert_eq!(rt;
        both(alloc, 20, &create_of(alloc, "/a", 6)?)?.as_str(),
        "-110: 6 8 false | -110: 6 8 true"
    );
    Ok(())
}

#[test]
fn session_that_ends_takes_what_is_listed(rt: HostRuntime) -> Result<(), Fail> {
    let alloc = rt.alloc();
    assert_eq!(rt;
        both(alloc, 20, &close_of(alloc, "/a")?)?.as_str(),
        "0 -/a ~/ -/e ~/: 6 20 false | 0 -/a ~/ -/e ~/: 6 20 false"
    );
    assert_eq!(rt;
        both(alloc, 20, &close_of(alloc, "/e")?)?.as_str(),
        "0 -/e ~/: 6 20 false | 0 -/e ~/: 6 20 false"
    );
    Ok(())
}
