//! A tree of one node, and requests for it.

use client_records::{Name, SetWatches, SetWatches2};
use data_tree::Tree;
use paths_and_acls::{AclField, Path};
use read_processor::Watch;
use settings::Dialect;
use std::alloc::Global;
use std::test::Fail;
use txn_codec::{Body, Create, Operation, Owner, Txn, TxnHeader};
use values::{Listed, NoMemory};
use watch_manager::WatchMode;

// The tree that every log starts from. It has no contract, so that no proof computes anything from the tree.
fn fresh(alloc: Global) -> Result<Tree, Fail> {
    Ok(Tree::fresh(alloc)?)
}

/// The tree that every log starts from, with the node /a created at this zxid.
pub fn tree_with_a(alloc: Global, zxid: i64) -> Result<Tree, Fail> {
    let header = TxnHeader {
        client_id: 7,
        cxid: 1,
        zxid,
        time: 1000,
        rules: Dialect::Zk34,
    };
    let create = Create {
        path: Path::new(alloc, "/a").ok().ok_or("a path")?,
        bytes: None,
        acl: AclField::null(),
        owner: Owner::Nobody,
        asks_stat: false,
        parent_cversion: -1,
    };
    let body = Body::Single(Operation::Create(create));
    let mut tree = fresh(alloc)?;
    tree.apply(alloc, &Txn { header, body })?;
    Ok(tree)
}

// A list of one path.
fn one<'a>(alloc: Global, path: &'a str) -> Result<Listed<Name<'a>>, NoMemory> {
    let mut names = Vec::new(alloc);
    names.push(Name::new(path))?;
    Ok(Listed::from_vec(names))
}

/// A setWatches with one path in each list.
pub fn asked<'a>(
    alloc: Global,
    relative_zxid: i64,
    data: &'a str,
    exist: &'a str,
    child: &'a str,
) -> Result<SetWatches<'a>, NoMemory> {
    Ok(SetWatches {
        relative_zxid,
        data_watches: one(alloc, data)?,
        exist_watches: one(alloc, exist)?,
        child_watches: one(alloc, child)?,
    })
}

/// The same, and a persistent and a recursive watch.
pub fn all_asked<'a>(
    alloc: Global,
    relative_zxid: i64,
    older: [&'a str; 3],
    persistent: &'a str,
    recursive: &'a str,
) -> Result<SetWatches2<'a>, NoMemory> {
    let [data, exist, child] = older;
    Ok(SetWatches2 {
        older: asked(alloc, relative_zxid, data, exist, child)?,
        persistent_watches: one(alloc, persistent)?,
        recursive_watches: one(alloc, recursive)?,
    })
}

/// The watch in words: its table and its path.
pub fn shown(alloc: Global, watch: &Watch<'_>) -> Result<String, Fail> {
    let (table, path) = match watch {
        Watch::Data(path) => ("data", path.as_str()),
        Watch::Child(path) => ("child", path.as_str()),
        Watch::Lasting(path, WatchMode::Persistent) => ("persistent", path.as_str()),
        Watch::Lasting(path, WatchMode::Recursive) => ("recursive", path.as_str()),
        Watch::LastingAlone(path, WatchMode::Persistent) => ("persistent alone", path.as_str()),
        Watch::LastingAlone(path, WatchMode::Recursive) => ("recursive alone", path.as_str()),
    };
    Ok(format!(in alloc; "{table} {path}; ")?)
}
