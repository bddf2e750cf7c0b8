//! Transactions, and the tree that they are applied to.

use crate::asked::{Kind, Load};
use anyhow::Result;
use data_tree::Tree;
use paths_and_acls::{AclField, Path};
use settings::Dialect;
use std::alloc::Global;
use txn_codec::{Body, Create, Operation, Owner, SetData, Txn, TxnHeader};
use values::{Blob, Listed};

// The number of nodes below the root.
const PARENTS: u32 = 64;

// The number of nodes below each of these.
const LEAVES: u32 = 8;

// The session of all transactions.
const SESSION: i64 = 7;

// The zxid before the first transaction of epoch 1.
const EPOCH: i64 = 0x1_0000_0000;

fn parent_path(alloc: Global, parent: u32) -> Result<Path> {
    let text = format!(in alloc; "/p{parent}")?;
    Ok(Path::new(alloc, text.as_str())?)
}

fn leaf_path(alloc: Global, parent: u32, leaf: u32) -> Result<Path> {
    let text = format!(in alloc; "/p{parent}/n{leaf}")?;
    Ok(Path::new(alloc, text.as_str())?)
}

fn created_path(alloc: Global, parent: u32, number: u32) -> Result<Path> {
    let text = format!(in alloc; "/p{parent}/c{number}")?;
    Ok(Path::new(alloc, text.as_str())?)
}

// A create of a node with this data and no access control list.
fn create(alloc: Global, path: Path, content: &[u8]) -> Result<Operation> {
    let bytes = Blob::new(alloc, content)?;
    Ok(Operation::Create(Create {
        path,
        bytes: Some(bytes),
        acl: AclField::null(),
        owner: Owner::Nobody,
        asks_stat: false,
        parent_cversion: -1,
    }))
}

// A setData of a node.
fn set_data(alloc: Global, path: Path, content: &[u8]) -> Result<Operation> {
    let bytes = Blob::new(alloc, content)?;
    Ok(Operation::SetData(SetData {
        path,
        bytes: Some(bytes),
        version: 1,
        is_reconfig: false,
    }))
}

// A multi that sets the data of all nodes below a parent.
fn multi(alloc: Global, parent: u32, content: &[u8]) -> Result<Body> {
    let mut parts = Vec::new(alloc);
    for leaf in 0..LEAVES {
        parts.push(set_data(alloc, leaf_path(alloc, parent, leaf)?, content)?)?;
    }
    Ok(Body::Multi(Listed::from_vec(parts)))
}

fn body(alloc: Global, kind: Kind, number: u32, content: &[u8]) -> Result<Body> {
    let parent = number % PARENTS;
    let turn = number / PARENTS;
    Ok(match kind {
        Kind::Creates => Body::Single(create(alloc, created_path(alloc, parent, turn)?, content)?),
        Kind::Sets => Body::Single(set_data(alloc, parent_path(alloc, parent)?, content)?),
        Kind::Leaves => Body::Single(set_data(
            alloc,
            leaf_path(alloc, parent, turn % LEAVES)?,
            content,
        )?),
        Kind::Multis => multi(alloc, parent, content)?,
    })
}

fn txn(number: u32, body: Body) -> Txn {
    let header = TxnHeader {
        client_id: SESSION,
        cxid: 1,
        zxid: EPOCH.saturating_add(i64::from(number)),
        time: 1000,
        rules: Dialect::Zk34,
    };
    Txn { header, body }
}

/// The transactions of a load.
pub fn txns(alloc: Global, load: &Load) -> Result<Vec<Txn>> {
    let content = Vec::from_elem(alloc, b'x', load.bytes)?;
    let mut txns = Vec::new(alloc);
    for number in 0..load.count {
        let body = body(alloc, load.kind, number, content.as_slice())?;
        txns.push(txn(number, body))?;
    }
    Ok(txns)
}

// Creates the nodes below a parent.
fn make_leaves(alloc: Global, tree: &mut Tree, parent: u32) -> Result<()> {
    for leaf in 0..LEAVES {
        let operation = create(alloc, leaf_path(alloc, parent, leaf)?, b"")?;
        tree.apply(alloc, &txn(0, Body::Single(operation)))?;
    }
    Ok(())
}

/// A tree with the parents, and the nodes below them.
pub fn tree(alloc: Global) -> Result<Tree> {
    let mut tree = Tree::fresh(alloc)?;
    for parent in 0..PARENTS {
        let operation = create(alloc, parent_path(alloc, parent)?, b"")?;
        tree.apply(alloc, &txn(0, Body::Single(operation)))?;
        make_leaves(alloc, &mut tree, parent)?;
    }
    Ok(tree)
}
