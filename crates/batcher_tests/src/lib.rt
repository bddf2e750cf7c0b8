//! Tests of cuts, over public calls alone. They are a crate of their own, since a crate with tests is proved twice. The
//! calls are in functions without contracts, so that a test's own proof is short.
#![tactic(auto)]

#[cfg(test)]
mod cuts;

use paths_and_acls::{AclField, Path};
use settings::Dialect;
use std::alloc::Global;
use txn_codec::{Body, Check, Create, Operation, Owner, Txn, TxnHeader};
use values::{Listed, ReadError};

// A transaction of session 9.
fn txn_of(body: Body) -> Txn {
    let header = TxnHeader {
        client_id: 9,
        cxid: 1,
        zxid: 1,
        time: 1000,
        rules: Dialect::Zk34,
    };
    Txn { header, body }
}

// A create of the path.
fn create_of(alloc: Global, path: &str, ephemeral: bool) -> Result<Operation, ReadError> {
    Ok(Operation::Create(Create {
        path: Path::new(alloc, path)?,
        bytes: None,
        acl: AclField::null(),
        owner: if ephemeral {
            Owner::Client
        } else {
            Owner::Nobody
        },
        asks_stat: false,
        parent_cversion: -1,
    }))
}

/// The transaction of a word: a path alone is a create of it, "!" before a path an ephemeral create, "+" before paths a
/// multi of creates, "?" before a path a check; "open" begins a session, and "close" ends one.
pub fn read_txn(alloc: Global, word: &str) -> Result<Txn, ReadError> {
    if word == "open" {
        return Ok(txn_of(Body::CreateSession(5000)));
    }
    if word == "close" {
        return Ok(txn_of(Body::CloseSession(Listed::from_vec(Vec::new(alloc)))));
    }
    if let Some(path) = word.strip_prefix('?') {
        let path = Path::new(alloc, path)?;
        return Ok(txn_of(Body::Single(Operation::Check(Check { path, version: 1 }))));
    }
    if let Some(path) = word.strip_prefix('!') {
        return Ok(txn_of(Body::Single(create_of(alloc, path, true)?)));
    }
    if let Some(paths) = word.strip_prefix('+') {
        let mut parts = Vec::new(alloc);
        for path in paths.split(',') {
            parts.push(create_of(alloc, path, false)?)?;
        }
        return Ok(txn_of(Body::Multi(Listed::from_vec(parts))));
    }
    Ok(txn_of(Body::Single(create_of(alloc, word, false)?)))
}

/// The transactions of words between blanks, with zxids from 1 on.
pub fn read_txns(alloc: Global, words: &str) -> Result<Vec<Txn>, ReadError> {
    let mut txns = Vec::new(alloc);
    let mut zxid = 0i64;
    for word in words.split_whitespace() {
        zxid = zxid.wrapping_add(1);
        let mut txn = read_txn(alloc, word)?;
        txn.header.zxid = zxid;
        txns.push(txn)?;
    }
    Ok(txns)
}
