//! Trees given in hexadecimal digits, and calls of `look` on them.

use client_records::ReadKind;
use data_tree::Tree;
use jute::Id;
use read_processor::{Look, Request, look};
use settings::Dialect;
use std::alloc::Global;
use std::test::Fail;
use txn_codec::decode_txn;
use values::{Blob, Str};

// The bytes of words of hexadecimal digits.
fn bytes_of(alloc: Global, parts: &[&str]) -> Result<Vec<u8>, Fail> {
    let mut bytes = Vec::new(alloc);
    for part in parts {
        for word in part.split(' ') {
            bytes.extend_from_slice(&hex::decode(alloc, word)?)?;
        }
    }
    Ok(bytes)
}

// The tree that every log starts from. It has no contract, so that no proof computes anything from the tree.
fn fresh(alloc: Global) -> Result<Tree, Fail> {
    Ok(Tree::fresh(alloc)?)
}

/// The tree that every log starts from, with these transactions applied.
pub fn tree_after(alloc: Global, transactions: &[&str]) -> Result<Tree, Fail> {
    let mut tree = fresh(alloc)?;
    for words in transactions {
        let bytes = bytes_of(alloc, &[words])?;
        let txn = decode_txn(alloc, bytes.as_slice())
            .ok()
            .ok_or("a transaction")?;
        tree.apply(alloc, &txn)?;
    }
    Ok(tree)
}

/// A read of this kind, without a watch.
pub fn read_of(kind: ReadKind, path: &str) -> Request<'_> {
    Request {
        kind,
        path: Some(Str::new(path)),
        watch: false,
        rules: Dialect::Zk34,
    }
}

/// An id of a scheme.
pub fn id_of(alloc: Global, scheme: &str, id: &str) -> Result<Id, Fail> {
    Ok(Id {
        scheme: Blob::new(alloc, scheme.as_bytes())?,
        id: Blob::new(alloc, id.as_bytes())?,
    })
}

// The answer to a read after these transactions.
fn shown(alloc: Global, transactions: &[&str], request: &Request<'_>) -> Result<Look, Fail> {
    let tree = tree_after(alloc, transactions)?;
    Ok(look(alloc, &tree, &[], request)?)
}

/// Whether the reply to request 1 at zxid 0 with this answer is this, in words of hexadecimal digits.
pub fn is_replied(alloc: Global, look: Look, parts: &[&str]) -> Result<bool, Fail> {
    let frame = look.into_frame(1, 0).ok_or("a frame")?;
    Ok(frame.as_slice() == bytes_of(alloc, parts)?.as_slice())
}

// The frame of the answer to request 1 at this zxid.
fn frame_of(
    alloc: Global,
    transactions: &[&str],
    request: &Request<'_>,
    zxid: i64,
) -> Result<Blob, Fail> {
    let look = shown(alloc, transactions, request)?;
    Ok(look.into_frame(1, zxid).ok_or("a frame")?)
}

/// Whether the reply to a read of the path after these transactions, at this zxid, is this, in words of hexadecimal
/// digits.
pub fn is_answered(
    alloc: Global,
    transactions: &[&str],
    kind: ReadKind,
    path: &str,
    zxid: i64,
    parts: &[&str],
) -> Result<bool, Fail> {
    let frame = frame_of(alloc, transactions, &read_of(kind, path), zxid)?;
    Ok(frame.as_slice() == bytes_of(alloc, parts)?.as_slice())
}

/// The error that a request gets, or 0.
pub fn error_of(
    alloc: Global,
    tree: &Tree,
    ids: &[Id],
    request: &Request<'_>,
) -> Result<i32, Fail> {
    Ok(look(alloc, tree, ids, request)?.error)
}
