//! Replies to writes, in words of hexadecimal digits.

use data_tree::Tree;
use forwarding::WriteKind;
use settings::Dialect;
use std::alloc::Global;
use std::test::Fail;
use txn_codec::{Txn, decode_txn_in};
use values::Blob;
use write_replies::write_look;

/// An access control list that is open to all.
pub const OPEN: &str = "00000001 0000001f 00000005 776f726c64 00000006 616e796f6e65";

// The bytes of words of hexadecimal digits.
fn bytes_of(alloc: Global, parts: &[&str]) -> Result<Vec<u8>, Fail> {
    let mut bytes = Vec::new(alloc);
    for part in parts {
        for word in part.split(' ') {
            bytes.extend_from_slice(&hex::decode(alloc, word)?)?;
        }
    }
    Ok(bytes)
}

// The tree that every log starts from. It has no contract, so that no proof computes anything from the tree.
fn fresh(alloc: Global) -> Result<Tree, Fail> {
    Ok(Tree::fresh(alloc)?)
}

// A transaction of a later leader.
fn txn_of(alloc: Global, parts: &[&str]) -> Result<Txn, Fail> {
    let bytes = bytes_of(alloc, parts)?;
    let txn = decode_txn_in(Dialect::Zk38, alloc, bytes.as_slice());
    Ok(txn.ok().ok_or("a transaction")?)
}

/// The tree that every log starts from, with a transaction applied.
pub fn tree_with(alloc: Global, parts: &[&str]) -> Result<Tree, Fail> {
    let mut tree = fresh(alloc)?;
    let txn = txn_of(alloc, parts)?;
    tree.apply(alloc, &txn)?;
    Ok(tree)
}

/// The frame of the reply to a write of this kind, once its transaction was applied to the tree.
pub fn reply(
    alloc: Global,
    tree: &mut Tree,
    kind: WriteKind,
    parts: &[&str],
) -> Result<Blob, Fail> {
    let txn = txn_of(alloc, parts)?;
    let outcome = tree.apply(alloc, &txn)?;
    let seen = write_look(alloc, tree, kind, &txn.body, &outcome.results)?;
    let frame = seen.into_frame(txn.header.cxid, txn.header.zxid);
    Ok(frame.ok_or("a frame")?)
}

/// Whether the reply to a write of this kind is this, once its transaction was applied to the tree.
pub fn is_answered(
    alloc: Global,
    tree: &mut Tree,
    kind: WriteKind,
    parts: &[&str],
    wanted: &[&str],
) -> Result<bool, Fail> {
    let frame = reply(alloc, tree, kind, parts)?;
    Ok(frame.as_slice() == bytes_of(alloc, wanted)?.as_slice())
}

/// Whether that is so of the first write of all.
pub fn is_first_answered(
    alloc: Global,
    kind: WriteKind,
    parts: &[&str],
    wanted: &[&str],
) -> Result<bool, Fail> {
    let mut tree = fresh(alloc)?;
    is_answered(alloc, &mut tree, kind, parts, wanted)
}
