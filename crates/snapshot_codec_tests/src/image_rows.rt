//! Whole images.

use crate::joined;
use crate::pieces::{
    A, B, BARE, C, CLOSE, NONE, NULL, ONE, OPEN, OWNED, READ_5, READ_8, ROOT, SESSION, SIGNATURE,
    TWO, fresh, fresh_image, session_image,
};
use data_tree::Tree;
use snapshot_codec::read_image;
use std::alloc::Global;
use std::test::Fail;
use values::{Fault, ReadError};

// The tree of an image that takes all of the bytes.
fn tree_of(alloc: Global, bytes: &[u8]) -> Result<Tree, Fail> {
    let (image, used) = read_image(alloc, bytes)?;
    if used != bytes.len() {
        return Err("bytes are left".into());
    }
    Ok(image.into_tree())
}

// The fault for which the pieces are refused.
fn fault_of(alloc: Global, pieces: &[&[u8]]) -> Result<Option<Fault>, Fail> {
    let bytes = joined(alloc, pieces)?;
    match read_image(alloc, &bytes) {
        Ok(_) => Ok(None),
        Err(ReadError::Fault(fault)) => Ok(Some(fault)),
        Err(ReadError::NoMemory) => Err("no memory".into()),
    }
}

// Whether the pieces are refused for the fault at their last byte, and for want of bytes if they are cut before it.
fn is_refused(alloc: Global, pieces: &[&[u8]], fault: Fault) -> Result<bool, Fail> {
    let bytes = joined(alloc, pieces)?;
    let cut = bytes.len().saturating_sub(1);
    let (front, _) = bytes.as_slice().split_at(cut);
    Ok(fault_of(alloc, pieces)? == Some(fault) && fault_of(alloc, &[front])? == Some(Fault::Short))
}

// Whether both trees have the same node at the path.
fn are_same(one: &Tree, other: &Tree, path: &str) -> bool {
    match (one.node(path), other.node(path)) {
        (Some(a), Some(b)) => a.bytes == b.bytes
            && a.acl.listed() == b.acl.listed()
            && one.stat(path) == other.stat(path),
        (None, None) => true,
        _ => false,
    }
}

fn are_same_at_all(one: &Tree, other: &Tree, paths: &[&str]) -> bool {
    for path in paths {
        if !are_same(one, other, path) {
            return false;
        }
    }
    one.paths() == other.paths() && one.ephemerals().count() == other.ephemerals().count()
}

#[test]
fn fresh_tree(rt: HostRuntime) -> Result<(), Fail> {
    let bytes = fresh_image(rt.alloc())?;
    assert_eq!(rt; bytes.len(), 281);
    let tree = tree_of(rt.alloc(), &bytes)?;
    let same = fresh(rt.alloc())?;
    assert!(rt; are_same_at_all(&tree, &same, &["/", "/zookeeper", "/zookeeper/quota"]));
    assert!(rt; tree.is_whole(rt.alloc())?);
    assert_eq!(rt; tree.sessions().get(9), None);
    Ok(())
}

#[test]
fn a_session(rt: HostRuntime) -> Result<(), Fail> {
    let bytes = session_image(rt.alloc())?;
    assert_eq!(rt; bytes.len(), 293);
    let tree = tree_of(rt.alloc(), &bytes)?;
    assert_eq!(rt; tree.sessions().get(9), Some(5_000));
    assert_eq!(rt; tree.paths(), 3);
    Ok(())
}

#[test]
fn cut_at_each_byte(rt: HostRuntime) -> Result<(), Fail> {
    let bytes = session_image(rt.alloc())?;
    for cut in 0..bytes.len() {
        let (front, _) = bytes.as_slice().split_at(cut);
        assert_eq!(rt; fault_of(rt.alloc(), &[front])?, Some(Fault::Short));
    }
    let (_, used) = read_image(rt.alloc(), &joined(rt.alloc(), &[&bytes, b"more"])?)?;
    assert_eq!(rt; used, 293);
    Ok(())
}

#[test]
fn other_orders_and_keys(rt: HostRuntime) -> Result<(), Fail> {
    let alloc = rt.alloc();
    let one = joined(
        alloc,
        &[
            ONE, SESSION, TWO, OPEN, READ_5, ROOT, BARE, A, BARE, C, OWNED, B, BARE, CLOSE,
            SIGNATURE,
        ],
    )?;
    let other = joined(
        alloc,
        &[
            ONE, SESSION, TWO, READ_5, READ_8, ROOT, BARE, B, BARE, A, BARE, C, OWNED, CLOSE,
            SIGNATURE,
        ],
    )?;
    let tree = tree_of(alloc, &one)?;
    assert!(rt; are_same_at_all(&tree, &tree_of(alloc, &other)?, &["/", "/a", "/b", "/a/c"]));
    assert!(rt; tree.ephemerals().contains(9, "/a/c"));
    assert!(rt; tree.is_whole(alloc)?);
    Ok(())
}

// Pieces of images, and the fault for which their last byte is refused.
const REFUSED: [(&[&[u8]], Fault); 16] = [
    // The signature is another text, null, or not UTF-8.
    (
        &[NONE, NONE, ROOT, BARE, CLOSE, b"\0\0\0\x0aBonWasHere"],
        Fault::BadImage,
    ),
    (&[NONE, NONE, ROOT, BARE, CLOSE, NULL], Fault::BadImage),
    (
        &[NONE, NONE, ROOT, BARE, CLOSE, b"\0\0\0\x01\xff"],
        Fault::BadText,
    ),
    // A session, a key or a path occurs already.
    (&[TWO, SESSION, SESSION], Fault::BadImage),
    (&[NONE, TWO, READ_5, READ_5], Fault::BadImage),
    (&[NONE, TWO, OPEN, OPEN], Fault::BadImage),
    (&[NONE, NONE, ROOT, BARE, A, BARE, A, BARE], Fault::BadImage),
    // A node has no parent, or the key of no list.
    (&[NONE, NONE, ROOT, BARE, C, BARE], Fault::BadImage),
    (&[NONE, NONE, ROOT, BARE, A, OWNED], Fault::BadImage),
    // The first node isn't the root, or there is none.
    (&[NONE, NONE, A, BARE], Fault::BadImage),
    (&[NONE, NONE, CLOSE], Fault::BadImage),
    // A count or a path is null, or a path after the root is empty.
    (&[NULL], Fault::BadLength),
    (&[NONE, NULL], Fault::BadLength),
    (&[NONE, NONE, NULL], Fault::BadPath),
    (&[NONE, NONE, ROOT, BARE, NULL], Fault::BadPath),
    (&[NONE, NONE, ROOT, BARE, ROOT], Fault::BadPath),
];

#[test]
fn refused_at_the_last_byte(rt: HostRuntime) -> Result<(), Fail> {
    for (pieces, fault) in REFUSED {
        assert!(rt; is_refused(rt.alloc(), pieces, fault)?, "{pieces:?}");
    }
    Ok(())
}
