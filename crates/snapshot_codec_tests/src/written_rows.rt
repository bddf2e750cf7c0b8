//! Images that are written.

use crate::joined;
use crate::pieces::{
    A, A_B, B, BARE, C, CLOSE, KEY_1, KEY_2, KEY_7, KEY_8, NONE, NUMBERS, ONE, OPEN_8, READ_1,
    READ_2, READ_8, ROOT, SESSION, SIGNATURE, TWO, WRITE_1, WRITE_7, fresh, fresh_image,
    session_image,
};
use data_tree::{Node, Tree};
use ephemerals::TextSet;
use jute::StatPersisted;
use paths_and_acls::{AclList, Path};
use snapshot_codec::{WriteError, read_image, write_image};
use std::alloc::Global;
use std::test::Fail;
use values::{Blob, NoMemory};

// The image written for a tree.
fn image_of(alloc: Global, tree: &Tree) -> Result<Vec<u8>, Fail> {
    Ok(write_image(alloc, tree)?)
}

// The image written for the tree that an image makes.
fn written_again(alloc: Global, bytes: &[u8]) -> Result<Vec<u8>, Fail> {
    let (image, _) = read_image(alloc, bytes)?;
    image_of(alloc, &image.into_tree())
}

#[test]
fn worked_images(rt: HostRuntime) -> Result<(), Fail> {
    let wanted = fresh_image(rt.alloc())?;
    let with_session = session_image(rt.alloc())?;
    assert!(rt; image_of(rt.alloc(), &fresh(rt.alloc())?)? == wanted);
    assert!(rt; written_again(rt.alloc(), &wanted)? == wanted);
    assert!(rt; written_again(rt.alloc(), &with_session)? == with_session);
    Ok(())
}

/// The session with the least id, with timeout 1.
const LEAST: &[u8] = b"\x80\0\0\0\0\0\0\0\0\0\0\x01";

// An image of two sessions and a root.
fn with_sessions(alloc: Global, first: &[u8], second: &[u8]) -> Result<Vec<u8>, NoMemory> {
    joined(
        alloc,
        &[TWO, first, second, NONE, ROOT, BARE, CLOSE, SIGNATURE],
    )
}

// Sessions are in ascending order of their ids, and the least is below 0.
#[test]
fn sessions_in_order(rt: HostRuntime) -> Result<(), Fail> {
    let alloc = rt.alloc();
    let read = with_sessions(alloc, SESSION, LEAST)?;
    let written = with_sessions(alloc, LEAST, SESSION)?;
    assert!(rt; written_again(alloc, &read)? == written);
    Ok(())
}

// Everything below a node comes after it, before the next node. The list that is used first has the key 1, a list that
// no node uses is dropped, and nodes with one list have one key.
#[test]
fn nodes_depth_first(rt: HostRuntime) -> Result<(), Fail> {
    let alloc = rt.alloc();
    let read = joined(
        alloc,
        &[
            NONE, TWO, WRITE_7, READ_8, ROOT, BARE, A_B, KEY_8, NUMBERS, B, KEY_7, NUMBERS, A,
            KEY_7, NUMBERS, C, KEY_8, NUMBERS, CLOSE, SIGNATURE,
        ],
    )?;
    let written = joined(
        alloc,
        &[
            NONE, TWO, WRITE_1, READ_2, ROOT, BARE, A, KEY_1, NUMBERS, C, KEY_2, NUMBERS, A_B,
            KEY_2, NUMBERS, B, KEY_1, NUMBERS, CLOSE, SIGNATURE,
        ],
    )?;
    assert!(rt; written_again(alloc, &read)? == written);
    Ok(())
}

// Two keys of one list become one.
#[test]
fn one_key_a_list(rt: HostRuntime) -> Result<(), Fail> {
    let alloc = rt.alloc();
    let read = joined(
        alloc,
        &[
            NONE, TWO, READ_2, READ_8, ROOT, BARE, A, KEY_2, NUMBERS, B, KEY_8, NUMBERS, CLOSE,
            SIGNATURE,
        ],
    )?;
    let written = joined(
        alloc,
        &[
            NONE, ONE, READ_1, ROOT, BARE, A, KEY_1, NUMBERS, B, KEY_1, NUMBERS, CLOSE, SIGNATURE,
        ],
    )?;
    assert!(rt; written_again(alloc, &read)? == written);
    Ok(())
}

// A null list is the open one under any key. It is written as no list and the key -1.
#[test]
fn null_lists(rt: HostRuntime) -> Result<(), Fail> {
    let alloc = rt.alloc();
    let read = joined(
        alloc,
        &[
            NONE, TWO, OPEN_8, READ_2, ROOT, BARE, A, KEY_8, NUMBERS, B, KEY_2, NUMBERS, CLOSE,
            SIGNATURE,
        ],
    )?;
    let written = joined(
        alloc,
        &[
            NONE, ONE, READ_1, ROOT, BARE, A, BARE, B, KEY_1, NUMBERS, CLOSE, SIGNATURE,
        ],
    )?;
    assert!(rt; written_again(alloc, &read)? == written);
    Ok(())
}

fn is_not_whole(alloc: Global, tree: &Tree) -> bool {
    matches!(write_image(alloc, tree), Err(WriteError::NotWhole))
}

// The byte "x" 4,194,304 times, which is the limit.
fn longest(alloc: Global) -> Result<Vec<u8>, Fail> {
    let mut bytes = Vec::new(alloc);
    bytes.push(b'x')?;
    for _ in 0..22 {
        let copy = bytes.clone()?;
        bytes.extend_from_slice(&copy)?;
    }
    Ok(bytes)
}

// A tree with only a root, which has the data and the mark.
fn root_of(alloc: Global, bytes: &[u8], mark: i64) -> Result<Tree, Fail> {
    let stat = StatPersisted {
        czxid: 0,
        mzxid: 0,
        ctime: 0,
        mtime: 0,
        version: 0,
        cversion: 0,
        aversion: 0,
        ephemeral_owner: 0,
        pzxid: 0,
    };
    let node = Node {
        bytes: Some(Blob::new(alloc, bytes)?),
        acl: AclList::open(),
        stat,
        mark,
        children: TextSet::new(alloc),
    };
    let mut tree = Tree::empty(alloc);
    tree.put_node(alloc, &Path::new(alloc, "/")?, node)?;
    Ok(tree)
}

// An image of a root with n bytes takes 103 bytes more.
#[test]
fn trees_without_an_image(rt: HostRuntime) -> Result<(), Fail> {
    let alloc = rt.alloc();
    assert!(rt; is_not_whole(alloc, &Tree::empty(alloc)));
    let mut bytes = longest(alloc)?;
    assert_eq!(rt;
        image_of(alloc, &root_of(alloc, &bytes, 0)?)?.len(),
        4_194_407
    );
    bytes.push(b'x')?;
    assert!(rt; is_not_whole(alloc, &root_of(alloc, &bytes, 0)?));
    assert!(rt; is_not_whole(alloc, &root_of(alloc, b"", i64::MIN)?));
    Ok(())
}
