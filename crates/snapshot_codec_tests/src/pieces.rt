//! The pieces that images are made of.

use crate::joined;
use data_tree::Tree;
use std::alloc::Global;
use std::test::Fail;
use values::NoMemory;

/// No session, or no ACL list.
pub const NONE: &[u8] = b"\0\0\0\0";

/// One session, or one ACL list.
pub const ONE: &[u8] = b"\0\0\0\x01";

/// Two of them.
pub const TWO: &[u8] = b"\0\0\0\x02";

/// A null count, text or buffer.
pub const NULL: &[u8] = b"\xff\xff\xff\xff";

/// Session 9, whose timeout is 5,000 milliseconds.
pub const SESSION: &[u8] = b"\0\0\0\0\0\0\0\x09\0\0\x13\x88";

/// The list with key 5 that lets every client read.
pub const READ_5: &[u8] = b"\0\0\0\0\0\0\0\x05\0\0\0\x01\0\0\0\x01\0\0\0\x05world\0\0\0\x06anyone";

/// The same list with key 8.
pub const READ_8: &[u8] = b"\0\0\0\0\0\0\0\x08\0\0\0\x01\0\0\0\x01\0\0\0\x05world\0\0\0\x06anyone";

/// The same list with key 1, and with key 2.
pub const READ_1: &[u8] = b"\0\0\0\0\0\0\0\x01\0\0\0\x01\0\0\0\x01\0\0\0\x05world\0\0\0\x06anyone";

pub const READ_2: &[u8] = b"\0\0\0\0\0\0\0\x02\0\0\0\x01\0\0\0\x01\0\0\0\x05world\0\0\0\x06anyone";

/// The list that lets every client read and write, with key 1 and with key 7.
pub const WRITE_1: &[u8] = b"\0\0\0\0\0\0\0\x01\0\0\0\x01\0\0\0\x03\0\0\0\x05world\0\0\0\x06anyone";

pub const WRITE_7: &[u8] = b"\0\0\0\0\0\0\0\x07\0\0\0\x01\0\0\0\x03\0\0\0\x05world\0\0\0\x06anyone";

/// A null list with key -1, and with key 8.
pub const OPEN: &[u8] = b"\xff\xff\xff\xff\xff\xff\xff\xff\xff\xff\xff\xff";

pub const OPEN_8: &[u8] = b"\0\0\0\0\0\0\0\x08\xff\xff\xff\xff";

/// The path of the root.
pub const ROOT: &[u8] = b"\0\0\0\0";

/// The path /a.
pub const A: &[u8] = b"\0\0\0\x02/a";

/// The path /b.
pub const B: &[u8] = b"\0\0\0\x02/b";

/// The path /a-b, whose third byte is below the slash.
pub const A_B: &[u8] = b"\0\0\0\x04/a-b";

/// The path /a/c.
pub const C: &[u8] = b"\0\0\0\x04/a/c";

/// The fields after the path of a node without data, with the open list, and with a stat of zeros.
pub const BARE: &[u8] = b"\0\0\0\0\xff\xff\xff\xff\xff\xff\xff\xff\
    \0\0\0\0\0\0\0\0\0\0\0\0\0\0\0\0\0\0\0\0\
    \0\0\0\0\0\0\0\0\0\0\0\0\0\0\0\0\0\0\0\0\
    \0\0\0\0\0\0\0\0\0\0\0\0\0\0\0\0\0\0\0\0";

/// The fields after the path of a node with the byte "x", the list with key 5, and the owner 9.
pub const OWNED: &[u8] = b"\0\0\0\x01x\0\0\0\0\0\0\0\x05\
    \0\0\0\0\0\0\0\0\0\0\0\0\0\0\0\0\0\0\0\0\
    \0\0\0\0\0\0\0\0\0\0\0\0\0\0\0\0\0\0\0\0\
    \0\0\0\0\0\0\0\0\0\0\0\x09\0\0\0\0\0\0\0\0";

/// A stat of 60 zero bytes.
pub const NUMBERS: &[u8] = b"\0\0\0\0\0\0\0\0\0\0\0\0\0\0\0\0\0\0\0\0\
    \0\0\0\0\0\0\0\0\0\0\0\0\0\0\0\0\0\0\0\0\
    \0\0\0\0\0\0\0\0\0\0\0\0\0\0\0\0\0\0\0\0";

/// No data, and the list with key 1, 2, 7 or 8.
pub const KEY_1: &[u8] = b"\0\0\0\0\0\0\0\0\0\0\0\x01";

pub const KEY_2: &[u8] = b"\0\0\0\0\0\0\0\0\0\0\0\x02";

pub const KEY_7: &[u8] = b"\0\0\0\0\0\0\0\0\0\0\0\x07";

pub const KEY_8: &[u8] = b"\0\0\0\0\0\0\0\0\0\0\0\x08";

/// The path "/", which closes the nodes.
pub const CLOSE: &[u8] = b"\0\0\0\x01/";

/// The text that ends an image.
pub const SIGNATURE: &[u8] = b"\0\0\0\x0aBenWasHere";

const ZOOKEEPER: &[u8] = b"\0\0\0\x0a/zookeeper";

const QUOTA: &[u8] = b"\0\0\0\x10/zookeeper/quota";

/// The image of the fresh tree, 281 bytes.
pub fn fresh_image(alloc: Global) -> Result<Vec<u8>, NoMemory> {
    joined(
        alloc,
        &[
            NONE, NONE, ROOT, BARE, ZOOKEEPER, BARE, QUOTA, BARE, CLOSE, SIGNATURE,
        ],
    )
}

/// The image of the fresh tree with session 9, 293 bytes.
pub fn session_image(alloc: Global) -> Result<Vec<u8>, NoMemory> {
    joined(
        alloc,
        &[
            ONE, SESSION, NONE, ROOT, BARE, ZOOKEEPER, BARE, QUOTA, BARE, CLOSE, SIGNATURE,
        ],
    )
}

/// The tree that every log starts from. It has no contract, so that no proof computes anything from the tree.
pub fn fresh(alloc: Global) -> Result<Tree, Fail> {
    Ok(Tree::fresh(alloc)?)
}
