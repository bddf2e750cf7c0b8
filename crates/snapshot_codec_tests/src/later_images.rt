//! Images of leaders of ZooKeeper 3.5 to 3.9.

use crate::joined;
use crate::pieces::{A, B, BARE, CLOSE, KEY_1, KEY_7, NONE, NUMBERS, ONE, READ_8, ROOT, SIGNATURE};
use data_tree::Tree;
use jute::StatPersisted;
use paths_and_acls::Path;
use settings::Dialect;
use snapshot_codec::{
    ImageAcl, ImageNode, ImagePart, Loader, read_image, read_image_in, write_image, write_image_in,
};
use std::alloc::Global;
use std::test::Fail;
use values::{Fault, Listed, ReadError};

// The numbers of a node before its owner, and the pzxid behind it.
const BEFORE_OWNER: &[u8] =
    b"\0\0\0\0\0\0\0\x01\0\0\0\0\0\0\0\x01\0\0\0\0\0\0\x03\xe8\0\0\0\0\0\0\x03\xe8\0\0\0\0\0\0\0\0\0\0\0\0";

const PZXID: &[u8] = b"\0\0\0\0\0\0\0\x01";
// Empty data, and the key of the open list.
const PLAIN: &[u8] = b"\0\0\0\0\xff\xff\xff\xff\xff\xff\xff\xff";

// Owners: a container's, that of a time to live of 100,000 milliseconds, the first and the last of these, the numbers
// beside them, and a session's.
const CONTAINER: &[u8] = b"\x80\0\0\0\0\0\0\0";

const WITH_TTL: &[u8] = b"\xff\0\0\0\0\x01\x86\xa0";

const FIRST_TTL: &[u8] = b"\xff\0\0\0\0\0\0\0";

const LAST_TTL: &[u8] = b"\xff\0\0\xff\xff\xff\xff\xff";

const BEFORE_TTLS: &[u8] = b"\xfe\xff\xff\xff\xff\xff\xff\xff";

const PAST_TTLS: &[u8] = b"\xff\0\x01\0\0\0\0\0";

const BESIDE_CONTAINER: &[u8] = b"\x80\0\0\0\0\0\0\x01";

// An image of a root, and of /a with the owner.
fn owned(alloc: Global, owner: &[u8]) -> Result<Vec<u8>, Fail> {
    Ok(joined(
        alloc,
        &[
            NONE,
            NONE,
            ROOT,
            BARE,
            A,
            PLAIN,
            BEFORE_OWNER,
            owner,
            PZXID,
            CLOSE,
            SIGNATURE,
        ],
    )?)
}

fn later_tree(alloc: Global, bytes: &[u8]) -> Result<Tree, Fail> {
    let (image, _) = read_image_in(Dialect::Zk38, alloc, bytes)?;
    Ok(image.into_tree())
}

fn earlier_tree(alloc: Global, bytes: &[u8]) -> Result<Tree, Fail> {
    let (image, _) = read_image(alloc, bytes)?;
    Ok(image.into_tree())
}

// The owner that /a shows, its mark, and the number of ephemeral nodes.
fn told(alloc: Global, tree: &Tree) -> Result<String, Fail> {
    let node = tree.node("/a").ok_or("no /a")?;
    let shown = node.shown().ephemeral_owner;
    Ok(format!(in alloc; "{shown} {} {}", node.mark, tree.ephemerals().count())?)
}

// What a later dialect makes of the owner, unless what is written for it differs.
fn later(alloc: Global, owner: &[u8]) -> Result<String, Fail> {
    let bytes = owned(alloc, owner)?;
    let tree = later_tree(alloc, &bytes)?;
    if write_image_in(Dialect::Zk38, alloc, &tree)? != bytes {
        return Err("other bytes are written".into());
    }
    told(alloc, &tree)
}

#[test]
fn owners_that_are_no_sessions(rt: HostRuntime) -> Result<(), Fail> {
    let alloc = rt.alloc();
    assert_eq!(rt;
        later(alloc, CONTAINER)?.as_str(),
        "0 -9223372036854775808 0"
    );
    assert_eq!(rt; later(alloc, WITH_TTL)?.as_str(), "0 -72057594037827936 0");
    assert_eq!(rt; later(alloc, FIRST_TTL)?.as_str(), "0 -72057594037927936 0");
    assert_eq!(rt; later(alloc, LAST_TTL)?.as_str(), "0 -72056494526300161 0");
    assert_eq!(rt;
        later(alloc, BEFORE_TTLS)?.as_str(),
        "-72057594037927937 0 1"
    );
    assert_eq!(rt; later(alloc, PAST_TTLS)?.as_str(), "-72056494526300160 0 1");
    assert_eq!(rt;
        later(alloc, BESIDE_CONTAINER)?.as_str(),
        "-9223372036854775807 0 1"
    );
    Ok(())
}

#[test]
fn earlier_dialect_has_sessions_alone(rt: HostRuntime) -> Result<(), Fail> {
    let alloc = rt.alloc();
    let bytes = owned(alloc, CONTAINER)?;
    let tree = earlier_tree(alloc, &bytes)?;
    assert_eq!(rt; told(alloc, &tree)?.as_str(), "-9223372036854775808 0 1");
    assert!(rt; write_image(alloc, &tree)? == bytes);
    assert!(rt; write_image_in(Dialect::Zk38, alloc, &tree).is_err());
    assert!(rt; write_image(alloc, &later_tree(alloc, &bytes)?).is_err());
    Ok(())
}

// An image with the list 8, where /a and /b refer to another key.
fn unlisted(alloc: Global) -> Result<Vec<u8>, Fail> {
    Ok(joined(
        alloc,
        &[
            NONE, ONE, READ_8, ROOT, BARE, A, KEY_7, NUMBERS, B, KEY_7, NUMBERS, CLOSE, SIGNATURE,
        ],
    )?)
}

// Whether the node at the path has a list with entries.
fn has_list(tree: &Tree, path: &str) -> bool {
    match tree.node(path) {
        None => false,
        Some(node) => !node.acl.is_empty(),
    }
}

#[test]
fn missing_lists_are_empty(rt: HostRuntime) -> Result<(), Fail> {
    let alloc = rt.alloc();
    let bytes = unlisted(alloc)?;
    let tree = later_tree(alloc, &bytes)?;
    assert!(rt; has_list(&tree, "/"));
    assert!(rt; !has_list(&tree, "/a"));
    assert!(rt;
        matches!(
            read_image(alloc, &bytes),
            Err(ReadError::Fault(Fault::BadImage))
        )
    );
    Ok(())
}

// The root, as a part.
fn root_part(alloc: Global) -> Result<ImagePart, Fail> {
    let stat = StatPersisted {
        czxid: 0,
        mzxid: 0,
        ctime: 0,
        mtime: 0,
        version: 0,
        cversion: 0,
        aversion: 0,
        ephemeral_owner: 0,
        pzxid: 0,
    };
    Ok(ImagePart::Node(ImageNode {
        path: Path::new(alloc, "/")?,
        bytes: None,
        acl: -1,
        stat,
    }))
}

// Whether a list is taken that comes after the root.
fn is_list_taken(alloc: Global, loader: &mut Loader) -> Result<bool, Fail> {
    loader.part(alloc, root_part(alloc)?)?;
    let list = ImageAcl {
        key: 7,
        list: Some(Listed::from_vec(Vec::new(alloc))),
    };
    Ok(loader.part(alloc, ImagePart::Acl(list)).is_ok())
}

fn takes_late_list(dialect: Dialect, alloc: Global) -> Result<bool, Fail> {
    let mut loader = Loader::in_dialect(dialect, alloc);
    is_list_taken(alloc, &mut loader)
}

#[test]
fn no_list_comes_after_a_node(rt: HostRuntime) -> Result<(), Fail> {
    assert!(rt; takes_late_list(Dialect::Zk34, rt.alloc())?);
    assert!(rt; !takes_late_list(Dialect::Zk38, rt.alloc())?);
    Ok(())
}

/// A list with key 1, which lets an id of the scheme "digest" read: U+1F600 as two halves, and ":x".
const WITH_HALVES: &[u8] = b"\0\0\0\0\0\0\0\x01\0\0\0\x01\0\0\0\x01\0\0\0\x06digest\
    \0\0\0\x08\xed\xa0\xbd\xed\xb8\x80:x";

/// A list with key 1 and a text that is none in any dialect.
const WITH_OVERLONG: &[u8] = b"\0\0\0\0\0\0\0\x01\0\0\0\x01\0\0\0\x01\0\0\0\x02\xc0\xaf\0\0\0\0";

// An image with the list, which /a has.
fn listed(alloc: Global, list: &[u8]) -> Result<Vec<u8>, Fail> {
    Ok(joined(
        alloc,
        &[
            NONE, ONE, list, ROOT, BARE, A, KEY_1, NUMBERS, CLOSE, SIGNATURE,
        ],
    )?)
}

// Whether an image of this dialect is refused for a text.
fn is_bad_text(dialect: Dialect, alloc: Global, bytes: &[u8]) -> bool {
    matches!(
        read_image_in(dialect, alloc, bytes),
        Err(ReadError::Fault(Fault::BadText))
    )
}

#[test]
fn surrogates_in_lists(rt: HostRuntime) -> Result<(), Fail> {
    let alloc = rt.alloc();
    let bytes = listed(alloc, WITH_HALVES)?;
    let tree = later_tree(alloc, &bytes)?;
    assert!(rt; has_list(&tree, "/a"));
    assert!(rt; write_image_in(Dialect::Zk38, alloc, &tree)? == bytes);
    assert!(rt; write_image(alloc, &tree).is_err());
    assert!(rt; is_bad_text(Dialect::Zk34, alloc, &bytes));
    assert!(rt; is_bad_text(Dialect::Zk38, alloc, &listed(alloc, WITH_OVERLONG)?));
    Ok(())
}
