//! Frames of replies.

use crate::calls::{is_answered, is_replied, tree_after};
use client_records::ReadKind;
use read_processor::Look;
use std::alloc::Global;
use std::test::Fail;
use values::Blob;

/// The Stat of the root of a fresh tree: its one child is a preset node.
const ROOT: &str = "0000000000000000 0000000000000000 0000000000000000 0000000000000000 \
    00000000 ffffffff 00000000 0000000000000000 00000000 00000001 0000000000000000";

/// The header of a reply's frame, without an error, after its length.
const NO_ERROR: &str = "00000001 0000000000000000 00000000";

/// Session 7 creates /a with the data "hi", for every client.
const CREATE_A: &str = "0000000000000007 00000001 0000000100000001 00000000000003e8 00000001 \
    00000002 2f61 00000002 6869 00000001 0000001f 00000005 776f726c64 00000006 616e796f6e65 \
    00 00000001";

/// Its data becomes null.
const SET_A: &str = "0000000000000007 00000002 0000000100000002 00000000000007d0 00000005 \
    00000002 2f61 ffffffff 00000001";

/// Session 7 creates /é.
const CREATE_E: &str = "0000000000000007 00000001 0000000100000001 00000000000003e8 00000001 \
    00000003 2fc3a9 ffffffff ffffffff 00 ffffffff";

// Whether this is the reply to a read of the root before any transaction.
fn is_first(alloc: Global, kind: ReadKind, parts: &[&str]) -> Result<bool, Fail> {
    is_answered(alloc, &[], kind, "/", 0, parts)
}

#[test]
fn the_root_is_shown(rt: HostRuntime) -> Result<(), Fail> {
    let alloc = rt.alloc();
    let stat = ["00000054", NO_ERROR, ROOT];
    assert!(rt; is_first(alloc, ReadKind::Exists, &stat)?);
    let child = "00000001 00000009 7a6f6f6b6565706572";
    let names = ["00000021", NO_ERROR, child];
    assert!(rt; is_first(alloc, ReadKind::GetChildren, &names)?);
    let both = ["00000065", NO_ERROR, child, ROOT];
    assert!(rt; is_first(alloc, ReadKind::GetChildren2, &both)?);
    let everybody = "00000001 0000001f 00000005 776f726c64 00000006 616e796f6e65";
    let acl = ["0000006f", NO_ERROR, everybody, ROOT];
    assert!(rt; is_first(alloc, ReadKind::GetAcl, &acl)?);
    Ok(())
}

/// The children are ordered by bytes: a letter outside of ASCII comes last.
#[test]
fn children_stand_in_order(rt: HostRuntime) -> Result<(), Fail> {
    let wanted = [
        "0000002c 00000001 0000000000000000 00000000 00000003",
        "00000001 61 00000009 7a6f6f6b6565706572 00000002 c3a9",
    ];
    let log = [CREATE_E, CREATE_A];
    assert!(rt; is_answered(rt.alloc(), &log, ReadKind::GetChildren, "/", 0, &wanted)?);
    Ok(())
}

#[test]
fn data_is_shown(rt: HostRuntime) -> Result<(), Fail> {
    let wanted = [
        "0000005a 00000001 0000000100000001 00000000 00000002 6869",
        "0000000100000001 0000000100000001 00000000000003e8 00000000000003e8",
        "00000000 00000000 00000000 0000000000000000 00000002 00000000 0000000100000001",
    ];
    let log = [CREATE_A];
    let zxid = 0x1_0000_0001;
    assert!(rt; is_answered(rt.alloc(), &log, ReadKind::GetData, "/a", zxid, &wanted)?);
    Ok(())
}

#[test]
fn null_is_shown(rt: HostRuntime) -> Result<(), Fail> {
    let wanted = [
        "00000058 00000001 0000000100000002 00000000 ffffffff",
        "0000000100000001 0000000100000002 00000000000003e8 00000000000007d0",
        "00000001 00000000 00000000 0000000000000000 00000000 00000000 0000000100000001",
    ];
    let log = [CREATE_A, SET_A];
    let zxid = 0x1_0000_0002;
    assert!(rt; is_answered(rt.alloc(), &log, ReadKind::GetData, "/a", zxid, &wanted)?);
    Ok(())
}

/// Session 7 creates /a with the data "hi", which nobody may read.
const CREATE_HIDDEN_A: &str =
    "0000000000000007 00000001 0000000100000001 00000000000003e8 00000001 \
    00000002 2f61 00000002 6869 00000001 00000002 00000005 776f726c64 00000006 616e796f6e65 \
    00 00000001";

/// The Stat of that node.
const STAT_OF_A: [&str; 2] = [
    "0000000100000001 0000000100000001 00000000000003e8 00000000000003e8",
    "00000000 00000000 00000000 0000000000000000 00000002 00000000 0000000100000001",
];

/// A new node with its path, and a node's data, whoever asks.
#[test]
fn a_node_is_shown(rt: HostRuntime) -> Result<(), Fail> {
    let alloc = rt.alloc();
    let tree = tree_after(alloc, &[CREATE_HIDDEN_A])?;
    let node = tree.node("/a").ok_or("a node")?;
    let created = Look::of_created(alloc, "/a", node)?;
    let [front, back] = STAT_OF_A;
    let wanted = ["0000005a", NO_ERROR, "00000002 2f61", front, back];
    assert!(rt; is_replied(alloc, created, &wanted)?);
    let shown = Look::of_node(alloc, ReadKind::GetData, node)?;
    let wanted = ["0000005a", NO_ERROR, "00000002 6869", front, back];
    assert!(rt; is_replied(alloc, shown, &wanted)?);
    Ok(())
}

// The frame of the reply to request 1 at zxid 0, with an error or none, without a body.
fn without_body(alloc: Global, error: i32) -> Result<Blob, Fail> {
    let look = Look::without_body(alloc, error)?;
    Ok(look.into_frame(1, 0).ok_or("a frame")?)
}

#[test]
fn nothing_is_shown(rt: HostRuntime) -> Result<(), Fail> {
    let alloc = rt.alloc();
    assert_eq!(rt;
        without_body(alloc, 0)?.as_slice(),
        b"\0\0\0\x10\0\0\0\x01\0\0\0\0\0\0\0\0\0\0\0\0".as_slice()
    );
    assert_eq!(rt;
        without_body(alloc, -119)?.as_slice(),
        b"\0\0\0\x10\0\0\0\x01\0\0\0\0\0\0\0\0\xff\xff\xff\x89".as_slice()
    );
    Ok(())
}

/// An error has no body.
#[test]
fn errors_stand_alone(rt: HostRuntime) -> Result<(), Fail> {
    let wanted = ["00000010 00000001 0000000000000000 ffffff9b"];
    assert!(rt; is_answered(rt.alloc(), &[], ReadKind::Exists, "/q", 0, &wanted)?);
    Ok(())
}
