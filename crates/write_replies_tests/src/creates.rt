//! Creates of later clients. The first two transactions and their replies were recorded beside a server of ZooKeeper
//! 3.8.

use crate::replies::{OPEN, is_answered, is_first_answered, tree_with};
use forwarding::WriteKind;
use std::test::Fail;

/// A create2 of /p2 with the data "P2".
const CREATE2: [&str; 3] = [
    "0200000000000001 00000002 0000000100000003 000001a21ad574c6 0000000f 00000003 2f7032 00000002 5032",
    OPEN,
    "00 00000002 00000002 0000000283c3b12e",
];

/// The reply, with the Stat of the new node.
const CREATED2: [&str; 4] = [
    "0000005b 00000002 0000000100000003 00000000 00000003 2f7032",
    "0000000100000003 0000000100000003 000001a21ad574c6 000001a21ad574c6",
    "00000000 00000000 00000000 0000000000000000 00000002 00000000",
    "0000000100000003",
];

/// A createTTL of /t with the data "T".
const CREATE_TTL: [&str; 3] = [
    "0200000000000001 00000011 0000000100000012 000001a21ad57a7b 00000015 00000002 2f74 00000001 54",
    OPEN,
    "00000008 00000000000186a0 00000002 0000000650e0aae1",
];

/// The Stat shows no owner.
const CREATED_TTL: [&str; 4] = [
    "0000005a 00000011 0000000100000012 00000000 00000002 2f74",
    "0000000100000012 0000000100000012 000001a21ad57a7b 000001a21ad57a7b",
    "00000000 00000000 00000000 0000000000000000 00000001 00000000",
    "0000000100000012",
];

/// A createContainer of /c without data.
const CREATE_CONTAINER: [&str; 3] = [
    "0300000000000001 00000004 0000000100000001 00000000000003e8 00000013 00000002 2f63 00000000",
    OPEN,
    "00000001 00000002 0000000051c6d660",
];

/// The Stat shows no owner.
const CREATED_CONTAINER: [&str; 4] = [
    "0000005a 00000004 0000000100000001 00000000 00000002 2f63",
    "0000000100000001 0000000100000001 00000000000003e8 00000000000003e8",
    "00000000 00000000 00000000 0000000000000000 00000000 00000000",
    "0000000100000001",
];

#[test]
fn create2(rt: HostRuntime) -> Result<(), Fail> {
    let alloc = rt.alloc();
    assert!(rt; is_first_answered(alloc, WriteKind::Create2, &CREATE2, &CREATED2)?);
    Ok(())
}

#[test]
fn create_ttl(rt: HostRuntime) -> Result<(), Fail> {
    let alloc = rt.alloc();
    assert!(rt; is_first_answered(alloc, WriteKind::CreateTtl, &CREATE_TTL, &CREATED_TTL)?);
    Ok(())
}

#[test]
fn create_container(rt: HostRuntime) -> Result<(), Fail> {
    let alloc = rt.alloc();
    let kind = WriteKind::CreateContainer;
    assert!(rt; is_first_answered(alloc, kind, &CREATE_CONTAINER, &CREATED_CONTAINER)?);
    Ok(())
}

/// A create2 of a session's node shows the session.
#[test]
fn ephemeral(rt: HostRuntime) -> Result<(), Fail> {
    let txn = [
        "0300000000000001 00000004 0000000100000001 00000000000003e8 0000000f 00000002 2f65 ffffffff",
        OPEN,
        "01 00000001 00000002 0000000051c6d660",
    ];
    let wanted = [
        "0000005a 00000004 0000000100000001 00000000 00000002 2f65",
        "0000000100000001 0000000100000001 00000000000003e8 00000000000003e8",
        "00000000 00000000 00000000 0300000000000001 00000000 00000000",
        "0000000100000001",
    ];
    assert!(rt; is_first_answered(rt.alloc(), WriteKind::Create2, &txn, &wanted)?);
    Ok(())
}

/// A create that isn't a create2 shows its path alone.
#[test]
fn create(rt: HostRuntime) -> Result<(), Fail> {
    let txn = [
        "0300000000000001 00000004 0000000100000001 00000000000003e8 00000001 00000002 2f61 ffffffff",
        OPEN,
        "00 00000001",
    ];
    let wanted = ["00000016 00000004 0000000100000001 00000000 00000002 2f61"];
    assert!(rt; is_first_answered(rt.alloc(), WriteKind::Create, &txn, &wanted)?);
    Ok(())
}

/// The leader refuses one; another finds the node there.
#[test]
fn failures(rt: HostRuntime) -> Result<(), Fail> {
    let alloc = rt.alloc();
    let refused = ["0300000000000001 00000004 0000000100000004 00000000000003e8 ffffffff ffffff92"];
    let wanted = ["00000010 00000004 0000000100000004 ffffff92"];
    assert!(rt; is_first_answered(alloc, WriteKind::Create2, &refused, &wanted)?);
    let mut tree = tree_with(alloc, &CREATE2)?;
    let wanted = ["00000010 00000002 0000000100000003 ffffff92"];
    assert!(rt; is_answered(alloc, &mut tree, WriteKind::Create2, &CREATE2, &wanted)?);
    Ok(())
}
