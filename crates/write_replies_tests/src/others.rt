//! Deletes of containers, reconfigs, and the writes of ZooKeeper 3.4.

use crate::replies::{OPEN, is_answered, is_first_answered, tree_with};
use forwarding::WriteKind;
use std::test::Fail;

/// The node of the configuration is made, with the data "old".
const CONFIG: [&str; 3] = [
    "0000000000000007 00000001 0000000100000001 00000000000003e8 00000001 \
        00000011 2f7a6f6f6b65657065722f636f6e666967 00000003 6f6c64",
    OPEN,
    "00 ffffffff",
];

/// The same, where nobody may read it: its list has one entry, without READ.
const HIDDEN_CONFIG: [&str; 2] = [
    "0000000000000007 00000001 0000000100000001 00000000000003e8 00000001 \
        00000011 2f7a6f6f6b65657065722f636f6e666967 00000003 6f6c64",
    "00000001 00000002 00000005 776f726c64 00000006 616e796f6e65 00 ffffffff",
];

/// A reconfig sets its data to "new".
const RECONFIG: [&str; 2] = [
    "0300000000000001 00000004 0000000100000002 00000000000007d0 00000010",
    "00000011 2f7a6f6f6b65657065722f636f6e666967 00000003 6e6577 ffffffff 00000002 0000000051c6d660",
];

/// The reply has the new data and the Stat of the node.
const RECONFIGURED: [&str; 3] = [
    "0000005b 00000004 0000000100000002 00000000 00000003 6e6577 0000000100000001",
    "0000000100000002 00000000000003e8 00000000000007d0 ffffffff 00000000 00000000",
    "0000000000000000 00000003 00000000 0000000100000001",
];

#[test]
fn reconfig(rt: HostRuntime) -> Result<(), Fail> {
    let alloc = rt.alloc();
    let mut tree = tree_with(alloc, &CONFIG)?;
    assert!(rt;
        is_answered(
            alloc,
            &mut tree,
            WriteKind::Reconfig,
            &RECONFIG,
            &RECONFIGURED
        )?
    );
    Ok(())
}

/// No permission is asked for: the leader has done it.
#[test]
fn reconfig_of_a_hidden_node(rt: HostRuntime) -> Result<(), Fail> {
    let alloc = rt.alloc();
    let mut tree = tree_with(alloc, &HIDDEN_CONFIG)?;
    assert!(rt;
        is_answered(
            alloc,
            &mut tree,
            WriteKind::Reconfig,
            &RECONFIG,
            &RECONFIGURED
        )?
    );
    Ok(())
}

/// Without the node it fails.
#[test]
fn reconfig_without_the_node(rt: HostRuntime) -> Result<(), Fail> {
    let wanted = ["00000010 00000004 0000000100000002 ffffff9b"];
    assert!(rt; is_first_answered(rt.alloc(), WriteKind::Reconfig, &RECONFIG, &wanted)?);
    Ok(())
}

/// A container is made.
const CONTAINER: [&str; 3] = [
    "0000000000000007 00000001 0000000100000001 00000000000003e8 00000013 00000002 2f63 00000000",
    OPEN,
    "00000001",
];

#[test]
fn delete_container(rt: HostRuntime) -> Result<(), Fail> {
    let alloc = rt.alloc();
    let delete = [
        "0300000000000001 00000004 0000000100000003 0000000000000bb8 00000014 00000002 2f63",
    ];
    let mut tree = tree_with(alloc, &CONTAINER)?;
    let wanted = ["00000010 00000004 0000000100000003 00000000"];
    assert!(rt;
        is_answered(
            alloc,
            &mut tree,
            WriteKind::DeleteContainer,
            &delete,
            &wanted
        )?
    );
    let wanted = ["00000010 00000004 0000000100000003 ffffff9b"];
    assert!(rt;
        is_answered(
            alloc,
            &mut tree,
            WriteKind::DeleteContainer,
            &delete,
            &wanted
        )?
    );
    Ok(())
}

/// A setData of a container is answered with its Stat, which shows no owner.
#[test]
fn set_data(rt: HostRuntime) -> Result<(), Fail> {
    let alloc = rt.alloc();
    let mut tree = tree_with(alloc, &CONTAINER)?;
    let set = [
        "0300000000000001 00000004 0000000100000002 00000000000007d0 00000005 00000002 2f63 00000001 78 00000001",
    ];
    let wanted = [
        "00000054 00000004 0000000100000002 00000000 0000000100000001 0000000100000002",
        "00000000000003e8 00000000000007d0 00000001 00000000 00000000",
        "0000000000000000 00000001 00000000 0000000100000001",
    ];
    assert!(rt; is_answered(alloc, &mut tree, WriteKind::SetData, &set, &wanted)?);
    Ok(())
}
