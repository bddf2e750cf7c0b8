//! The results of multis.

use crate::replies::{OPEN, is_first_answered};
use forwarding::WriteKind;
use std::test::Fail;

/// What stands before the parts: the header, and the type.
const MULTI: &str = "0300000000000001 00000004 0000000100000001 00000000000003e8 0000000e";

/// The digest behind them.
const DIGEST: &str = "00000002 0000000051c6d660";

/// The end of the results.
const END: &str = "ffffffff 01 ffffffff";

/// The Stat of a setData is that of its part: version 1, no child, one byte. Later parts make a child of the node, and
/// delete it.
#[test]
fn parts(rt: HostRuntime) -> Result<(), Fail> {
    let txn = [
        MULTI,
        "00000006 00000001 0000002a 00000002 2f6d 00000000",
        OPEN,
        "00 00000001 00000005 0000000f 00000002 2f6d 00000001 78 00000001",
        "00000001 0000002c 00000004 2f6d2f6e 00000000",
        OPEN,
        "00 00000001 00000002 00000008 00000004 2f6d2f6e 00000002 00000006 00000002 2f6d",
        "0000000d 00000009 00000001 2f 00000001",
        DIGEST,
    ];
    let wanted = [
        "000000a1 00000004 0000000100000001 00000000",
        "00000001 00 00000000 00000002 2f6d",
        "00000005 00 00000000 0000000100000001 0000000100000001 00000000000003e8 00000000000003e8",
        "00000001 00000000 00000000 0000000000000000 00000001 00000000 0000000100000001",
        "00000001 00 00000000 00000004 2f6d2f6e",
        "00000002 00 00000000 00000002 00 00000000 0000000d 00 00000000",
        END,
    ];
    assert!(rt; is_first_answered(rt.alloc(), WriteKind::Multi, &txn, &wanted)?);
    Ok(())
}

/// A part that is a create2 shows the Stat.
#[test]
fn create2(rt: HostRuntime) -> Result<(), Fail> {
    let txn = [
        MULTI,
        "00000001 0000000f 0000002b 00000002 2f6d 00000001 78",
        OPEN,
        "00 00000001",
        DIGEST,
    ];
    let wanted = [
        "0000006c 00000004 0000000100000001 00000000 0000000f 00 00000000 00000002 2f6d",
        "0000000100000001 0000000100000001 00000000000003e8 00000000000003e8",
        "00000000 00000000 00000000 0000000000000000 00000001 00000000 0000000100000001",
        END,
    ];
    assert!(rt; is_first_answered(rt.alloc(), WriteKind::Multi, &txn, &wanted)?);
    Ok(())
}

/// The error is no error of the reply, and the parts before the one that failed have error 0.
#[test]
fn failed(rt: HostRuntime) -> Result<(), Fail> {
    let txn = [
        MULTI,
        "00000003 00000001 0000002a 00000002 2f66 00000000",
        OPEN,
        "00 00000001 ffffffff 00000004 ffffff99 ffffffff 00000004 fffffffe",
        DIGEST,
    ];
    let wanted = [
        "00000040 00000004 0000000100000001 00000000",
        "ffffffff 00 00000000 00000000 ffffffff 00 ffffff99 ffffff99",
        "ffffffff 00 fffffffe fffffffe",
        END,
    ];
    assert!(rt; is_first_answered(rt.alloc(), WriteKind::Multi, &txn, &wanted)?);
    Ok(())
}

/// No part has no result. What the leader couldn't read is refused as a whole.
#[test]
fn no_parts(rt: HostRuntime) -> Result<(), Fail> {
    let alloc = rt.alloc();
    let txn = [MULTI, "00000000", DIGEST];
    let wanted = ["00000019 00000004 0000000100000001 00000000", END];
    assert!(rt; is_first_answered(alloc, WriteKind::Multi, &txn, &wanted)?);
    let refused = [
        "0300000000000001 00000004 0000000100000001 00000000000003e8 ffffffff fffffffb",
        DIGEST,
    ];
    let wanted = ["00000010 00000004 0000000100000001 fffffffb"];
    assert!(rt; is_first_answered(alloc, WriteKind::Multi, &refused, &wanted)?);
    Ok(())
}
