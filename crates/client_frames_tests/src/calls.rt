//! Frames after the first one.

use crate::helpers::asked;
use std::test::*;

#[test]
fn reads(rt: HostRuntime) {
    let path = b"\x00\x00\x00\x07\x00\x00\x00\x03\x00\x00\x00\x02/a\x01";
    assert_eq!(rt; asked(rt.alloc(), path), "exists");
    let path = b"\x00\x00\x00\x07\x00\x00\x00\x04\x00\x00\x00\x02/a\x01";
    assert_eq!(rt; asked(rt.alloc(), path), "getData");
    let path = b"\x00\x00\x00\x07\x00\x00\x00\x06\x00\x00\x00\x02/a";
    assert_eq!(rt; asked(rt.alloc(), path), "getACL");
    let path = b"\x00\x00\x00\x07\x00\x00\x00\x08\x00\x00\x00\x02/a\x01";
    assert_eq!(rt; asked(rt.alloc(), path), "getChildren");
    let path = b"\x00\x00\x00\x07\x00\x00\x00\x0c\x00\x00\x00\x02/a\x01";
    assert_eq!(rt; asked(rt.alloc(), path), "getChildren2");
}

#[test]
fn others(rt: HostRuntime) {
    let auth = b"\x00\x00\x00\x07\x00\x00\x00\x64\x00\x00\x00\x00\xff\xff\xff\xff\xff\xff\xff\xff";
    assert_eq!(rt; asked(rt.alloc(), auth), "auth");
    let watches = b"\x00\x00\x00\x07\x00\x00\x00\x65\x00\x00\x00\x00\x00\x00\x00\x00\
        \x00\x00\x00\x00\xff\xff\xff\xff\x00\x00\x00\x00";
    assert_eq!(rt; asked(rt.alloc(), watches), "setWatches");
    let watch = b"\x00\x00\x00\x07\x00\x00\x00\x6a\x00\x00\x00\x02/a\x00\x00\x00\x01";
    assert_eq!(rt; asked(rt.alloc(), watch), "recursive watch");
    assert_eq!(rt;
        asked(rt.alloc(), b"\x00\x00\x00\x07\x00\x00\x00\x0b"),
        "ping"
    );
    assert_eq!(rt;
        asked(rt.alloc(), b"\x00\x00\x00\x07\x00\x00\x00\x0f"),
        "unknown"
    );
}

/// A write is told by its type alone. A check and a multi are no writes.
#[test]
fn writes(rt: HostRuntime) {
    assert_eq!(rt;
        asked(rt.alloc(), b"\x00\x00\x00\x07\x00\x00\x00\x01"),
        "create"
    );
    assert_eq!(rt;
        asked(rt.alloc(), b"\x00\x00\x00\x07\x00\x00\x00\x02\xff"),
        "delete"
    );
    assert_eq!(rt;
        asked(rt.alloc(), b"\x00\x00\x00\x07\x00\x00\x00\x05"),
        "setData"
    );
    assert_eq!(rt;
        asked(rt.alloc(), b"\x00\x00\x00\x07\x00\x00\x00\x07"),
        "setACL"
    );
    assert_eq!(rt;
        asked(rt.alloc(), b"\x00\x00\x00\x07\xff\xff\xff\xf5"),
        "closeSession"
    );
    assert_eq!(rt;
        asked(rt.alloc(), b"\x00\x00\x00\x07\x00\x00\x00\x0d"),
        "refused"
    );
    assert_eq!(rt;
        asked(rt.alloc(), b"\x00\x00\x00\x07\x00\x00\x00\x0e"),
        "refused"
    );
}

/// Of the root; of an empty path, of null, of a path without a slash, of one with a NUL, and without a body.
#[test]
fn syncs(rt: HostRuntime) {
    let root = b"\x00\x00\x00\x07\x00\x00\x00\x09\x00\x00\x00\x01/";
    assert_eq!(rt; asked(rt.alloc(), root), "sync of the root");
    let empty = b"\x00\x00\x00\x07\x00\x00\x00\x09\x00\x00\x00\x00";
    assert_eq!(rt; asked(rt.alloc(), empty), "invalid path");
    let null = b"\x00\x00\x00\x07\x00\x00\x00\x09\xff\xff\xff\xff";
    assert_eq!(rt; asked(rt.alloc(), null), "invalid path");
    let relative = b"\x00\x00\x00\x07\x00\x00\x00\x09\x00\x00\x00\x01a";
    assert_eq!(rt; asked(rt.alloc(), relative), "invalid path");
    let nul = b"\x00\x00\x00\x07\x00\x00\x00\x09\x00\x00\x00\x02/\x00";
    assert_eq!(rt; asked(rt.alloc(), nul), "invalid path");
    assert_eq!(rt;
        asked(rt.alloc(), b"\x00\x00\x00\x07\x00\x00\x00\x09"),
        "unreadable"
    );
}

/// A body that ends too early, and a header that does.
#[test]
fn short(rt: HostRuntime) {
    let path = b"\x00\x00\x00\x07\x00\x00\x00\x04\x00\x00\x00\x02/a";
    assert_eq!(rt; asked(rt.alloc(), path), "unreadable");
    assert_eq!(rt;
        asked(rt.alloc(), b"\x00\x00\x00\x07\x00\x00\x00\x64"),
        "unreadable auth"
    );
    assert_eq!(rt;
        asked(rt.alloc(), b"\x00\x00\x00\x07\x00\x00\x00\x65"),
        "unreadable"
    );
    let watch = b"\x00\x00\x00\x07\x00\x00\x00\x6a\x00\x00\x00\x02/a\x00\x00\x00";
    assert_eq!(rt; asked(rt.alloc(), watch), "unreadable");
    assert_eq!(rt;
        asked(rt.alloc(), b"\x00\x00\x00\x07\x00\x00\x00"),
        "no header"
    );
    assert_eq!(rt; asked(rt.alloc(), b""), "no header");
}
