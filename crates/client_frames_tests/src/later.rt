//! Frames of later clients.

use crate::helpers::{asked, asked_in};
use client_frames::{forwarded_by_type, worked_calls};
use settings::Dialect;
use std::alloc::Global;
use std::test::*;

/// A create2 of /p2 with the data "P2", as a client of ZooKeeper 3.8 sent it.
const CREATE2: [u8; 52] = *b"\x00\x00\x00\x02\x00\x00\x00\x0f\x00\x00\x00\x03/p2\
    \x00\x00\x00\x02P2\x00\x00\x00\x01\x00\x00\x00\x1f\x00\x00\x00\x05world\
    \x00\x00\x00\x06anyone\x00\x00\x00\x00";

/// A createTTL of /t with the data "T" and 100 seconds.
const CREATE_TTL: [u8; 58] = *b"\x00\x00\x00\x11\x00\x00\x00\x15\x00\x00\x00\x02/t\
    \x00\x00\x00\x01T\x00\x00\x00\x01\x00\x00\x00\x1f\x00\x00\x00\x05world\
    \x00\x00\x00\x06anyone\x00\x00\x00\x05\x00\x00\x00\x00\x00\x01\x86\xa0";

/// A reconfig by which server 3 leaves.
const RECONFIG: [u8; 29] = *b"\x00\x00\x00\x06\x00\x00\x00\x10\xff\xff\xff\xff\
    \x00\x00\x00\x013\xff\xff\xff\xff\xff\xff\xff\xff\xff\xff\xff\xff";

/// A multi whose one part is a create2 of /lm.
const MULTI: [u8; 68] = *b"\x00\x00\x00\x01\x00\x00\x00\x0e\x00\x00\x00\x0f\x00\xff\xff\xff\xff\
    \x00\x00\x00\x03/lm\x00\x00\x00\x00\x00\x00\x00\x01\x00\x00\x00\x1f\x00\x00\x00\x05world\
    \x00\x00\x00\x06anyone\x00\x00\x00\x01\xff\xff\xff\xff\x01\xff\xff\xff\xff";

// The request of a frame of a later client, in a word, if it has this xid.
fn later(alloc: Global, xid: i32, frame: &[u8]) -> &'static str {
    asked_in(alloc, Dialect::Zk38, xid, frame)
}

#[test]
fn later_writes(rt: HostRuntime) {
    let alloc = rt.alloc();
    assert_eq!(rt; later(alloc, 2, CREATE2.as_slice()), "create2");
    assert_eq!(rt; later(alloc, 17, CREATE_TTL.as_slice()), "createTTL");
    assert_eq!(rt; later(alloc, 6, RECONFIG.as_slice()), "reconfig");
    let container = b"\x00\x00\x00\x07\x00\x00\x00\x13";
    assert_eq!(rt; later(alloc, 7, container), "createContainer");
    let container = b"\x00\x00\x00\x07\x00\x00\x00\x14\x00\x00\x00\x02/c";
    assert_eq!(rt; later(alloc, 7, container), "deleteContainer");
}

/// ZooKeeper 3.4 knows none of them.
#[test]
fn later_writes_before(rt: HostRuntime) {
    let alloc = rt.alloc();
    let create2 = asked_in(alloc, Dialect::Zk34, 2, CREATE2.as_slice());
    assert_eq!(rt; create2, "unknown");
    assert_eq!(rt;
        asked(alloc, b"\x00\x00\x00\x07\x00\x00\x00\x10"),
        "unknown"
    );
    assert_eq!(rt;
        asked(alloc, b"\x00\x00\x00\x07\x00\x00\x00\x13"),
        "unknown"
    );
    assert_eq!(rt;
        asked(alloc, b"\x00\x00\x00\x07\x00\x00\x00\x14"),
        "unknown"
    );
    assert_eq!(rt;
        asked(alloc, b"\x00\x00\x00\x07\x00\x00\x00\x15"),
        "unknown"
    );
}

/// A check isn't forwarded in any dialect, and a multi of ZooKeeper 3.4 neither.
#[test]
fn checks_and_multis(rt: HostRuntime) {
    let alloc = rt.alloc();
    let check = b"\x00\x00\x00\x07\x00\x00\x00\x0d\x00\x00\x00\x01/\x00\x00\x00\x00";
    assert_eq!(rt; asked(alloc, check), "refused");
    assert_eq!(rt; later(alloc, 7, check), "refused");
    let multi = asked_in(alloc, Dialect::Zk34, 1, MULTI.as_slice());
    assert_eq!(rt; multi, "refused");
    assert_eq!(rt; later(alloc, 1, MULTI.as_slice()), "multi");
    worked_calls();
    forwarded_by_type();
}

/// What clients of ZooKeeper 3.4 send is read as before, and other types stay unknown.
#[test]
fn earlier_types(rt: HostRuntime) {
    let alloc = rt.alloc();
    let create = b"\x00\x00\x00\x07\x00\x00\x00\x01";
    assert_eq!(rt; later(alloc, 7, create), "create");
    let path = b"\x00\x00\x00\x07\x00\x00\x00\x03\x00\x00\x00\x02/a\x01";
    assert_eq!(rt; later(alloc, 7, path), "exists");
    assert_eq!(rt;
        later(alloc, 7, b"\x00\x00\x00\x07\x00\x00\x00\x63"),
        "unknown"
    );
}

/// Those that only later clients send, with xid 7: they are known by their type in the later dialect alone.
#[test]
fn later_reads(rt: HostRuntime) {
    let alloc = rt.alloc();
    let sasl = b"\x00\x00\x00\x07\x00\x00\x00\x66\xff\xff\xff\xff";
    assert_eq!(rt; later(alloc, 7, sasl), "sasl");
    assert_eq!(rt; asked(alloc, sasl), "unknown");
    let ephemerals = b"\x00\x00\x00\x07\x00\x00\x00\x67\x00\x00\x00\x01/";
    assert_eq!(rt; later(alloc, 7, ephemerals), "getEphemerals");
    let below = b"\x00\x00\x00\x07\x00\x00\x00\x68\x00\x00\x00\x01/";
    assert_eq!(rt; later(alloc, 7, below), "getAllChildrenNumber");
    let who = b"\x00\x00\x00\x07\x00\x00\x00\x6b";
    assert_eq!(rt; later(alloc, 7, who), "whoAmI");
}

/// Watches of later clients, with xid 7; a body that is missing can't be read.
#[test]
fn later_watches(rt: HostRuntime) {
    let alloc = rt.alloc();
    let checked = b"\x00\x00\x00\x07\x00\x00\x00\x11\x00\x00\x00\x01/\x00\x00\x00\x02";
    assert_eq!(rt; later(alloc, 7, checked), "checkWatches");
    let removed = b"\x00\x00\x00\x07\x00\x00\x00\x12\x00\x00\x00\x01/\x00\x00\x00\x02";
    assert_eq!(rt; later(alloc, 7, removed), "removeWatches");
    assert_eq!(rt;
        later(alloc, 7, b"\x00\x00\x00\x07\x00\x00\x00\x12"),
        "unreadable"
    );
    let lists = b"\x00\x00\x00\x07\x00\x00\x00\x69\x00\x00\x00\x00\x00\x00\x00\x01\
        \x00\x00\x00\x00\x00\x00\x00\x00\x00\x00\x00\x00\x00\x00\x00\x00\x00\x00\x00\x00";
    assert_eq!(rt; later(alloc, 7, lists), "setWatches2");
}
