//! The requests of clients.

use crate::helpers::{expect_read, expect_spelled};
use client_records::{
    AddWatch, AuthPacket, ConnectRequest, Name, PathAlone, PathAndWatch, SetWatches,
};
use std::alloc::Global;
use std::test::Fail;
use values::{Bytes, Listed, NoMemory, Str};

/// Session 5 with an empty password, and a byte after the record: no read-only server is accepted.
const CONNECT: [u8; 45] = *b"\x00\x00\x00\x00\
    \x00\x00\x00\x00\x00\x00\x00\x00\
    \x00\x00\x27\x10\
    \x00\x00\x00\x00\x00\x00\x00\x05\
    \x00\x00\x00\x10\
    \x00\x00\x00\x00\x00\x00\x00\x00\x00\x00\x00\x00\x00\x00\x00\x00\
    \x00";

#[test]
#[tactic(auto, unfolding(client_records::specs::Requests::connect_request))]
fn connect_request(rt: HostRuntime) -> Result<(), Fail> {
    let expected = ConnectRequest {
        protocol_version: 0,
        last_zxid_seen: 0,
        time_out: 10_000,
        session_id: 5,
        passwd: Some(Bytes::new(&[0; 16])),
    };
    expect_spelled(&rt, rt.alloc(), CONNECT.as_slice(), &expected)
}

/// A path and a watch, and a byte after them.
#[test]
#[tactic(auto, unfolding(client_records::specs::Requests::path_and_watch))]
fn path_and_watch(rt: HostRuntime) -> Result<(), Fail> {
    let bytes = b"\x00\x00\x00\x01/\x01\x07";
    let expected = PathAndWatch {
        path: Some(Str::new("/")),
        watch: true,
    };
    expect_spelled(&rt, rt.alloc(), bytes, &expected)?;
    let null = PathAndWatch {
        path: None,
        watch: false,
    };
    expect_read(&rt, rt.alloc(), b"\xff\xff\xff\xff\x00\x07", &null)
}

#[test]
#[tactic(auto, unfolding(client_records::specs::Requests::path_alone))]
fn get_acl_request(rt: HostRuntime) -> Result<(), Fail> {
    let bytes = b"\x00\x00\x00\x02/a\x07";
    let expected = PathAlone {
        path: Some(Str::new("/a")),
    };
    expect_spelled(&rt, rt.alloc(), bytes, &expected)
}

#[test]
#[tactic(auto, unfolding(client_records::specs::Requests::auth_packet))]
fn auth_packet(rt: HostRuntime) -> Result<(), Fail> {
    let bytes = b"\x00\x00\x00\x00\x00\x00\x00\x06digest\x00\x00\x00\x0bsuper:admin\x07";
    let expected = AuthPacket {
        kind: 0,
        scheme: Some(Str::new("digest")),
        auth: Some(Bytes::new(b"super:admin")),
    };
    expect_spelled(&rt, rt.alloc(), bytes, &expected)
}

/// Mode 1 at /a, and a byte after the record.
#[test]
#[tactic(auto, unfolding(client_records::specs::Requests::add_watch))]
fn add_watch(rt: HostRuntime) -> Result<(), Fail> {
    let bytes = b"\x00\x00\x00\x02/a\x00\x00\x00\x01\x07";
    let expected = AddWatch {
        path: Some(Str::new("/a")),
        mode: 1,
    };
    expect_spelled(&rt, rt.alloc(), bytes, &expected)?;
    let null = AddWatch {
        path: None,
        mode: -1,
    };
    expect_read(
        &rt,
        rt.alloc(),
        b"\xff\xff\xff\xff\xff\xff\xff\xff\x07",
        &null,
    )
}

// The list of one name.
fn one<'a>(alloc: Global, text: &'a str) -> Result<Listed<Name<'a>>, NoMemory> {
    Ok(Listed::from_vec(vec![in alloc; Name::new(text)]?))
}

const WATCHES: [u8; 38] = *b"\x00\x00\x00\x00\x00\x00\x00\x00\
    \x00\x00\x00\x01\x00\x00\x00\x02/a\
    \x00\x00\x00\x01\x00\x00\x00\x02/q\
    \x00\x00\x00\x01\x00\x00\x00\x01/\x07";

/// A null list is read as empty, and a null path as an empty one.
#[test]
fn null_watches(rt: HostRuntime) -> Result<(), Fail> {
    let alloc = rt.alloc();
    let bytes = b"\xff\xff\xff\xff\xff\xff\xff\xfe\
        \xff\xff\xff\xff\x00\x00\x00\x01\xff\xff\xff\xff\x00\x00\x00\x00\x07";
    let expected = SetWatches {
        relative_zxid: -2,
        data_watches: Listed::from_vec(Vec::new(alloc)),
        exist_watches: one(alloc, "")?,
        child_watches: Listed::from_vec(Vec::new(alloc)),
    };
    expect_read(&rt, alloc, bytes, &expected)
}

#[test]
#[tactic(auto, unfolding(client_records::specs::Requests::set_watches))]
fn set_watches(rt: HostRuntime) -> Result<(), Fail> {
    let alloc = rt.alloc();
    let expected = SetWatches {
        relative_zxid: 0,
        data_watches: Listed::from_vec(vec![in alloc; Name::new("/a")]?),
        exist_watches: Listed::from_vec(vec![in alloc; Name::new("/q")]?),
        child_watches: Listed::from_vec(vec![in alloc; Name::new("/")]?),
    };
    expect_spelled(&rt, alloc, WATCHES.as_slice(), &expected)
}
