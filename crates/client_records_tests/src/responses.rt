//! The responses and events for clients.

use crate::helpers::{expect_read, expect_spelled, expect_written};
use client_records::{
    Acls, ConnectResponse, Create2Response, ExistsResponse, GetAclResponse, GetChildren2Response,
    GetChildrenResponse, GetDataResponse, Name, PathResponse, WatcherEvent,
};
use jute::{Acl, Id, ReadRecord, Reader, Stat, read_vector};
use std::alloc::Global;
use std::process::Abort;
use std::test::Fail;
use values::{Blob, Bytes, Listed, NoMemory, Str};

/// The Stat of the root of a fresh tree: its one child is a preset node.
const ROOT: [u8; 68] = *b"\x00\x00\x00\x00\x00\x00\x00\x00\x00\x00\x00\x00\x00\x00\x00\x00\
    \x00\x00\x00\x00\x00\x00\x00\x00\x00\x00\x00\x00\x00\x00\x00\x00\
    \x00\x00\x00\x00\xff\xff\xff\xff\x00\x00\x00\x00\
    \x00\x00\x00\x00\x00\x00\x00\x00\x00\x00\x00\x00\x00\x00\x00\x01\
    \x00\x00\x00\x00\x00\x00\x00\x00";

// The Stat that those bytes spell.
fn root() -> Stat {
    Stat {
        czxid: 0,
        mzxid: 0,
        ctime: 0,
        mtime: 0,
        version: 0,
        cversion: -1,
        aversion: 0,
        ephemeral_owner: 0,
        data_length: 0,
        num_children: 1,
        pzxid: 0,
    }
}

// The front, the root's Stat, and a byte after them.
fn with_root(alloc: Global, front: &[u8]) -> Result<Vec<u8>, NoMemory> {
    let mut bytes = Vec::from_slice(alloc, front)?;
    bytes.extend_from_slice(ROOT.as_slice())?;
    bytes.push(7)?;
    Ok(bytes)
}

// All bytes but the last one.
fn without_last(bytes: &[u8]) -> &[u8] {
    match bytes.split_last() {
        Some((_, front)) => front,
        None => bytes,
    }
}

#[test]
#[tactic(auto, unfolding(client_records::specs::Responses::connect_response))]
fn connect_response(rt: HostRuntime) -> Result<(), Fail> {
    let alloc = rt.alloc();
    let bytes = b"\x00\x00\x00\x00\x00\x00\x27\x10\x03\x00\x00\x00\x00\x00\x00\x01\
        \x00\x00\x00\x02pw\x00";
    let expected = ConnectResponse {
        protocol_version: 0,
        time_out: 10_000,
        session_id: 0x300_0000_0000_0001,
        passwd: Some(Blob::new(alloc, b"pw")?),
    };
    expect_spelled(&rt, alloc, bytes, &expected)
}

#[test]
#[tactic(auto, unfolding(client_records::specs::Responses::exists_response, jute::specs::Records::stat_format))]
fn exists_response(rt: HostRuntime) -> Result<(), Fail> {
    let alloc = rt.alloc();
    let bytes = with_root(alloc, b"")?;
    let expected = ExistsResponse { stat: root() };
    expect_spelled(&rt, alloc, bytes.as_slice(), &expected)
}

// Ends the test unless the bytes are read as the reply to getData with this data.
fn expect_data<'a, R: Abort>(
    rt: &R,
    alloc: Global,
    bytes: &'a [u8],
    data: &'a [u8],
) -> Result<(), Fail> {
    let expected = GetDataResponse {
        bytes: Some(Bytes::new(data)),
        stat: root(),
    };
    expect_read(rt, alloc, bytes, &expected)
}

#[test]
#[tactic(auto, unfolding(client_records::specs::Responses::get_data_response, jute::specs::Records::stat_format))]
fn get_data_response(rt: HostRuntime) -> Result<(), Fail> {
    let alloc = rt.alloc();
    let bytes = with_root(alloc, b"\x00\x00\x00\x02hi")?;
    let expected = GetDataResponse {
        bytes: Some(Bytes::new(b"hi")),
        stat: root(),
    };
    expect_data(&rt, alloc, bytes.as_slice(), b"hi")?;
    expect_written(&rt, alloc, &expected, without_last(bytes.as_slice()))
}

/// The names of two children, and a byte after them.
const CHILDREN: [u8; 23] = *b"\x00\x00\x00\x02\x00\x00\x00\x01a\x00\x00\x00\x09zookeeper\x07";

#[test]
#[tactic(auto, unfolding(client_records::specs::Responses::get_children_response))]
fn get_children_response(rt: HostRuntime) -> Result<(), Fail> {
    let alloc = rt.alloc();
    let names = vec![in alloc; Name::new("a"), Name::new("zookeeper")]?;
    let expected = GetChildrenResponse {
        children: Listed::from_vec(names),
    };
    expect_spelled(&rt, alloc, CHILDREN.as_slice(), &expected)
}

// Ends the test unless the bytes are read as the reply to getChildren2 that lists these names.
fn expect_names<'a, R: Abort>(
    rt: &R,
    alloc: Global,
    bytes: &'a [u8],
    first: &'a str,
    second: &'a str,
) -> Result<(), Fail> {
    let names = vec![in alloc; Name::new(first), Name::new(second)]?;
    let expected = GetChildren2Response {
        children: Listed::from_vec(names),
        stat: root(),
    };
    expect_read(rt, alloc, bytes, &expected)
}

#[test]
#[tactic(auto, unfolding(client_records::specs::Responses::get_children2_response, jute::specs::Records::stat_format))]
fn get_children2_response(rt: HostRuntime) -> Result<(), Fail> {
    let alloc = rt.alloc();
    let names = vec![in alloc; Name::new("a"), Name::new("zookeeper")]?;
    let expected = GetChildren2Response {
        children: Listed::from_vec(names),
        stat: root(),
    };
    let bytes = with_root(alloc, without_last(CHILDREN.as_slice()))?;
    expect_names(&rt, alloc, bytes.as_slice(), "a", "zookeeper")?;
    expect_written(&rt, alloc, &expected, without_last(bytes.as_slice()))
}

// Whether the bytes are these entries and the root's Stat, read field by field.
fn are_read(alloc: Global, bytes: &[u8], entries: &[Acl]) -> Result<bool, Fail> {
    let mut reader = Reader::new(bytes);
    let Some(list) = read_vector::<Acl>(alloc, &mut reader)? else {
        return Ok(false);
    };
    let stat = Stat::read(alloc, &mut reader)?;
    Ok(list.as_slice() == entries && stat == root() && reader.rest().is_empty())
}

#[test]
#[tactic(auto, unfolding(client_records::specs::Responses::get_acl_response, jute::specs::Records::stat_format, jute::specs::Owned::acl_in, jute::specs::Owned::id_in))]
fn get_acl_response(rt: HostRuntime) -> Result<(), Fail> {
    let alloc = rt.alloc();
    let open = Acl {
        perms: 31,
        id: Id {
            scheme: Blob::new(alloc, b"world")?,
            id: Blob::new(alloc, b"anyone")?,
        },
    };
    let list = vec![in alloc; open]?;
    let response = GetAclResponse {
        acl: Acls::new(list.as_slice()),
        stat: root(),
    };
    let front = b"\x00\x00\x00\x01\x00\x00\x00\x1f\x00\x00\x00\x05world\x00\x00\x00\x06anyone";
    let bytes = with_root(alloc, front)?;
    let bytes = without_last(bytes.as_slice());
    expect_written(&rt, alloc, &response, bytes)?;
    assert!(rt; are_read(alloc, bytes, list.as_slice())?);
    Ok(())
}

#[test]
#[tactic(auto, unfolding(client_records::specs::Responses::watcher_event))]
fn watcher_event(rt: HostRuntime) -> Result<(), Fail> {
    let bytes = b"\x00\x00\x00\x02\x00\x00\x00\x03\x00\x00\x00\x04/a/f\x07";
    let expected = WatcherEvent {
        kind: 2,
        state: 3,
        path: Some(Str::new("/a/f")),
    };
    expect_spelled(&rt, rt.alloc(), bytes, &expected)
}

#[test]
#[tactic(auto, unfolding(client_records::specs::Responses::path_response))]
fn path_response(rt: HostRuntime) -> Result<(), Fail> {
    let response = PathResponse {
        path: Some(Str::new("/a/f")),
    };
    expect_written(&rt, rt.alloc(), &response, b"\x00\x00\x00\x04/a/f")
}

/// The path comes first, the Stat after it.
#[test]
#[tactic(auto, unfolding(client_records::specs::Responses::create2_response, jute::specs::Records::stat_format))]
fn create2_response(rt: HostRuntime) -> Result<(), Fail> {
    let alloc = rt.alloc();
    let response = Create2Response {
        path: Some(Str::new("/p2")),
        stat: root(),
    };
    let bytes = with_root(alloc, b"\x00\x00\x00\x03/p2")?;
    expect_written(&rt, alloc, &response, without_last(bytes.as_slice()))
}
